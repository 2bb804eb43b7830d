// The link-following reader: a ring of two words, lent to be moved.
ghost use Rattle.std.specs.Prelude.{◌≡◌, ◌+◌, ◌*◌, ◌^◌, [], ◌∷◌, slice_set, Ok};
ghost use Rattle.guest.specs.Memory.{window};
ghost use Rattle.trb.specs.Trb.{bit};
ghost use Rattle.linked_ring.specs.Chase.{ring_at, advanced, chase};
ghost use Rattle.lomvigast_ffi.specs.Linked.{ring_of, ring_words, ring_after, notes_word, flat_chase};

use codes::trb_types;
use guest::{Slot, Window};
use linked_ring::{Chase, Found, LinkedRing, Notes};

// The place, and the cycle state as 0 or 1.
pub type CLinkedRing = [u64; 2];

// What a chase came to, as Rust and C hold it: byte 0 of `kind` is one of the numbers below, byte 1 a refusal's; `notes` has the links in two
// bytes, then a byte for each flag.
#[repr(C)]
#[derive(Clone, Copy)]
pub struct CChase {
    pub kind: u64,
    pub address: u64,
    pub low: u64,
    pub high: u64,
    pub notes: u64,
}

// The kinds, byte 0 of `kind`.
const NOTHING_NEW: u64 = 0;

const TRB: u64 = 1;

const TOO_MANY_LINKS: u64 = 2;

const REFUSED: u64 = 3;

fn ring_of(ring: &CLinkedRing) -> LinkedRing
    ensures { result ≡ ring_of ring.now }
{
    LinkedRing::new(ring[0], ring[1] % 2 == 1)
}

fn put(ring: &mut CLinkedRing, place: u64, cycle: u64)
    ensures { ring.new ≡ place ∷ cycle ∷ [] }
{
    *ring = [place, cycle];
}

fn notes_word(n: Notes) -> u64
    ensures { result ≡ notes_word n }
{
    (n.links as u64) + (n.cleared as u64) * 0x1_0000 + (n.completion as u64) * 0x100_0000
}

// A chase that came to no TRB.
fn met(kind: u64, notes: u64) -> CChase
    ensures { result ≡ record { kind = kind; address = 0; low = 0; high = 0; notes = notes } }
{
    CChase {
        kind,
        address: 0,
        low: 0,
        high: 0,
        notes,
    }
}

fn flat_chase(c: Chase) -> CChase
    ensures { result ≡ flat_chase (Ok c) }
{
    let notes = notes_word(c.notes);
    match c.found {
        Found::NothingNew => met(NOTHING_NEW, notes),
        Found::TooManyLinks => met(TOO_MANY_LINKS, notes),
        Found::Trb(t) => CChase {
            kind: TRB,
            address: t.address,
            low: guest::low(t.buffer),
            high: guest::high(t.buffer),
            notes,
        },
    }
}

// The whole rule.
fn chase(start: u64, mem: &[u8], ring: &mut CLinkedRing) -> CChase
    ensures { (result ≡ flat_chase (chase (window start mem.now) (ring_of ring.old)))
        × (ring.new ≡ ring_after (chase (window start mem.now) (ring_of ring.old)) ring.old) }
{
    let entry = ring_of(ring);
    match entry.next_trb(&Window::at(start, mem)) {
        Ok(c) => {
            put(ring, c.ring.place, c.ring.cycle as u64);
            flat_chase(c)
        }
        Err(refusal) => met(REFUSED + (refusal.number() as u64) * 0x100, 0),
    }
}

fn found(ring: &mut CLinkedRing, place: u64, cycle: u64, links: u64, slot: Slot) -> CChase
    ensures { (result ≡ record { kind = 1; address = place; low = slot.low; high = slot.high; notes = links }) × (ring.new ≡ place ∷ cycle ∷ []) }
{
    put(ring, place, cycle);
    CChase {
        kind: TRB,
        address: place,
        low: slot.low,
        high: slot.high,
        notes: links,
    }
}

// Links that leave nothing to note are followed here, for speed (docs/SPEED.md); where anything else is met, the whole rule begins anew. The next
// place is a Link's pointer as it was read and not what is left of it after a mask, so that the next TRB can be read a step earlier.
pub fn lomvigast_next_trb(start: u64, mem: &[u8], ring: &mut CLinkedRing) -> CChase
    ensures { (result ≡ flat_chase (chase (window start mem.now) (ring_of ring.old)))
        × (ring.new ≡ ring_after (chase (window start mem.now) (ring_of ring.old)) ring.old) }
{
    let window = Window::at(start, mem);
    let mut place = ring[0];
    let mut cycle = ring[1] % 2;
    for links in 0..u64::from(LinkedRing::MOST_LINKS) {
        let Ok(slot) = window.read_next_slot(place) else {
            break;
        };
        if slot.d3 % 2 != cycle {
            put(ring, place, cycle);
            return met(NOTHING_NEW, links);
        }
        if slot.d3 / 0x400 % 0x40 != (trb_types::LINK as u64) {
            return found(ring, place, cycle, links, slot);
        }
        if !((slot.d3 / 0x20 % 2 == 0) & (slot.low % 16 == 0)) {
            break;
        }
        place = slot.low;
        cycle = (cycle + slot.d3 / 2 % 2) % 2;
    }
    chase(start, mem, ring)
}

// One TRB further, modulo 2^64.
pub fn lomvigast_advance(ring: &mut CLinkedRing)
    ensures { ring.new ≡ slice_set ring.old 0 (advanced (ring_of ring.old)).place }
{
    ring[0] = ring[0].wrapping_add(LinkedRing::TRB_SIZE);
}

pub fn lomvigast_set_place(ring: &mut CLinkedRing, place: u64, cycle: bool)
    ensures { ring.new ≡ ring_words (ring_at place cycle) }
{
    put(ring, place, cycle as u64)
}
