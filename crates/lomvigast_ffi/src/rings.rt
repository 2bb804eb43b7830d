// The event ring and its reader: a state of seven words, lent to be changed.
ghost use Rattle.std.specs.Prelude.{◌≡◌, ◌*◌, ◌/◌};
ghost use Rattle.guest.specs.Memory.{window};
ghost use Rattle.event_ring.specs.Ring.{empty, configured, reader_at, reader_configured, take};
ghost use Rattle.words.specs.Events.{event_in};
ghost use Rattle.lomvigast_ffi.specs.Rings.{words_of, fits, state_of, plain, stepped, ring_after, reader_after, added_from, memory_from, ring_from, take_number, put_taken, taken_from};

use event_ring::{EventReader, EventRing};
use guest::Window;

// A word for each field, in this order. A new field is a word more: here, in specs/Rings.antt, in Rust's `State` and in
// include/lomvigast.h.
pub type CEventRing = [u64; 7];

const TABLE: usize = 0;

const PLACE: usize = 1;

const REMAINING: usize = 2;

const INDEX: usize = 3;

const ENTRIES: usize = 4;

const READY: usize = 5;

const CYCLE: usize = 6;

// What `lomvigast_take` answers where there is no event. No refusal has this number.
const NOTHING: u8 = 255;

#[tactic(auto, unfolding(crate::specs::Rings::fits))]
fn fits(ring: &CEventRing) -> bool
    ensures { result ≡ fits ring.now }
{
    (ring[REMAINING] < 0x1_0000_0000)
        & (ring[INDEX] < 0x1_0000)
        & (ring[ENTRIES] < 0x1_0000)
        & (ring[READY] < 2)
        & (ring[CYCLE] < 2)
}

// Words that no state has are a ring that was never configured, which is refused with 4.
fn state(ring: &CEventRing) -> EventRing
    ensures { result ≡ state_of ring.now }
{
    if !fits(ring) {
        return EventRing::new();
    }
    EventRing {
        ready: ring[READY] == 1,
        table: ring[TABLE],
        entries: (ring[ENTRIES] % 0x1_0000) as u16,
        index: (ring[INDEX] % 0x1_0000) as u16,
        place: ring[PLACE],
        remaining: (ring[REMAINING] % 0x1_0000_0000) as u32,
        cycle: ring[CYCLE] == 1,
    }
}

fn put(ring: &mut CEventRing, s: EventRing)
    ensures { ring.new ≡ words_of s }
{
    *ring = [
        s.table,
        s.place,
        s.remaining as u64,
        s.index as u64,
        s.entries as u64,
        s.ready as u64,
        s.cycle as u64,
    ];
}

// A ring within its limits whose segment has a slot after the present one: over the words, so that the usual case makes no state.
#[tactic(auto, unfolding(crate::specs::Rings::plain))]
fn plain(ring: &CEventRing) -> bool
    ensures { result ≡ plain ring.now }
{
    (ring[TABLE] % EventRing::SEGMENT_ALIGNMENT == 0)
        & (ring[PLACE] % EventRing::SLOT_SIZE == 0)
        & (2 <= ring[REMAINING])
        & (ring[REMAINING] <= (EventRing::MOST_SLOTS as u64))
        & (ring[INDEX] < ring[ENTRIES])
        & (ring[ENTRIES] <= (EventRing::MOST_ENTRIES as u64))
        & (ring[READY] == 1)
        & (ring[CYCLE] < 2)
}

// A plain ring's place as it is, since it is a multiple of 16; of this one the compiler sees it, and asks less of it.
fn rounded(place: u64) -> u64
    ensures { result ≡ place / 16 * 16 }
{
    place / EventRing::SLOT_SIZE * EventRing::SLOT_SIZE
}

// Another place in the same segment. Written whole, as every state is: two words set alone are no plainer.
fn step(ring: &mut CEventRing, place: u64, remaining: u64)
    ensures { ring.new ≡ stepped place remaining ring.old }
{
    let [table, _, _, index, entries, ready, cycle] = *ring;
    *ring = [table, place, remaining, index, entries, ready, cycle];
}

pub fn lomvigast_reset(ring: &mut CEventRing)
    ensures { ring.new ≡ words_of empty }
{
    put(ring, EventRing::new())
}

pub fn lomvigast_configure(
    start: u64,
    mem: &[u8],
    ring: &mut CEventRing,
    table: u64,
    entries: u16,
) -> u8
    ensures { (result ≡ (configured (window start mem.now) (state_of ring.old) table entries).refusal) × (ring.new ≡ ring_after (configured (window start mem.now) (state_of ring.old) table entries) ring.old) }
{
    match EventRing::new().configure(&Window::at(start, mem), table, entries) {
        Ok(after) => {
            put(ring, after);
            0
        }
        Err(refusal) => refusal.number(),
    }
}

pub fn lomvigast_configure_reader(
    start: u64,
    mem: &[u8],
    reader: &mut CEventRing,
    table: u64,
    entries: u16,
) -> u8
    ensures { (result ≡ (reader_configured (window start mem.now) (reader_at (state_of reader.old)) table entries).refusal) × (reader.new ≡ reader_after (reader_configured (window start mem.now) (reader_at (state_of reader.old)) table entries) reader.old) }
{
    match EventReader::new().configure(&Window::at(start, mem), table, entries) {
        Ok(after) => {
            put(reader, after.state);
            0
        }
        Err(refusal) => refusal.number(),
    }
}

// The whole rule, for the export, which calls it where the case is not the usual one: two functions, for speed (docs/SPEED.md, "The usual case
// first").
fn add(start: u64, mem: &mut [u8], ring: &mut CEventRing, event: &[u64; 3], report: u64) -> u8
    ensures { (result ≡ (added_from (window start mem.old) (state_of ring.old) (event_in event.now) report).refusal) × (mem.new ≡ (memory_from (window start mem.old) (state_of ring.old) (event_in event.now) report).bytes) × (ring.new ≡ ring_from (window start mem.old) ring.old (event_in event.now) report) }
{
    let given = words::event::given(event);
    let Ok(e) = given else {
        return words::event::number(given);
    };
    match state(ring).add(start, mem, e, report) {
        Ok(after) => {
            put(ring, after);
            0
        }
        Err(refusal) => refusal.number(),
    }
}

// Adds an event, given the place up to which the reader has reported that it took events. The usual case, in which the ring goes on in
// its segment, is done here; all else by `add`.
pub fn lomvigast_add(
    start: u64,
    mem: &mut [u8],
    ring: &mut CEventRing,
    event: &[u64; 3],
    report: u64,
) -> u8
    ensures { (result ≡ (added_from (window start mem.old) (state_of ring.old) (event_in event.now) report).refusal) × (mem.new ≡ (memory_from (window start mem.old) (state_of ring.old) (event_in event.now) report).bytes) × (ring.new ≡ ring_from (window start mem.old) ring.old (event_in event.now) report) }
{
    let place = rounded(ring[PLACE]);
    if !Window::at(start, mem).inside(place, EventRing::SLOT_SIZE) {
        return add(start, mem, ring, event, report);
    }
    if !(plain(ring) & (report % EventRing::SLOT_SIZE == 0)) {
        return add(start, mem, ring, event, report);
    }
    let next = place.wrapping_add(EventRing::SLOT_SIZE);
    if next == report {
        return add(start, mem, ring, event, report);
    }
    let trb = words::event::bytes(event, ring[CYCLE]);
    if trb.high < 0x100 {
        return add(start, mem, ring, event, report);
    }
    // Inside, as was tested.
    let _ = guest::write_trb(start, mem, place, guest::whole(trb.low, trb.high));
    let remaining = ring[REMAINING] - 1;
    step(ring, next, remaining);
    0
}

// The whole rule, for the export, as with `add`.
fn take(start: u64, mem: &[u8], reader: &mut CEventRing, out: &mut [u64; 2]) -> u8
    ensures { (result ≡ take_number (take (window start mem.now) (reader_at (state_of reader.old))).answer) × (reader.new ≡ taken_from (take (window start mem.now) (reader_at (state_of reader.old))) reader.old) × (out.new ≡ put_taken (take (window start mem.now) (reader_at (state_of reader.old))) out.old) }
{
    let entry = EventReader {
        state: state(reader),
    };
    match entry.take(&Window::at(start, mem)) {
        Ok(Some(taken)) => {
            put(reader, taken.reader.state);
            *out = [guest::low(taken.trb), guest::high(taken.trb)];
            0
        }
        Ok(None) => NOTHING,
        Err(refusal) => refusal.number(),
    }
}

// Takes the event that stands in the reader's slot, if the slot is fresh: 0, with the event's halves in `out`; 255 where it is not. The
// usual case, in which the reader goes on in its segment, is done here; all else by `take`.
pub fn lomvigast_take(start: u64, mem: &[u8], reader: &mut CEventRing, out: &mut [u64; 2]) -> u8
    ensures { (result ≡ take_number (take (window start mem.now) (reader_at (state_of reader.old))).answer) × (reader.new ≡ taken_from (take (window start mem.now) (reader_at (state_of reader.old))) reader.old) × (out.new ≡ put_taken (take (window start mem.now) (reader_at (state_of reader.old))) out.old) }
{
    let place = rounded(reader[PLACE]);
    let Ok(slot) = Window::at(start, mem).read_slot(place) else {
        return take(start, mem, reader, out);
    };
    if !plain(reader) {
        return take(start, mem, reader, out);
    }
    if slot.d3 % 2 != reader[CYCLE] {
        return NOTHING;
    }
    let remaining = reader[REMAINING] - 1;
    *out = [slot.low, slot.high];
    let next = place.wrapping_add(EventRing::SLOT_SIZE);
    step(reader, next, remaining);
    0
}
