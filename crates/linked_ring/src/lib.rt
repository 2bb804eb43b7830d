// The link-following reader of a command or transfer ring (xHCI 4.9.2, 4.9.2.1, 4.11.5.1): a place in guest memory and a cycle state.
//
// The rule. A TRB is fresh if its cycle bit equals the state. A fresh Link is followed: the place becomes its pointer, and the
// state flips if its toggle is set. 256 links are followed; what then stands there ends the chase, and if it is one more fresh
// Link the answer says so.
#![tactic(auto)]

ghost use Rattle.std.specs.Prelude.{◌≡◌, ◌-◌, ◌<◌};
ghost use Rattle.linked_ring.specs.Chase.{ring_at, advanced, followed, unnoted, noted, fresh_of, chase_from, chase};

use guest::Window;
use guest::refusal::Refusal;
use trb::RawTrbBuffer;
use trb::link::LinkTrb;

#[derive(Clone, Copy)]
pub struct LinkedRing {
    pub place: u64,
    pub cycle: bool,
}

// Links followed; whether any of them had pointer bits cleared; whether any had the completion bit.
#[derive(Clone, Copy)]
pub struct Notes {
    pub links: u16,
    pub cleared: bool,
    pub completion: bool,
}

// A TRB, and where it stands.
#[derive(Clone, Copy)]
pub struct RawTrb {
    pub address: u64,
    pub buffer: RawTrbBuffer,
}

#[derive(Clone, Copy)]
pub enum Found {
    Trb(RawTrb),
    NothingNew,
    TooManyLinks,
}

// What was found, the ring as moved, and the notes.
#[derive(Clone, Copy)]
pub struct Chase {
    pub found: Found,
    pub ring: LinkedRing,
    pub notes: Notes,
}

impl Notes {
    fn none() -> Self
        ensures { result ≡ unnoted }
    {
        Notes {
            links: 0,
            cleared: false,
            completion: false,
        }
    }

    fn with(self, link: LinkTrb) -> Self
        requires { self.links < 256 }
        ensures { result ≡ noted self link }
    {
        Notes {
            links: self.links + 1,
            cleared: self.cleared | link.pointer_bits_cleared,
            completion: self.completion | link.interrupt_on_completion,
        }
    }
}

impl LinkedRing {
    pub const TRB_SIZE: u64 = 16;

    pub const MOST_LINKS: u16 = 256;

    pub fn new(place: u64, cycle: bool) -> Self
        ensures { result ≡ ring_at place cycle }
    {
        LinkedRing { place, cycle }
    }

    // One TRB further, modulo 2^64.
    pub fn advance(self) -> Self
        ensures { result ≡ advanced self }
    {
        LinkedRing {
            place: self.place.wrapping_add(LinkedRing::TRB_SIZE),
            ..self
        }
    }

    // Promised beside `new`, with the same contract: there a ring begins, here one moves. Both take the parts that a ring is made of.
    pub fn set_place(self, place: u64, cycle: bool) -> Self
        ensures { result ≡ ring_at place cycle }
    {
        LinkedRing::new(place, cycle)
    }

    // The ring as a Link moves it.
    fn follow(self, link: LinkTrb) -> Self
        ensures { result ≡ followed self link }
    {
        LinkedRing {
            place: link.ring_segment_pointer,
            cycle: self.cycle != link.toggle_cycle,
        }
    }

    fn fresh(self, trb: RawTrbBuffer) -> bool
        ensures { result ≡ fresh_of self.cycle trb }
    {
        trb::cycle_bit(trb) == self.cycle
    }

    // The chase from here on, of a ring that has come here over so many links.
    fn go_on(self, mem: &Window<'_>, noted: Notes) -> Result<Chase, Refusal>
        ensures { result ≡ chase_from mem.now (256 - noted.links) self noted }
    {
        let mut ring = self;
        let mut notes = noted;
        // No `for`: the notes count the links, and after the last that is followed there is one look more.
        let found = loop {
            let buffer = mem.read_trb(ring.place)?;
            if !ring.fresh(buffer) {
                break Found::NothingNew;
            }
            let Some(link) = LinkTrb::parse(buffer) else {
                break Found::Trb(RawTrb {
                    address: ring.place,
                    buffer,
                });
            };
            if LinkedRing::MOST_LINKS <= notes.links {
                break Found::TooManyLinks;
            }
            ring = ring.follow(link);
            notes = notes.with(link);
        };
        Ok(Chase { found, ring, notes })
    }

    // The next TRB that is fresh and no Link, with the Links on the way followed. A refusal hands out no ring, so the caller's is the
    // one that entered.
    #[tactic(auto, unfolding(crate::specs::Chase::chase))]
    pub fn next_trb(self, mem: &Window<'_>) -> Result<Chase, Refusal>
        ensures { result ≡ chase mem.now self }
    {
        self.go_on(mem, Notes::none())
    }
}

// The same two on a ring that is lent to be changed in place, which document 01 asks for beside them.

pub fn advance_in_place(ring: &mut LinkedRing)
    ensures { ring.new ≡ advanced ring.old }
{
    *ring = ring.advance();
}

pub fn set_place_in_place(ring: &mut LinkedRing, place: u64, cycle: bool)
    ensures { ring.new ≡ ring_at place cycle }
{
    *ring = ring.set_place(place, cycle);
}
