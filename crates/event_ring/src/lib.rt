// The event ring (xHCI 4.9.4, 6.5): the controller's side, which adds events, and a reader, which takes them.
//
// Both stand on a slot of a segment of the table, with a cycle. The slot after it is 16 bytes further, or, after a segment's last,
// the base of the next entry's segment, entry 0 coming after the last; where entry 0 is entered again the cycle flips. The ring
// writes events with its cycle bit; a slot is fresh to the reader if its cycle bit is the reader's.
#![tactic(auto)]

ghost use Rattle.std.specs.Prelude.{◌≡◌, true, false, MatchResult};
ghost use Rattle.guest.specs.Memory.{window};
ghost use Rattle.guest.specs.declared.refusal.Refusal.TheVariants.{State};
ghost use Rattle.event_ring.specs.Answers.{moved, reader_moved, taken_as};
ghost use Rattle.event_ring.specs.Ring.{entry_of_bytes, good_entry, entry_read, empty, count_ok, ok_state, next_index, entered, along, enter_next, next, configured, add_step, added, added_memory, reader_at, reader_configured, take};

use guest::refusal::Refusal;
use guest::{Dwords, Window};
use trb::RawTrbBuffer;
use trb::event::EventTrb;

// An entry of the segment table.
#[derive(Clone, Copy)]
pub struct Entry {
    pub base: u64,
    pub size: u32,
}

// `ready` stands beside the others, and no Option around them: `state_back` (crates/lomvigast_ffi) has every state whole, ready or not, and
// C's words have all seven.
#[derive(Clone, Copy)]
pub struct EventRing {
    pub ready: bool,
    pub table: u64,
    pub entries: u16,
    pub index: u16,
    pub place: u64,
    pub remaining: u32,
    pub cycle: bool,
}

// A ring whose state was found to keep its own limits.
#[derive(Clone, Copy)]
struct Checked {
    ring: EventRing,
    ghost limits: { ok_state ring ≡ true },
}

// The reader's state is of the same kind.
#[derive(Clone, Copy)]
pub struct EventReader {
    pub state: EventRing,
}

// An event's raw bytes, and the reader after it.
#[derive(Clone, Copy)]
pub struct Taken {
    pub trb: RawTrbBuffer,
    pub reader: EventReader,
}

fn count_ok(entries: u16) -> bool
    ensures { result ≡ count_ok entries }
{
    (1 <= entries) & (entries <= EventRing::MOST_ENTRIES)
}

impl From<[u8; 16]> for Entry {
    ghost from_gives = { λ trb e. e ≡ entry_of_bytes trb };

    fn from(trb: [u8; 16]) -> Entry {
        Entry {
            base: guest::low(trb),
            size: Dwords::from(trb).d2,
        }
    }
}

impl Entry {
    const BYTES: u64 = 16;

    // Whether it is as refusal 5 asks.
    #[tactic(auto, unfolding(crate::specs::Ring::good_entry))]
    fn good(self, mem: &Window<'_>) -> bool
        ensures { result ≡ good_entry mem.now self }
    {
        (self.base % EventRing::SEGMENT_ALIGNMENT == 0)
            & (1 <= self.size)
            & (self.size <= EventRing::MOST_SLOTS)
            & mem.inside(self.base, EventRing::SLOT_SIZE * u64::from(self.size))
    }

    // The entry at an address, or what refuses it.
    fn read(mem: &Window<'_>, address: u64) -> Result<Entry, Refusal>
        ensures { result ≡ entry_read mem.now address }
    {
        let e = Entry::from(mem.read_trb(address)?);
        if !e.good(mem) {
            return Err(Refusal::Segment);
        }
        Ok(e)
    }
}

impl EventRing {
    pub const SLOT_SIZE: u64 = 16;

    pub const MOST_SLOTS: u32 = 4096;

    pub const MOST_ENTRIES: u16 = 16;

    pub const SEGMENT_ALIGNMENT: u64 = 64;

    pub fn new() -> Self
        ensures { result ≡ empty }
    {
        EventRing {
            ready: false,
            table: 0,
            entries: 0,
            index: 0,
            place: 0,
            remaining: 0,
            cycle: false,
        }
    }

    pub fn reset(self) -> Self
        ensures { result ≡ empty }
    {
        EventRing::new()
    }

    // Whether the state keeps its own limits.
    #[tactic(auto, unfolding(crate::specs::Ring::ok_state))]
    fn ok(self) -> bool
        ensures { result ≡ ok_state self }
    {
        self.ready
            & count_ok(self.entries)
            & (self.index < self.entries)
            & (1 <= self.remaining)
            & (self.remaining <= EventRing::MOST_SLOTS)
            & (self.table % EventRing::SEGMENT_ALIGNMENT == 0)
            & (self.place % EventRing::SLOT_SIZE == 0)
    }

    // The ring as one that does, or refusal 4.
    fn checked(self) -> Result<Checked, Refusal>
        ensures { MatchResult result (λ s. (s.ring ≡ self) × (ok_state self ≡ true)) (λ r. (r ≡ State) × (ok_state self ≡ false)) }
    {
        if !self.ok() {
            return Err(Refusal::State);
        }
        Ok(Checked { ring: self })
    }

    // The ring at the start of entry `index`, which is `e`.
    fn enter(self, index: u16, e: Entry) -> Self
        ensures { result ≡ entered self index e }
    {
        EventRing {
            index,
            place: e.base,
            remaining: e.size,
            cycle: (index == 0) != self.cycle,
            ..self
        }
    }

    // Whatever the ring's state was. `table` and `entries` come as two numbers, as document 01 and C have them.
    pub fn configure(self, mem: &Window<'_>, table: u64, entries: u16) -> Result<EventRing, Refusal>
        ensures { result ≡ moved (configured mem.now self table entries) }
    {
        if table % EventRing::SEGMENT_ALIGNMENT != 0 {
            return Err(Refusal::TableBase);
        }
        if !count_ok(entries) {
            return Err(Refusal::TableEntries);
        }
        if !mem.inside(table, Entry::BYTES * u64::from(entries)) {
            return Err(Refusal::Outside);
        }
        let e = Entry::read(mem, table)?;
        Ok(EventRing {
            ready: true,
            table,
            entries,
            place: e.base,
            remaining: e.size,
            cycle: true,
            ..EventRing::new()
        })
    }

    // Where an add moves the ring to, or what refuses it, once the event has its bytes.
    fn add_step(self, mem: &Window<'_>, report: u64) -> Result<EventRing, Refusal>
        ensures { result ≡ moved (add_step mem.now self report) }
    {
        let ring = self.checked()?;
        if report % EventRing::SLOT_SIZE != 0 {
            return Err(Refusal::Report);
        }
        if !mem.inside(self.place, EventRing::SLOT_SIZE) {
            return Err(Refusal::Outside);
        }
        let next = ring.next(mem)?;
        if next.place == report {
            return Err(Refusal::Full);
        }
        Ok(next)
    }

    // Adds an event, given the place up to which the reader has reported that it took events: two inputs of this one operation, no
    // parts of one thing. It takes the slice and no window, since the bytes at exit are promised.
    pub fn add(
        self,
        start: u64,
        mem: &mut [u8],
        event: EventTrb,
        report: u64,
    ) -> Result<EventRing, Refusal>
        ensures { (result ≡ moved (added (window start mem.old) self event report)) × (mem.new ≡ (added_memory (window start mem.old) self event report).bytes) }
    {
        let trb = event.to_bytes(self.cycle)?;
        let step = self.add_step(&Window::at(start, mem), report)?;
        guest::write_trb(start, mem, self.place, trb)?;
        Ok(step)
    }
}

impl Checked {
    // The entry after the present one.
    #[tactic(auto, unfolding(crate::specs::Ring::next_index))]
    fn next_index(self) -> u16
        ensures { result ≡ next_index self.ring }
    {
        let ring = self.ring;
        if ring.index + 1 == ring.entries {
            return 0;
        }
        ring.index + 1
    }

    // The ring one slot on in its segment, modulo 2^64.
    fn step(self) -> EventRing
        ensures { result ≡ along self.ring }
    {
        let ring = self.ring;
        EventRing {
            place: ring.place.wrapping_add(EventRing::SLOT_SIZE),
            remaining: ring.remaining - 1,
            ..ring
        }
    }

    // The ring in the next entry, or what refuses that entry.
    fn enter_next(self, mem: &Window<'_>) -> Result<EventRing, Refusal>
        ensures { result ≡ moved (enter_next mem.now self.ring) }
    {
        let index = self.next_index();
        let past = Entry::BYTES * u64::from(index);
        let entry = self.ring.table.checked_add(past).ok_or(Refusal::Outside)?;
        let e = Entry::read(mem, entry)?;
        Ok(self.ring.enter(index, e))
    }

    // The ring on the slot after the present one, or what refuses that.
    fn next(self, mem: &Window<'_>) -> Result<EventRing, Refusal>
        ensures { result ≡ moved (next mem.now self.ring) }
    {
        if self.ring.remaining == 1 {
            return self.enter_next(mem);
        }
        Ok(self.step())
    }
}

// Its `new`, `reset` and `configure` are the ring's and no generic ones: document 01 gives each ring type its own.
impl EventReader {
    pub fn new() -> Self
        ensures { result ≡ reader_at empty }
    {
        EventReader {
            state: EventRing::new(),
        }
    }

    pub fn reset(self) -> Self
        ensures { result ≡ reader_at empty }
    {
        EventReader::new()
    }

    #[tactic(auto, unfolding(crate::specs::Ring::reader_configured))]
    pub fn configure(
        self,
        mem: &Window<'_>,
        table: u64,
        entries: u16,
    ) -> Result<EventReader, Refusal>
        ensures { result ≡ reader_moved (reader_configured mem.now self table entries) }
    {
        let state = self.state.configure(mem, table, entries)?;
        Ok(EventReader { state })
    }

    // Takes the event that stands in the reader's slot, if the slot is fresh.
    pub fn take(self, mem: &Window<'_>) -> Result<Option<Taken>, Refusal>
        ensures { result ≡ taken_as (take mem.now self) }
    {
        let ring = self.state.checked()?;
        let trb = mem.read_trb(self.state.place)?;
        if trb::cycle_bit(trb) != self.state.cycle {
            return Ok(None);
        }
        let state = ring.next(mem)?;
        Ok(Some(Taken {
            trb,
            reader: EventReader { state },
        }))
    }
}
