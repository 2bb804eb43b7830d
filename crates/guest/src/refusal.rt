// The refusals of document 01.
ghost use Rattle.std.specs.Prelude.{◌≡◌};
ghost use Rattle.guest.specs.Refusals.{number_of};

// By their numbers.
#[derive(Clone, Copy, PartialEq, Eq)]
pub enum Refusal {
    // A byte to be touched is not inside the lent memory.
    Outside = 1,
    // The table's base is not a multiple of 64.
    TableBase = 2,
    // The table has no entry, or too many.
    TableEntries = 3,
    // The ring was never configured, or was reset, or its state breaks its own limits.
    State = 4,
    // A segment entry: base not a multiple of 64, size 0 or too large, or not all of the segment inside memory.
    Segment = 5,
    // The reported place is not a multiple of 16.
    Report = 6,
    // The ring is full.
    Full = 7,
    // An event that cannot be written: a field does not fit, or a pointer's low bits are set.
    Event = 8,
    // An optional command, types 18 to 21.
    Optional = 9,
    // A type that the parser has no row for.
    Type = 10,
    // A bit is set that must be 0.
    Reserved = 11,
    // An event's completion code is not one that the event can hold.
    Code = 12,
    // The data part was asked of a TRB that holds its data itself.
    Immediate = 13,
}

impl Refusal {
    // Document 01's number: by name, and no `From`, as contracts say `number_of`.
    pub fn number(self) -> u8
        ensures { result ≡ number_of self }
    {
        self as u8
    }
}
