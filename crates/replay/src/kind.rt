// What a line is about, in the order in which the counts are shown.
use std::fmt;

#[derive(Clone, Copy)]
pub(crate) enum Kind {
    Command,
    Transfer,
    Link,
    Event,
    Step,
    Chase,
    Ring,
    Add,
    Memory,
    Poke,
}

// A letter that no kind has.
#[derive(Drop)]
pub(crate) struct NoKind;

impl Kind {
    pub(crate) const ALL: [Kind; 10] = [
        Kind::Command,
        Kind::Transfer,
        Kind::Link,
        Kind::Event,
        Kind::Step,
        Kind::Chase,
        Kind::Ring,
        Kind::Add,
        Kind::Memory,
        Kind::Poke,
    ];

    // M and P lines make what the cases are run on, and are none.
    pub(crate) fn is_case(self) -> bool {
        !matches!(self, Kind::Memory | Kind::Poke)
    }
}

impl TryFrom<u8> for Kind {
    type Error = NoKind;

    fn try_from(letter: u8) -> Result<Kind, NoKind> {
        match letter {
            b'C' => Ok(Kind::Command),
            b'T' => Ok(Kind::Transfer),
            b'L' => Ok(Kind::Link),
            b'E' => Ok(Kind::Event),
            b'S' => Ok(Kind::Step),
            b'N' => Ok(Kind::Chase),
            b'G' => Ok(Kind::Ring),
            b'A' => Ok(Kind::Add),
            b'M' => Ok(Kind::Memory),
            b'P' => Ok(Kind::Poke),
            _ => Err(NoKind),
        }
    }
}

impl fmt::Display for Kind {
    fn fmt<W: fmt::Write>(&self, f: &mut fmt::Formatter<W>) -> fmt::Result {
        f.write_str(match self {
            Kind::Command => "C commands parsed",
            Kind::Transfer => "T transfer TRBs parsed",
            Kind::Link => "L links parsed",
            Kind::Event => "E events written",
            Kind::Step => "S steps of a linked ring",
            Kind::Chase => "N chases",
            Kind::Ring => "G event rings configured",
            Kind::Add => "A events added",
            Kind::Memory => "M memories made for them",
            Kind::Poke => "P TRBs put into these",
        })
    }
}
