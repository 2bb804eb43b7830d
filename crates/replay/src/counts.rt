// How many lines came out how.
use crate::kind::Kind;
use std::io;

// How many differing lines are shown.
const SHOWN: u64 = 10;

// How many lines were read, how many cases agree, how many lines differ as they must, and how many are not as told; and how many of
// each kind agree: by a kind's place, since a map has a heap.
#[derive(Default, Drop)]
pub(crate) struct Counts {
    lines: u64,
    agree: u64,
    differ: u64,
    otherwise: u64,
    kinds: [u64; 10],
}

fn increment(count: &mut u64) {
    *count = count.wrapping_add(1);
}

impl Counts {
    pub(crate) fn line(&mut self) {
        increment(&mut self.lines);
    }

    // Counts a line that differs, or does not and must, and shows it and the core's.
    pub(crate) fn otherwise(&mut self, rt: &impl Print, line: &[u8], got: &[u8]) -> io::Result<()> {
        if self.otherwise < SHOWN {
            print!(rt; "line {} is not as told: ", self.lines)?;
            rt.write_all(line)?;
            rt.write_all(b"; got ")?;
            rt.write_all(got)?;
            println!(rt)?;
        }
        increment(&mut self.otherwise);
        Ok(())
    }

    pub(crate) fn as_told(&mut self, wrong: bool, kind: Kind) {
        if wrong {
            increment(&mut self.differ);
            return;
        }
        increment(&mut self.kinds[kind as usize]);
        if kind.is_case() {
            increment(&mut self.agree);
        }
    }

    pub(crate) fn show(&self, rt: &impl Print) -> io::Result<()> {
        for kind in Kind::ALL {
            println!(rt; "{kind}: {}", self.kinds[kind as usize])?;
        }
        let Counts {
            agree,
            differ,
            otherwise,
            ..
        } = *self;
        let cases = agree.wrapping_add(differ).wrapping_add(otherwise);
        print!(rt; "replay: {cases} cases read, {agree} agree, ")?;
        println!(rt; "{differ} differ as they must, {otherwise} are otherwise")
    }
}
