// Lines about guest memory and the rings in it. What runs are the exports, so refusals and states are C's numbers here.
ghost use Rattle.std.specs.Prelude.{◌≤◌, length};

use crate::digits::write_numbers;
use crate::input::Numbers;
use crate::trbs::{Event, Trb};
use lomvigast_ffi::rings::CEventRing;
use lomvigast_ffi::{linked, memory, rings};
use std::io;
use std::io::Write;

// The original's memory begins at 0.
const START: u64 = 0;

// The memory that an M line made, which is so much of the room, and the event ring in it.
#[derive(Drop)]
pub(crate) struct Guest<'a> {
    room: &'a mut [u8],
    size: usize,
    ring: CEventRing,
    ghost within: { size ≤ length room.now },
}

impl<'a> Guest<'a> {
    pub(crate) fn new(room: &'a mut [u8]) -> Guest<'a> {
        Guest {
            room,
            size: 0,
            ring: [0; 7],
        }
    }

    // Makes so much of the room memory, and answers whether the room has so much.
    pub(crate) fn resize(&mut self, size: u64) -> bool {
        let fits = size <= self.room.len() as u64;
        if fits {
            self.size = size as usize;
        }
        fits
    }

    // A memory of zeros and a new event ring.
    pub(crate) fn make(&mut self, given: &Numbers, text: &mut impl Write) -> io::Result<()> {
        self.room[..self.size].fill(0);
        rings::lomvigast_reset(&mut self.ring);
        write_numbers(&[given[1]], text)?;
        text.write_all(b":")
    }

    // Sixteen bytes put into memory.
    pub(crate) fn poke(&mut self, given: &Numbers, text: &mut impl Write) -> io::Result<()> {
        let address = given[1];
        let trb = Trb::read(given[2], given[3]);
        let memory = &mut self.room[..self.size];
        let refusal = memory::lomvigast_write_trb(START, memory, address, trb.low, trb.high);
        write_numbers(&[address], text)?;
        trb.write(text)?;
        text.write_all(b":")?;
        if refusal != 0 {
            write_numbers(&[u64::from(refusal)], text)?;
        }
        Ok(())
    }

    // A linked ring set to a place and asked for its next TRB.
    pub(crate) fn chase(&self, given: &Numbers, text: &mut impl Write) -> io::Result<()> {
        let [_, place, cycle, ..] = *given;
        let mut ring = [0; 2];
        linked::lomvigast_set_place(&mut ring, place, cycle == 1);
        let memory = &self.room[..self.size];
        let chase = linked::lomvigast_next_trb(START, memory, &mut ring);
        let answer = chase.kind & 0xff;
        let refusal = chase.kind >> 8;
        let address = chase.address;
        let [next, next_cycle] = ring;
        let links = chase.notes & 0xffff;
        let cleared = chase.notes >> 16 & 0xff;
        let completion = chase.notes >> 24;
        let trb = Trb {
            low: chase.low,
            high: chase.high,
        };
        write_numbers(&[place, cycle & 1], text)?;
        text.write_all(b":")?;
        write_numbers(
            &[
                answer, refusal, address, next, next_cycle, links, cleared, completion,
            ],
            text,
        )?;
        trb.write(text)
    }

    pub(crate) fn configure(&mut self, given: &Numbers, text: &mut impl Write) -> io::Result<()> {
        let table = given[1];
        let entries = (given[2] & 0xffff) as u16;
        let memory = &self.room[..self.size];
        let refusal = rings::lomvigast_configure(START, memory, &mut self.ring, table, entries);
        write_numbers(&[table, u64::from(entries)], text)?;
        text.write_all(b":")?;
        self.state(refusal, text)
    }

    pub(crate) fn add(&mut self, given: &Numbers, text: &mut impl Write) -> io::Result<()> {
        let event = Event::from(*given);
        let words = event.words();
        let report = given[9];
        let memory = &mut self.room[..self.size];
        let refusal = rings::lomvigast_add(START, memory, &mut self.ring, &words, report);
        let sum = checksum(memory);
        event.write(text)?;
        write_numbers(&[report], text)?;
        text.write_all(b":")?;
        self.state(refusal, text)?;
        write_numbers(&[sum], text)
    }

    // The refusal and the event ring's state.
    fn state(&self, refusal: u8, text: &mut impl Write) -> io::Result<()> {
        let [_, place, remaining, index, _, _, cycle] = self.ring;
        write_numbers(&[u64::from(refusal), index, place, remaining, cycle], text)
    }
}

// A linked ring set to a place and advanced.
pub(crate) fn step(given: &Numbers, text: &mut impl Write) -> io::Result<()> {
    let [_, place, cycle, ..] = *given;
    let mut ring = [0; 2];
    linked::lomvigast_set_place(&mut ring, place, cycle == 1);
    linked::lomvigast_advance(&mut ring);
    let [next, next_cycle] = ring;
    write_numbers(&[place, cycle & 1], text)?;
    text.write_all(b":")?;
    write_numbers(&[next, next_cycle], text)
}

// FNV-1a, 64 bits, of all bytes. The prime is 2^40 + 0x1b3.
fn checksum(memory: &[u8]) -> u64 {
    memory.iter().fold(0xcbf2_9ce4_8422_2325, |sum: u64, b| {
        (sum ^ u64::from(*b)).wrapping_mul(0x100_0000_01b3)
    })
}
