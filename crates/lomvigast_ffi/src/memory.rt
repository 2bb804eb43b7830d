// Guest memory by address.
ghost use Rattle.std.specs.Prelude.{◌≡◌};
ghost use Rattle.guest.specs.Memory.{window, inside};
ghost use Rattle.guest.specs.Fields.{whole_of};
ghost use Rattle.guest.specs.Answers.{number_at, trb_read, write_number, write_memory, number_of};
ghost use Rattle.lomvigast_ffi.specs.Memory.{flat_number, put_trb};

use guest::refusal::Refusal;
use guest::{FromWindow, Window};

// A value, with refusal 0; or a refusal, with 0.
#[repr(C)]
#[derive(Clone, Copy)]
pub struct CNumber {
    pub value: u64,
    pub refusal: u8,
}

fn flat_number(answer: Result<u64, Refusal>) -> CNumber
    ensures { result ≡ flat_number answer }
{
    match answer {
        Ok(value) => CNumber { value, refusal: 0 },
        Err(refusal) => CNumber {
            value: 0,
            refusal: refusal.number(),
        },
    }
}

pub fn lomvigast_inside(start: u64, mem: &[u8], address: u64, length: u64) -> bool
    ensures { result ≡ inside (window start mem.now) address length }
{
    Window::at(start, mem).inside(address, length)
}

pub fn lomvigast_read2(start: u64, mem: &[u8], address: u64) -> CNumber
    ensures { result ≡ flat_number (number_at (window start mem.now) address 2) }
{
    flat_number(u16::read(&Window::at(start, mem), address).map(u64::from))
}

pub fn lomvigast_read4(start: u64, mem: &[u8], address: u64) -> CNumber
    ensures { result ≡ flat_number (number_at (window start mem.now) address 4) }
{
    flat_number(u32::read(&Window::at(start, mem), address).map(u64::from))
}

pub fn lomvigast_read8(start: u64, mem: &[u8], address: u64) -> CNumber
    ensures { result ≡ flat_number (number_at (window start mem.now) address 8) }
{
    flat_number(u64::read(&Window::at(start, mem), address))
}

pub fn lomvigast_read_trb(start: u64, mem: &[u8], address: u64, out: &mut [u64; 2]) -> u8
    ensures { (result ≡ number_of (trb_read (window start mem.now) address)) × (out.new ≡ put_trb (trb_read (window start mem.now) address) out.old) }
{
    match Window::at(start, mem).read_trb(address) {
        Ok(trb) => {
            *out = [guest::low(trb), guest::high(trb)];
            0
        }
        Err(refusal) => refusal.number(),
    }
}

pub fn lomvigast_write_trb(start: u64, mem: &mut [u8], address: u64, low: u64, high: u64) -> u8
    ensures { (result ≡ write_number (window start mem.old) address) × (mem.new ≡ (write_memory (window start mem.old) address (whole_of low high)).bytes) }
{
    match guest::write_trb(start, mem, address, guest::whole(low, high)) {
        Ok(()) => 0,
        Err(refusal) => refusal.number(),
    }
}
