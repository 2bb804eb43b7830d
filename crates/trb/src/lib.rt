// Transfer Request Blocks (xHCI 4.11, 6.4): sixteen bytes taken apart and put together, a module for each kind.
#![tactic(auto)]

pub mod command;
pub mod data;
pub mod event;
pub mod link;
pub mod transfer;

ghost use Rattle.std.specs.Prelude.{◌≡◌, Bool, ◌+◌, ◌*◌, ◌/◌, ◌%◌, ◌<◌, ◌≤◌, eqb};
ghost use Rattle.guest.specs.Bytes.{le};
ghost use Rattle.guest.specs.Fields.{bits, dword, field};
ghost use Rattle.trb.specs.Trb.{type_of, cycle_of, pointer_of, aligned_of};

use guest::Dwords;
use guest::refusal::Refusal;

pub type RawTrbBuffer = [u8; 16];

// Why a TRB is not taken apart, and beside the refusals Optional and Type the TRB's type, else 0: no Option, as document 01 shows a 0 where there
// is nothing to show, and C's words have it.
#[derive(Clone, Copy)]
pub struct TrbParseError {
    pub refusal: Refusal,
    pub trb_type: u8,
}

// What a parser gives back of a TRB that it does not take apart.
#[derive(Clone, Copy)]
pub struct Unrecognized {
    pub error: TrbParseError,
    pub raw: RawTrbBuffer,
}

impl Unrecognized {
    fn new(refusal: Refusal, trb_type: u8, raw: RawTrbBuffer) -> Self
        ensures { result ≡ record { error = record { refusal = refusal; trb_type = trb_type }; raw = raw } }
    {
        Unrecognized {
            error: TrbParseError { refusal, trb_type },
            raw,
        }
    }
}

// Any of 64, so a number.
pub fn trb_type(raw: RawTrbBuffer) -> u8
    ensures { result ≡ type_of raw }
{
    raw[13] / 4
}

pub fn cycle_bit(raw: RawTrbBuffer) -> bool
    ensures { result ≡ cycle_of raw }
{
    let d = Dwords::from(raw);
    d.d3 % 2 == 1
}

// What the modules read of the bytes, each but `two` as the field of a dword that it is. At each call the place is a literal, of which the check
// sees that it is below 16; where the width is one too, it stands in a function of its own (`endpoint_id`, `low_bits`), which asks nothing.

// Bit `lo` of byte `at`.
fn flag(raw: RawTrbBuffer, at: usize, lo: u8) -> bool
    requires { (at < 16) × (lo < 8) }
    ensures { result ≡ eqb (bits (dword raw (at / 4)) (8 * (at % 4) + lo) 1) 1 }
{
    (raw[at] >> lo) % 2 == 1
}

fn byte(raw: RawTrbBuffer, at: usize) -> u8
    requires { at < 16 }
    ensures { result ≡ bits (dword raw (at / 4)) (8 * (at % 4)) 8 }
{
    raw[at]
}

fn slot_id(raw: RawTrbBuffer) -> u8
    ensures { result ≡ field raw 3 24 8 }
{
    byte(raw, 15)
}

fn endpoint_id(raw: RawTrbBuffer) -> u8
    ensures { result ≡ field raw 3 16 5 }
{
    raw[14] % 32
}

// The number of two bytes from byte `at` on.
#[tactic(auto, unfolding(guest::specs::Bytes::le))]
fn two(raw: RawTrbBuffer, at: usize) -> u16
    requires { at + 2 ≤ 16 }
    ensures { result ≡ le raw at 2 }
{
    u16::from_le_bytes([raw[at], raw[at + 1]])
}

// Bytes 0 to 7.
fn pointer(raw: RawTrbBuffer) -> u64
    ensures { result ≡ pointer_of raw }
{
    let d = Dwords::from(raw);
    u64::from(d.d0) + u64::from(d.d1) * 0x1_0000_0000
}

// The low four bits of the pointer, and the pointer with these cleared.

fn low_bits(raw: RawTrbBuffer) -> u8
    ensures { result ≡ field raw 0 0 4 }
{
    raw[0] % 16
}

fn aligned_pointer(raw: RawTrbBuffer) -> u64
    ensures { result ≡ aligned_of raw }
{
    let pointer = pointer(raw);
    pointer - pointer % 16
}
