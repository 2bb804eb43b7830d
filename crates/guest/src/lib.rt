// Guest memory: a window, which is a lent slice of bytes and the guest address `start` of its first. No other crate reads it by
// index or works out how far from its start an address is.
#![tactic(auto)]

pub mod refusal;

ghost use Rattle.std.specs.Prelude.{◌≡◌, ℕ, ◌+◌, ◌-◌, ◌^◌, ◌≤◌, min, length};
ghost use Rattle.guest.specs.Bytes.{part, write};
ghost use Rattle.guest.specs.Memory.{Memory, window, inside};
ghost use Rattle.guest.specs.Fields.{dwords_of, bytes_of_dwords, low_of, high_of, whole_of};
ghost use Rattle.guest.specs.Answers.{number_as, bytes_read, trb_read, slot_of, slot_read, write_answer, write_memory, offset_of, part_of};

use refusal::Refusal;
use std::marker::Model;

// The last address.
pub const LAST: u64 = 0xffff_ffff_ffff_ffff;

// Lent bytes that are read by guest address.
#[derive(Drop)]
pub struct Window<'a> {
    start: u64,
    bytes: &'a [u8],
}

impl<'a> Model for Window<'a> {
    ghost Value = { Memory };

    ghost view = { λ w. window w.start w.bytes.now };
}

// A number that is read from a window, its lowest byte first.
pub trait FromWindow {
    // How many bytes it has, and the number that they are.
    ghost width: { ℕ };

    ghost made: { ℕ → Self };

    fn read(mem: &Window<'_>, address: u64) -> Result<Self, Refusal>
        ensures { result ≡ number_as made mem.now address width };
}

// Sixteen bytes as numbers: dword 3 and both halves.
#[derive(Clone, Copy)]
pub struct Slot {
    pub d3: u64,
    pub low: u64,
    pub high: u64,
}

// Sixteen bytes as four little-endian numbers of four bytes, as xHCI draws a TRB.
#[derive(Clone, Copy)]
pub struct Dwords {
    pub d0: u32,
    pub d1: u32,
    pub d2: u32,
    pub d3: u32,
}

// The N bytes from place `at` on.
#[tactic(auto, unfolding(crate::specs::Bytes::part))]
fn array<const N: usize>(bytes: &[u8], at: usize) -> [u8; N]
    requires { at + N ≤ length bytes.now }
    ensures { result ≡ part bytes.now at N }
{
    let mut array = [0u8; N];
    array.copy_from_slice(&bytes[at..at + N]);
    array
}

// The sixteen bytes from place `at` on. Each number is read where it stands, so that a loop which looks at dword 3 reads no more (docs/SPEED.md).
#[tactic(auto, using(crate::proofs::Bytes::le_four, crate::proofs::Bytes::le_eight))]
fn slot_in(bytes: &[u8], at: usize) -> Slot
    requires { at + 16 ≤ length bytes.now }
    ensures { result ≡ slot_of (part bytes.now at 16) }
{
    Slot {
        d3: u64::from(u32::from_le_bytes(array(bytes, at + 12))),
        low: u64::from_le_bytes(array(bytes, at)),
        high: u64::from_le_bytes(array(bytes, at + 8)),
    }
}

impl From<[u8; 16]> for Slot {
    ghost from_gives = { λ trb s. s ≡ slot_of trb };

    #[tactic(auto, unfolding(crate::specs::Bytes::part))]
    fn from(trb: [u8; 16]) -> Slot {
        slot_in(&trb, 0)
    }
}

impl<'a> Window<'a> {
    pub fn at(start: u64, bytes: &'a [u8]) -> Self
        ensures { result ≡ window start bytes.now }
    {
        Window { start, bytes }
    }

    // Whether all `length` bytes from `address` on are in the window: two numbers, as document 01 and C ask, and no type, in which there
    // would be no fact. Of an address that is known to be a multiple of 16 the compiler sees that the third test passes.
    pub fn inside(&self, address: u64, length: u64) -> bool
        ensures { result ≡ inside self.now address length }
    {
        if address < self.start {
            return false;
        }
        let offset = address - self.start;
        let n = self.bytes.len() as u64;
        if length == 0 {
            return offset <= n;
        }
        if LAST - address < length - 1 {
            return false;
        }
        offset + (length - 1) < n
    }

    // The N bytes from `address` on.
    #[tactic(auto, using(crate::proofs::Memory::inside_within), unfolding(crate::specs::Refusals::by_number, crate::specs::Judge::judge))]
    fn array<const N: usize>(&self, address: u64) -> Result<[u8; N], Refusal>
        ensures { result ≡ bytes_read self.now address N }
    {
        if !self.inside(address, N as u64) {
            return Err(Refusal::Outside);
        }
        Ok(array(self.bytes, (address - self.start) as usize))
    }

    pub fn read_trb(&self, address: u64) -> Result<[u8; 16], Refusal>
        ensures { result ≡ trb_read self.now address }
    {
        self.array(address)
    }

    #[tactic(auto, unfolding(crate::specs::Judge::judge, crate::specs::Refusals::by_number))]
    pub fn read_slot(&self, address: u64) -> Result<Slot, Refusal>
        ensures { result ≡ slot_read self.now address }
    {
        Ok(Slot::from(self.read_trb(address)?))
    }

    // How many of the window's bytes have an address.
    fn addressed(&self) -> u64
        ensures { result ≡ min (length self.now.bytes) (2 ^ 64 - self.now.start) }
    {
        let n = self.bytes.len() as u64;
        let left = LAST - self.start;
        if left < n {
            return left + 1;
        }
        n
    }

    // The same for one of many slots: what does not hang on the address comes first, so that a loop does it once, and then one
    // comparison tells an address below the start, where the difference wraps, and one past the end alike.
    #[tactic(auto, using(crate::proofs::Memory::within_inside, crate::proofs::Memory::inside_no), unfolding(crate::specs::Refusals::by_number, crate::specs::Judge::judge))]
    pub fn read_next_slot(&self, address: u64) -> Result<Slot, Refusal>
        ensures { result ≡ slot_read self.now address }
    {
        let n = self.addressed();
        if n < 16 {
            return Err(Refusal::Outside);
        }
        let offset = address.wrapping_sub(self.start);
        if n - 16 < offset {
            return Err(Refusal::Outside);
        }
        Ok(slot_in(self.bytes, offset as usize))
    }

    // How far from the window's start the bytes are, 0 where they are not all inside: no Option, since the function never failed, and C's
    // words have the 0.
    #[tactic(auto, using(crate::proofs::Memory::inside_within), unfolding(crate::specs::Judge::judge))]
    pub fn offset(&self, address: u64, length: u64) -> u64
        ensures { result ≡ offset_of self.now address length }
    {
        if self.inside(address, length) {
            address - self.start
        } else {
            0
        }
    }
}

// One body for each width: `from_le_bytes` is each number type's own, and no trait of std has it.

impl FromWindow for u16 {
    ghost width = { 2 };

    ghost made = { λ n. n };

    #[tactic(auto, using(crate::proofs::Bytes::le_two), unfolding(crate::specs::Judge::judge, crate::specs::Refusals::by_number))]
    fn read(mem: &Window<'_>, address: u64) -> Result<u16, Refusal> {
        Ok(u16::from_le_bytes(mem.array(address)?))
    }
}

impl FromWindow for u32 {
    ghost width = { 4 };

    ghost made = { λ n. n };

    #[tactic(auto, using(crate::proofs::Bytes::le_four), unfolding(crate::specs::Judge::judge, crate::specs::Refusals::by_number))]
    fn read(mem: &Window<'_>, address: u64) -> Result<u32, Refusal> {
        Ok(u32::from_le_bytes(mem.array(address)?))
    }
}

impl FromWindow for u64 {
    ghost width = { 8 };

    ghost made = { λ n. n };

    #[tactic(auto, using(crate::proofs::Bytes::le_eight), unfolding(crate::specs::Judge::judge, crate::specs::Refusals::by_number))]
    fn read(mem: &Window<'_>, address: u64) -> Result<u64, Refusal> {
        Ok(u64::from_le_bytes(mem.array(address)?))
    }
}

#[tactic(auto, using(crate::proofs::Bytes::filled))]
fn store(mem: &mut [u8], at: usize, trb: [u8; 16])
    requires { at + 16 ≤ length mem.old }
    ensures { mem.new ≡ write mem.old at trb }
{
    mem[at..at + 16].copy_from_slice(&trb);
}

// Writes the sixteen bytes, or changes nothing. It takes the slice and no window, since the bytes at exit are promised.
#[tactic(auto, using(crate::proofs::Memory::inside_within), unfolding(crate::specs::Refusals::by_number, crate::specs::Judge::judge))]
pub fn write_trb(start: u64, mem: &mut [u8], address: u64, trb: [u8; 16]) -> Result<(), Refusal>
    ensures { (result ≡ write_answer (window start mem.old) address) × (mem.new ≡ (write_memory (window start mem.old) address trb).bytes) }
{
    if !Window::at(start, mem).inside(address, 16) {
        return Err(Refusal::Outside);
    }
    store(mem, (address - start) as usize, trb);
    Ok(())
}

// The bytes themselves, none where they are not all inside, as document 01 has the data part. Their own place in `mem` is promised, which a
// window's value does not say.
#[tactic(auto, using(crate::proofs::Memory::inside_within), unfolding(crate::specs::Judge::judge))]
pub fn part(start: u64, mem: &[u8], address: u64, length: u64) -> &[u8]
    ensures { (result.now ≡ part_of (window start mem.now) address length)
        × (result.ref_ptr ≡ (mem.entry.ref_ptr.0, offset_of (window start mem.now) address length + mem.entry.ref_ptr.1)) }
{
    if !Window::at(start, mem).inside(address, length) {
        return &mem[0..0];
    }
    let at = (address - start) as usize;
    &mem[at..at + length as usize]
}

impl From<[u8; 16]> for Dwords {
    ghost from_gives = { λ trb d. d ≡ dwords_of trb };

    #[tactic(auto, using(crate::proofs::Bytes::le_four))]
    fn from(trb: [u8; 16]) -> Dwords {
        Dwords {
            d0: u32::from_le_bytes(array(&trb, 0)),
            d1: u32::from_le_bytes(array(&trb, 4)),
            d2: u32::from_le_bytes(array(&trb, 8)),
            d3: u32::from_le_bytes(array(&trb, 12)),
        }
    }
}

impl From<Dwords> for [u8; 16] {
    ghost from_gives = { λ d trb. trb ≡ bytes_of_dwords d };

    fn from(d: Dwords) -> [u8; 16] {
        let mut trb = [0u8; 16];
        trb[..4].copy_from_slice(&d.d0.to_le_bytes());
        trb[4..8].copy_from_slice(&d.d1.to_le_bytes());
        trb[8..12].copy_from_slice(&d.d2.to_le_bytes());
        trb[12..].copy_from_slice(&d.d3.to_le_bytes());
        trb
    }
}

// A TRB as two numbers of eight bytes, and the bytes of two such numbers: three names that docs/PROMISES.md has, of the library's calls.

#[tactic(auto, using(crate::proofs::Bytes::le_eight))]
pub fn low(trb: [u8; 16]) -> u64
    ensures { result ≡ low_of trb }
{
    u64::from_le_bytes(array(&trb, 0))
}

#[tactic(auto, using(crate::proofs::Bytes::le_eight))]
pub fn high(trb: [u8; 16]) -> u64
    ensures { result ≡ high_of trb }
{
    u64::from_le_bytes(array(&trb, 8))
}

pub fn whole(low: u64, high: u64) -> [u8; 16]
    ensures { result ≡ whole_of low high }
{
    let mut trb = [0u8; 16];
    trb[..8].copy_from_slice(&low.to_le_bytes());
    trb[8..].copy_from_slice(&high.to_le_bytes());
    trb
}
