// Guest memory by address.
ghost use Rattle.std.specs.Prelude.{◌≡◌};
ghost use Rattle.guest.specs.Memory.{window, inside};
ghost use Rattle.guest.specs.Fields.{whole_of};
ghost use Rattle.guest.specs.Answers.{number_at, trb_read, write_number, write_memory, number_of};
ghost use Rattle.lomvigast_ffi.specs.Memory.{flat_number, put_trb};

use lomvigast_ffi::memory;
use lomvigast_ffi::memory::CNumber;

#[unsafe(no_mangle)]
pub extern "C" fn lomvigast_inside(start: u64, mem: &[u8], address: u64, length: u64) -> bool
    ensures { result ≡ inside (window start mem.now) address length }
{
    memory::lomvigast_inside(start, mem, address, length)
}

#[unsafe(no_mangle)]
pub extern "C" fn lomvigast_read2(start: u64, mem: &[u8], address: u64) -> CNumber
    ensures { result ≡ flat_number (number_at (window start mem.now) address 2) }
{
    memory::lomvigast_read2(start, mem, address)
}

#[unsafe(no_mangle)]
pub extern "C" fn lomvigast_read4(start: u64, mem: &[u8], address: u64) -> CNumber
    ensures { result ≡ flat_number (number_at (window start mem.now) address 4) }
{
    memory::lomvigast_read4(start, mem, address)
}

#[unsafe(no_mangle)]
pub extern "C" fn lomvigast_read8(start: u64, mem: &[u8], address: u64) -> CNumber
    ensures { result ≡ flat_number (number_at (window start mem.now) address 8) }
{
    memory::lomvigast_read8(start, mem, address)
}

#[unsafe(no_mangle)]
pub extern "C" fn lomvigast_read_trb(start: u64, mem: &[u8], address: u64, out: &mut [u64; 2]) -> u8
    ensures { (result ≡ number_of (trb_read (window start mem.now) address)) × (out.new ≡ put_trb (trb_read (window start mem.now) address) out.old) }
{
    memory::lomvigast_read_trb(start, mem, address, out)
}

#[unsafe(no_mangle)]
pub extern "C" fn lomvigast_write_trb(
    start: u64,
    mem: &mut [u8],
    address: u64,
    low: u64,
    high: u64,
) -> u8
    ensures { (result ≡ write_number (window start mem.old) address) × (mem.new ≡ (write_memory (window start mem.old) address (whole_of low high)).bytes) }
{
    memory::lomvigast_write_trb(start, mem, address, low, high)
}
