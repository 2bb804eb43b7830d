// What any TRB has, Links, and the data that a Normal or Data Stage TRB points at.
ghost use Rattle.std.specs.Prelude.{◌≡◌};
ghost use Rattle.guest.specs.Memory.{window};
ghost use Rattle.guest.specs.Fields.{whole_of};
ghost use Rattle.trb.specs.Trb.{type_of, cycle_of};
ghost use Rattle.trb.specs.Links.{link_of};
ghost use Rattle.trb.specs.Data.{data_refusal};
ghost use Rattle.trb_ffi.specs.Parts.{flat_link, info_of, part_of};

use trb_ffi::parts;
use trb_ffi::parts::{CLink, CPart};

#[unsafe(no_mangle)]
pub extern "C" fn lomvigast_trb_type(low: u64, high: u64) -> u8
    ensures { result ≡ type_of (whole_of low high) }
{
    parts::lomvigast_trb_type(low, high)
}

#[unsafe(no_mangle)]
pub extern "C" fn lomvigast_cycle_bit(low: u64, high: u64) -> bool
    ensures { result ≡ cycle_of (whole_of low high) }
{
    parts::lomvigast_cycle_bit(low, high)
}

#[unsafe(no_mangle)]
pub extern "C" fn lomvigast_parse_link(low: u64, high: u64) -> CLink
    ensures { result ≡ flat_link (link_of (whole_of low high)) }
{
    parts::lomvigast_parse_link(low, high)
}

#[unsafe(no_mangle)]
pub extern "C" fn lomvigast_data_refusal(
    start: u64,
    mem: &[u8],
    pointer: u64,
    length: u32,
    immediate: bool,
) -> u8
    ensures { result ≡ data_refusal (window start mem.now) (info_of pointer length immediate) }
{
    parts::lomvigast_data_refusal(start, mem, pointer, length, immediate)
}

#[unsafe(no_mangle)]
pub extern "C" fn lomvigast_data(
    start: u64,
    mem: &[u8],
    pointer: u64,
    length: u32,
    immediate: bool,
) -> CPart
    ensures { result ≡ part_of (window start mem.now) (info_of pointer length immediate) }
{
    parts::lomvigast_data(start, mem, pointer, length, immediate)
}
