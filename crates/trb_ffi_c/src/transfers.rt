// The TRBs of a transfer ring, as Rust's enum and C's union hold them (specs/Transfers.antt of trb_ffi).
ghost use Rattle.std.specs.Prelude.{◌≡◌};
ghost use Rattle.guest.specs.Fields.{whole_of};
ghost use Rattle.trb.specs.Transfers.{transfer_of};
ghost use Rattle.trb_ffi.specs.Transfers.{put};

use trb_ffi::transfers;

#[unsafe(no_mangle)]
pub extern "C" fn lomvigast_parse_transfer(out: &mut [u64; 4], low: u64, high: u64)
    ensures { out.new ≡ put (transfer_of (whole_of low high)) low high out.old }
{
    transfers::lomvigast_parse_transfer(out, low, high)
}
