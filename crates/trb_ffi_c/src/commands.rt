// The commands of a driver, as Rust's enum and C's union hold them (specs/Commands.antt of trb_ffi).
ghost use Rattle.std.specs.Prelude.{◌≡◌};
ghost use Rattle.guest.specs.Fields.{whole_of};
ghost use Rattle.trb.specs.Commands.{command_of};
ghost use Rattle.trb_ffi.specs.Commands.{put};

use trb_ffi::commands;

#[unsafe(no_mangle)]
pub extern "C" fn lomvigast_parse_command(out: &mut [u64; 3], low: u64, high: u64)
    ensures { out.new ≡ put (command_of (whole_of low high)) low high out.old }
{
    commands::lomvigast_parse_command(out, low, high)
}
