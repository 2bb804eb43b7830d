// Events written and read.
ghost use Rattle.std.specs.Prelude.{◌≡◌, ◌%◌, eqb};
ghost use Rattle.guest.specs.Fields.{whole_of};
ghost use Rattle.trb.specs.Events.{event_of};
ghost use Rattle.words.specs.Events.{event_in, bytes_from, written, put_variant, refusal_shown};

use trb_ffi::events;
use words::event::CTrb;

#[unsafe(no_mangle)]
pub extern "C" fn lomvigast_event_bytes(event: &[u64; 3], cycle: u64) -> CTrb
    ensures { result ≡ written (bytes_from (event_in event.now) (eqb (cycle % 2) 1)) }
{
    events::lomvigast_event_bytes(event, cycle)
}

#[unsafe(no_mangle)]
pub extern "C" fn lomvigast_parse_event(out: &mut [u64; 3], low: u64, high: u64) -> u16
    ensures { (result ≡ refusal_shown (event_of (whole_of low high))) × (out.new ≡ put_variant (event_of (whole_of low high)) out.old) }
{
    events::lomvigast_parse_event(out, low, high)
}
