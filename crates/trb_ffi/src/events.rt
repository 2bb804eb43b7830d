// Events written and read.
ghost use Rattle.std.specs.Prelude.{◌≡◌, ◌%◌, eqb};
ghost use Rattle.guest.specs.Fields.{whole_of};
ghost use Rattle.trb.specs.Events.{event_of};
ghost use Rattle.words.specs.Events.{event_in, bytes_from, written, put_variant, refusal_shown};

use words::event::CTrb;

// With the cycle bit that `cycle` has in bit 0.
pub fn lomvigast_event_bytes(event: &[u64; 3], cycle: u64) -> CTrb
    ensures { result ≡ written (bytes_from (event_in event.now) (eqb (cycle % 2) 1)) }
{
    words::event::bytes(event, cycle)
}

pub fn lomvigast_parse_event(out: &mut [u64; 3], low: u64, high: u64) -> u16
    ensures { (result ≡ refusal_shown (event_of (whole_of low high))) × (out.new ≡ put_variant (event_of (whole_of low high)) out.old) }
{
    words::event::parse(out, low, high)
}
