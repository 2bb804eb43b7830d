// Sixteen bytes moved up by one in the words of an answer.
ghost use Rattle.std.specs.Prelude.{◌≡◌, ◌+◌, ◌*◌, ◌/◌, ◌%◌, ◌^◌, ◌<◌, ◌≤◌};
ghost use Rattle.guest.specs.Refusals.{number_of};
ghost use Rattle.trb_ffi.specs.Commands.{refused};

use trb::TrbParseError;

// A number's top byte, and its other bytes moved up by one.

fn top(x: u64) -> u64
    ensures { (result ≡ x / 2 ^ 56) × (result < 2 ^ 8) }
{
    x / 0x100_0000_0000_0000
}

fn up(x: u64) -> u64
    ensures { (result ≡ x % 2 ^ 56 * 2 ^ 8) × (result + 2 ^ 8 ≤ 2 ^ 64) }
{
    x % 0x100_0000_0000_0000 * 0x100
}

fn across(low: u64, high: u64) -> u64
    ensures { result ≡ low / 2 ^ 56 + high % 2 ^ 56 * 2 ^ 8 }
{
    top(low) + up(high)
}

fn beside(high: u64, error: TrbParseError) -> u64
    ensures { result ≡ high / 2 ^ 56 + number_of error.refusal * 2 ^ 8 + error.trb_type * 2 ^ 16 }
{
    top(high) + (error.refusal.number() as u64) * 0x100 + (error.trb_type as u64) * 0x1_0000
}

// What was not taken apart: its bytes, and why.
pub(crate) fn refuse<const N: usize>(out: &mut [u64; N], low: u64, high: u64, error: TrbParseError)
    ensures { out.new ≡ refused low high (number_of error.refusal) error.trb_type out.old }
{
    words::put(out, &[up(low), across(low, high), beside(high, error)])
}
