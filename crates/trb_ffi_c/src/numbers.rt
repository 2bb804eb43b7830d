// Completion codes by their numbers.
ghost use Rattle.std.specs.Prelude.{◌≡◌};
ghost use Rattle.codes.specs.Codes.{code_of, class_of, number_of_class};
ghost use Rattle.trb_ffi.specs.Numbers.{flat_coded};

use trb_ffi::numbers;
use trb_ffi::numbers::CCoded;

#[unsafe(no_mangle)]
pub extern "C" fn lomvigast_code_of(byte: u8) -> CCoded
    ensures { result ≡ flat_coded (code_of byte) }
{
    numbers::lomvigast_code_of(byte)
}

#[unsafe(no_mangle)]
pub extern "C" fn lomvigast_class_of(byte: u8) -> u8
    ensures { result ≡ number_of_class (class_of byte) }
{
    numbers::lomvigast_class_of(byte)
}
