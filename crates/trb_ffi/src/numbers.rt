// Completion codes by their numbers.
ghost use Rattle.std.specs.Prelude.{◌≡◌};
ghost use Rattle.codes.specs.Codes.{code_of, class_of, number_of_class};
ghost use Rattle.trb_ffi.specs.Numbers.{flat_coded};

use guest::refusal::Refusal;

// A number, with refusal 0; or a refusal, with 0.
#[repr(C)]
#[derive(Clone, Copy)]
pub struct CCoded {
    pub refusal: u8,
    pub code: u8,
}

// The code that a byte stands for, by its number, or refusal 12.
pub fn lomvigast_code_of(byte: u8) -> CCoded
    ensures { result ≡ flat_coded (code_of byte) }
{
    match codes::code_of(byte) {
        Some(code) => CCoded {
            refusal: 0,
            code: code.number(),
        },
        None => CCoded {
            refusal: Refusal::Code.number(),
            code: 0,
        },
    }
}

// 0 for listed, 1 for reserved, 2 for a vendor error, 3 for vendor information.
pub fn lomvigast_class_of(byte: u8) -> u8
    ensures { result ≡ number_of_class (class_of byte) }
{
    codes::class_of(byte) as u8
}
