// Completion codes, the classes of a code byte, and the TRB types by name.
#![tactic(auto)]

ghost use Rattle.std.specs.Prelude.{◌≡◌};
ghost use Rattle.codes.specs.Codes.{number_of, code_of, class_of};

pub mod trb_types;

// The completion codes, xHCI 1.2 table 6-90. The number 30 is reserved.
#[derive(Clone, Copy)]
pub enum CompletionCode {
    Invalid = 0,
    Success = 1,
    DataBufferError = 2,
    BabbleDetectedError = 3,
    UsbTransactionError = 4,
    TrbError = 5,
    StallError = 6,
    ResourceError = 7,
    BandwidthError = 8,
    NoSlotsAvailableError = 9,
    InvalidStreamTypeError = 10,
    SlotNotEnabledError = 11,
    EndpointNotEnabledError = 12,
    ShortPacket = 13,
    RingUnderrun = 14,
    RingOverrun = 15,
    VfEventRingFullError = 16,
    ParameterError = 17,
    BandwidthOverrunError = 18,
    ContextStateError = 19,
    NoPingResponseError = 20,
    EventRingFullError = 21,
    IncompatibleDeviceError = 22,
    MissedServiceError = 23,
    CommandRingStopped = 24,
    CommandAborted = 25,
    Stopped = 26,
    StoppedLengthInvalid = 27,
    StoppedShortedPacket = 28,
    MaxExitLatencyTooLargeError = 29,
    IsochBufferOverrun = 31,
    EventLostError = 32,
    UndefinedError = 33,
    InvalidStreamIdError = 34,
    SecondaryBandwidthError = 35,
    SplitTransactionError = 36,
}

// The four classes of a code byte, xHCI 1.2 table 6-90.
#[derive(Clone, Copy)]
pub enum Class {
    Listed,
    Reserved,
    VendorError,
    VendorInfo,
}

impl CompletionCode {
    // The number of a code, xHCI 1.2 table 6-90: a cast with a contract, under the name that docs/PROMISES.md has.
    #[tactic(auto, unfolding(crate::specs::Codes::number_of))]
    pub fn number(self) -> u8
        ensures { result ≡ number_of self }
    {
        self as u8
    }
}

// The code of a byte, where one is listed: matched by value, as document 01 has the completion byte, and under a name that docs/PROMISES.md has
// and document 02 asks about, so no `TryFrom`.
#[tactic(auto, unfolding(crate::specs::Codes::code_of, crate::specs::Codes::number_of))]
pub fn code_of(byte: u8) -> Option<CompletionCode>
    ensures { result ≡ code_of byte }
{
    match byte {
        0 => Some(CompletionCode::Invalid),
        1 => Some(CompletionCode::Success),
        2 => Some(CompletionCode::DataBufferError),
        3 => Some(CompletionCode::BabbleDetectedError),
        4 => Some(CompletionCode::UsbTransactionError),
        5 => Some(CompletionCode::TrbError),
        6 => Some(CompletionCode::StallError),
        7 => Some(CompletionCode::ResourceError),
        8 => Some(CompletionCode::BandwidthError),
        9 => Some(CompletionCode::NoSlotsAvailableError),
        10 => Some(CompletionCode::InvalidStreamTypeError),
        11 => Some(CompletionCode::SlotNotEnabledError),
        12 => Some(CompletionCode::EndpointNotEnabledError),
        13 => Some(CompletionCode::ShortPacket),
        14 => Some(CompletionCode::RingUnderrun),
        15 => Some(CompletionCode::RingOverrun),
        16 => Some(CompletionCode::VfEventRingFullError),
        17 => Some(CompletionCode::ParameterError),
        18 => Some(CompletionCode::BandwidthOverrunError),
        19 => Some(CompletionCode::ContextStateError),
        20 => Some(CompletionCode::NoPingResponseError),
        21 => Some(CompletionCode::EventRingFullError),
        22 => Some(CompletionCode::IncompatibleDeviceError),
        23 => Some(CompletionCode::MissedServiceError),
        24 => Some(CompletionCode::CommandRingStopped),
        25 => Some(CompletionCode::CommandAborted),
        26 => Some(CompletionCode::Stopped),
        27 => Some(CompletionCode::StoppedLengthInvalid),
        28 => Some(CompletionCode::StoppedShortedPacket),
        29 => Some(CompletionCode::MaxExitLatencyTooLargeError),
        31 => Some(CompletionCode::IsochBufferOverrun),
        32 => Some(CompletionCode::EventLostError),
        33 => Some(CompletionCode::UndefinedError),
        34 => Some(CompletionCode::InvalidStreamIdError),
        35 => Some(CompletionCode::SecondaryBandwidthError),
        36 => Some(CompletionCode::SplitTransactionError),
        _ => None,
    }
}

// The class of a byte, xHCI 1.2 table 6-90. A name and no `From`, as with `code_of`.
#[tactic(auto, unfolding(crate::specs::Codes::class_of))]
pub fn class_of(byte: u8) -> Class
    ensures { result ≡ class_of byte }
{
    match byte {
        0..=29 | 31..=36 => Class::Listed,
        30 | 37..=191 => Class::Reserved,
        192..=223 => Class::VendorError,
        224..=255 => Class::VendorInfo,
    }
}
