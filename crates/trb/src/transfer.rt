// The TRBs of a transfer ring (xHCI 6.4.1, 6.4.4.2). A struct for each kind, as in command.rt.
ghost use Rattle.std.specs.Prelude.{◌≡◌};
ghost use Rattle.guest.specs.Fields.{field};
ghost use Rattle.trb.specs.Transfers.{normal_trb, setup_stage_trb, data_stage_trb, status_stage_trb, event_data_trb, no_op_trb, transfer_of};

use crate::{RawTrbBuffer, Unrecognized};
use codes::trb_types;
use guest::Dwords;
use guest::refusal::Refusal;

#[derive(Clone, Copy)]
pub struct NormalTrb {
    pub data_pointer: u64,
    // Of 17 bits.
    pub transfer_length: u32,
    pub interrupt_on_short: bool,
    pub chain: bool,
    pub interrupt_on_completion: bool,
    pub immediate_data: bool,
}

#[derive(Clone, Copy)]
pub struct SetupStageTrb {
    pub request_type: u8,
    pub request: u8,
    pub value: u16,
    pub index: u16,
    pub length: u16,
    pub interrupt_on_completion: bool,
}

#[derive(Clone, Copy)]
pub struct DataStageTrb {
    pub data_pointer: u64,
    // Of 17 bits.
    pub transfer_length: u32,
    pub chain: bool,
    pub interrupt_on_completion: bool,
    pub interrupt_on_short: bool,
    pub immediate_data: bool,
    pub direction: bool,
}

#[derive(Clone, Copy)]
pub struct StatusStageTrb {
    pub chain: bool,
    pub interrupt_on_completion: bool,
    pub direction: bool,
}

#[derive(Clone, Copy)]
pub struct EventDataTrb {
    pub event_data: u64,
    pub chain: bool,
    pub interrupt_on_completion: bool,
}

// A driver never sets the chain bit here (xHCI 4.11.7); whether it did can be seen.
#[derive(Clone, Copy)]
pub struct NoOpTrb {
    pub chain: bool,
    pub interrupt_on_completion: bool,
}

#[derive(Clone, Copy)]
pub enum TransferTrbVariant {
    Normal(NormalTrb),
    SetupStage(SetupStageTrb),
    DataStage(DataStageTrb),
    StatusStage(StatusStageTrb),
    Isoch,
    EventData(EventDataTrb),
    NoOp(NoOpTrb),
}

// Bytes 8 and 9 and bit 0 of byte 10. As with event.rt's `low_three`, the width is its own.
fn transfer_length(raw: RawTrbBuffer) -> u32
    ensures { result ≡ field raw 2 0 17 }
{
    let d = Dwords::from(raw);
    d.d2 % 0x2_0000
}

fn normal(raw: RawTrbBuffer) -> NormalTrb
    ensures { result ≡ normal_trb raw }
{
    NormalTrb {
        data_pointer: crate::pointer(raw),
        transfer_length: transfer_length(raw),
        interrupt_on_short: crate::flag(raw, 12, 2),
        chain: crate::flag(raw, 12, 4),
        interrupt_on_completion: crate::flag(raw, 12, 5),
        immediate_data: crate::flag(raw, 12, 6),
    }
}

fn setup_stage(raw: RawTrbBuffer) -> SetupStageTrb
    ensures { result ≡ setup_stage_trb raw }
{
    SetupStageTrb {
        request_type: crate::byte(raw, 0),
        request: crate::byte(raw, 1),
        value: crate::two(raw, 2),
        index: crate::two(raw, 4),
        length: crate::two(raw, 6),
        interrupt_on_completion: crate::flag(raw, 12, 5),
    }
}

fn data_stage(raw: RawTrbBuffer) -> DataStageTrb
    ensures { result ≡ data_stage_trb raw }
{
    DataStageTrb {
        data_pointer: crate::pointer(raw),
        transfer_length: transfer_length(raw),
        chain: crate::flag(raw, 12, 4),
        interrupt_on_completion: crate::flag(raw, 12, 5),
        interrupt_on_short: crate::flag(raw, 12, 2),
        immediate_data: crate::flag(raw, 12, 6),
        direction: crate::flag(raw, 14, 0),
    }
}

fn status_stage(raw: RawTrbBuffer) -> StatusStageTrb
    ensures { result ≡ status_stage_trb raw }
{
    StatusStageTrb {
        chain: crate::flag(raw, 12, 4),
        interrupt_on_completion: crate::flag(raw, 12, 5),
        direction: crate::flag(raw, 14, 0),
    }
}

fn event_data(raw: RawTrbBuffer) -> EventDataTrb
    ensures { result ≡ event_data_trb raw }
{
    EventDataTrb {
        event_data: crate::pointer(raw),
        chain: crate::flag(raw, 12, 4),
        interrupt_on_completion: crate::flag(raw, 12, 5),
    }
}

fn no_op(raw: RawTrbBuffer) -> NoOpTrb
    ensures { result ≡ no_op_trb raw }
{
    NoOpTrb {
        chain: crate::flag(raw, 12, 4),
        interrupt_on_completion: crate::flag(raw, 12, 5),
    }
}

impl TransferTrbVariant {
    // Matched by the type's number, as with events.
    #[tactic(auto, unfolding(guest::specs::Refusals::by_number, crate::specs::Transfers::transfer_of))]
    pub fn parse(raw: RawTrbBuffer) -> Result<TransferTrbVariant, Unrecognized>
        ensures { result ≡ transfer_of raw }
    {
        let trb_type = crate::trb_type(raw);
        match trb_type {
            trb_types::NORMAL => Ok(TransferTrbVariant::Normal(normal(raw))),
            trb_types::SETUP_STAGE => Ok(TransferTrbVariant::SetupStage(setup_stage(raw))),
            trb_types::DATA_STAGE => Ok(TransferTrbVariant::DataStage(data_stage(raw))),
            trb_types::STATUS_STAGE => Ok(TransferTrbVariant::StatusStage(status_stage(raw))),
            trb_types::ISOCH => Ok(TransferTrbVariant::Isoch),
            trb_types::EVENT_DATA => Ok(TransferTrbVariant::EventData(event_data(raw))),
            trb_types::NO_OP => Ok(TransferTrbVariant::NoOp(no_op(raw))),
            _ => Err(Unrecognized::new(Refusal::Type, trb_type, raw)),
        }
    }
}
