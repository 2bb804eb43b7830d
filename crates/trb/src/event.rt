// The events of the controller (xHCI 6.4.2): to sixteen bytes, and back.
ghost use Rattle.std.specs.Prelude.{◌≡◌, ◌<◌, ◌^◌};
ghost use Rattle.guest.specs.Fields.{field};
ghost use Rattle.trb.specs.Trb.{bit};
ghost use Rattle.trb.specs.Events.{transfer_dwords, command_completion_dwords, port_status_change_dwords, bytes_answered, clear, reserved_in_transfer, reserved_in_command_completion, reserved_in_port_status_change, transfer_as, command_completion_as, port_status_change_as, event_of};

use crate::{RawTrbBuffer, Unrecognized};
use codes::{CompletionCode, trb_types};
use guest::Dwords;
use guest::refusal::Refusal;

#[derive(Clone, Copy)]
pub struct TransferEventTrbData {
    pub trb_pointer: u64,
    // Of 24 bits.
    pub trb_transfer_length: u32,
    pub completion_code: CompletionCode,
    pub event_data: bool,
    pub endpoint_id: u8,
    pub slot_id: u8,
}

#[derive(Clone, Copy)]
pub struct CommandCompletionEventTrbData {
    // Its low four bits are 0.
    pub command_trb_pointer: u64,
    // Of 24 bits.
    pub command_completion_parameter: u32,
    pub completion_code: CompletionCode,
    pub slot_id: u8,
}

#[derive(Clone, Copy)]
pub struct PortStatusChangeEventTrbData {
    pub port_id: u8,
}

#[derive(Clone, Copy)]
pub enum EventTrb {
    Transfer(TransferEventTrbData),
    CommandCompletion(CommandCompletionEventTrbData),
    PortStatusChange(PortStatusChangeEventTrbData),
}

// ---- writing: a pointer is two dwords, as xHCI draws it

fn transfer_dwords(t: TransferEventTrbData, cycle_bit: bool) -> Dwords
    requires { t.trb_transfer_length < 2 ^ 24 }
    ensures { result ≡ transfer_dwords t cycle_bit }
{
    let code = u32::from(t.completion_code.number());
    let data = t.event_data as u32;
    let cycle = cycle_bit as u32;
    Dwords {
        d0: (t.trb_pointer % 0x1_0000_0000) as u32,
        d1: (t.trb_pointer / 0x1_0000_0000 % 0x1_0000_0000) as u32,
        d2: t.trb_transfer_length + code * 0x100_0000,
        d3: cycle
            + data * 4
            + 0x8000
            + u32::from(t.endpoint_id) * 0x1_0000
            + u32::from(t.slot_id) * 0x100_0000,
    }
}

fn command_completion_dwords(t: CommandCompletionEventTrbData, cycle_bit: bool) -> Dwords
    requires { t.command_completion_parameter < 2 ^ 24 }
    ensures { result ≡ command_completion_dwords t cycle_bit }
{
    let code = u32::from(t.completion_code.number());
    let cycle = cycle_bit as u32;
    Dwords {
        d0: (t.command_trb_pointer % 0x1_0000_0000) as u32,
        d1: (t.command_trb_pointer / 0x1_0000_0000 % 0x1_0000_0000) as u32,
        d2: t.command_completion_parameter + code * 0x100_0000,
        d3: cycle + 0x8400 + u32::from(t.slot_id) * 0x100_0000,
    }
}

#[tactic(auto, unfolding(codes::specs::Codes::number_of))]
fn port_status_change_dwords(t: PortStatusChangeEventTrbData, cycle_bit: bool) -> Dwords
    ensures { result ≡ port_status_change_dwords t cycle_bit }
{
    let cycle = cycle_bit as u32;
    Dwords {
        d0: u32::from(t.port_id) * 0x100_0000,
        d1: 0,
        d2: 0x100_0000,
        d3: cycle + 0x8800,
    }
}

// ---- reading

// Bytes 8 to 10. A width of its own, as each field has: were it a parameter, each call would owe its limit.
fn low_three(raw: RawTrbBuffer) -> u32
    ensures { result ≡ field raw 2 0 24 }
{
    let d = Dwords::from(raw);
    d.d2 % 0x100_0000
}

// Whether the bits that an event of the type leaves 0 are 0: by the dwords at hand, and no walk over the definition's list of fields.

fn transfer_clear(raw: RawTrbBuffer) -> bool
    ensures { result ≡ clear raw reserved_in_transfer }
{
    let d = Dwords::from(raw);
    (d.d3 / 2 % 2 == 0) & (d.d3 / 8 % 0x80 == 0)
}

fn command_completion_clear(raw: RawTrbBuffer) -> bool
    ensures { result ≡ clear raw reserved_in_command_completion }
{
    let d = Dwords::from(raw);
    (d.d0 % 0x10 == 0) & (d.d3 / 2 % 0x200 == 0) & (d.d3 / 0x1_0000 % 0x100 == 0)
}

fn port_status_change_clear(raw: RawTrbBuffer) -> bool
    ensures { result ≡ clear raw reserved_in_port_status_change }
{
    let d = Dwords::from(raw);
    (d.d0 % 0x100_0000 == 0)
        & (d.d1 == 0)
        & (d.d2 % 0x100_0000 == 0)
        & (d.d3 / 2 % 0x200 == 0)
        & (d.d3 / 0x1_0000 % 0x1_0000 == 0)
}

// Of an event's fields and reserved bits each kind has its own; what two of them share is the code's line.

#[tactic(auto, unfolding(guest::specs::Refusals::by_number, guest::specs::Judge::judge))]
fn transfer(raw: RawTrbBuffer) -> Result<EventTrb, Unrecognized>
    ensures { result ≡ transfer_as raw }
{
    let Some(completion_code) = codes::code_of(crate::byte(raw, 11)) else {
        return Err(Unrecognized::new(Refusal::Code, 0, raw));
    };
    if !transfer_clear(raw) {
        return Err(Unrecognized::new(Refusal::Reserved, 0, raw));
    }
    Ok(EventTrb::Transfer(TransferEventTrbData {
        trb_pointer: crate::pointer(raw),
        trb_transfer_length: low_three(raw),
        completion_code,
        event_data: crate::flag(raw, 12, 2),
        endpoint_id: crate::byte(raw, 14),
        slot_id: crate::slot_id(raw),
    }))
}

#[tactic(auto, unfolding(guest::specs::Refusals::by_number, guest::specs::Judge::judge))]
fn command_completion(raw: RawTrbBuffer) -> Result<EventTrb, Unrecognized>
    ensures { result ≡ command_completion_as raw }
{
    let Some(completion_code) = codes::code_of(crate::byte(raw, 11)) else {
        return Err(Unrecognized::new(Refusal::Code, 0, raw));
    };
    if !command_completion_clear(raw) {
        return Err(Unrecognized::new(Refusal::Reserved, 0, raw));
    }
    Ok(EventTrb::CommandCompletion(CommandCompletionEventTrbData {
        command_trb_pointer: crate::pointer(raw),
        command_completion_parameter: low_three(raw),
        completion_code,
        slot_id: crate::slot_id(raw),
    }))
}

#[tactic(auto, unfolding(guest::specs::Refusals::by_number, guest::specs::Judge::judge))]
fn port_status_change(raw: RawTrbBuffer) -> Result<EventTrb, Unrecognized>
    ensures { result ≡ port_status_change_as raw }
{
    if crate::byte(raw, 11) != 1 {
        return Err(Unrecognized::new(Refusal::Code, 0, raw));
    }
    if !port_status_change_clear(raw) {
        return Err(Unrecognized::new(Refusal::Reserved, 0, raw));
    }
    Ok(EventTrb::PortStatusChange(PortStatusChangeEventTrbData {
        port_id: crate::byte(raw, 3),
    }))
}

impl EventTrb {
    // The bytes with the cycle bit given, or the refusal of an event that they cannot hold.
    #[tactic(auto, unfolding(guest::specs::Refusals::by_number, crate::specs::Events::bytes_answered, crate::specs::Events::event_dwords, guest::specs::Judge::judge, crate::specs::Events::valid))]
    pub fn to_bytes(self, cycle_bit: bool) -> Result<RawTrbBuffer, Refusal>
        ensures { result ≡ bytes_answered self cycle_bit }
    {
        match self {
            EventTrb::Transfer(t) if t.trb_transfer_length < 0x100_0000 => {
                Ok(transfer_dwords(t, cycle_bit).into())
            }
            EventTrb::CommandCompletion(t)
                if (t.command_trb_pointer % 16 == 0)
                    & (t.command_completion_parameter < 0x100_0000) => {
                Ok(command_completion_dwords(t, cycle_bit).into())
            }
            EventTrb::PortStatusChange(t) => Ok(port_status_change_dwords(t, cycle_bit).into()),
            _ => Err(Refusal::Event),
        }
    }

    // Matched by the type's number, as document 01 has it: a table of functions would say which is whose no more plainly.
    #[tactic(auto, unfolding(guest::specs::Refusals::by_number, crate::specs::Events::event_of))]
    pub fn parse(raw: RawTrbBuffer) -> Result<EventTrb, Unrecognized>
        ensures { result ≡ event_of raw }
    {
        let trb_type = crate::trb_type(raw);
        match trb_type {
            trb_types::TRANSFER_EVENT => transfer(raw),
            trb_types::COMMAND_COMPLETION_EVENT => command_completion(raw),
            trb_types::PORT_STATUS_CHANGE_EVENT => port_status_change(raw),
            _ => Err(Unrecognized::new(Refusal::Type, trb_type, raw)),
        }
    }
}
