// The commands of a driver (xHCI 6.4.3). A struct for each kind, also where two have the same fields, since usbvfiod has them so and types of TRBs
// keep its names (docs/NAMES.md); and a function for each that has fields.
ghost use Rattle.std.specs.Prelude.{◌≡◌};
ghost use Rattle.guest.specs.Fields.{field};
ghost use Rattle.trb.specs.Commands.{aligned, disable_slot_as, address_device_as, configure_endpoint_as, evaluate_context_as, reset_endpoint_as, stop_endpoint_as, set_tr_dequeue_pointer_as, reset_device_as, command_of};

use crate::{RawTrbBuffer, Unrecognized};
use codes::trb_types;
use guest::refusal::Refusal;

#[derive(Clone, Copy)]
pub struct DisableSlotCommandTrbData {
    pub slot_id: u8,
}

#[derive(Clone, Copy)]
pub struct AddressDeviceCommandTrbData {
    pub input_context_pointer: u64,
    pub block_set_address_request: bool,
    pub slot_id: u8,
}

#[derive(Clone, Copy)]
pub struct ConfigureEndpointCommandTrbData {
    pub input_context_pointer: u64,
    pub deconfigure: bool,
    pub slot_id: u8,
}

#[derive(Clone, Copy)]
pub struct EvaluateContextCommandTrbData {
    pub input_context_pointer: u64,
    pub slot_id: u8,
}

#[derive(Clone, Copy)]
pub struct ResetEndpointCommandTrbData {
    pub slot_id: u8,
    pub endpoint_id: u8,
}

#[derive(Clone, Copy)]
pub struct StopEndpointCommandTrbData {
    pub endpoint_id: u8,
    pub slot_id: u8,
}

#[derive(Clone, Copy)]
pub struct SetTrDequeuePointerCommandTrbData {
    pub dequeue_cycle_state: bool,
    pub stream_context_type: u8,
    pub dequeue_pointer: u64,
    pub stream_id: u16,
    pub endpoint_id: u8,
    pub slot_id: u8,
}

#[derive(Clone, Copy)]
pub struct ResetDeviceCommandTrbData {
    pub slot_id: u8,
}

#[derive(Clone, Copy)]
pub enum CommandTrbVariant {
    NoOp,
    EnableSlot,
    DisableSlot(DisableSlotCommandTrbData),
    AddressDevice(AddressDeviceCommandTrbData),
    ConfigureEndpoint(ConfigureEndpointCommandTrbData),
    EvaluateContext(EvaluateContextCommandTrbData),
    ResetEndpoint(ResetEndpointCommandTrbData),
    StopEndpoint(StopEndpointCommandTrbData),
    SetTrDequeuePointer(SetTrDequeuePointerCommandTrbData),
    ResetDevice(ResetDeviceCommandTrbData),
    ForceHeader,
}

// The command, or refusal 11 where the pointer's low four bits are not 0.
#[tactic(auto, unfolding(guest::specs::Refusals::by_number))]
fn aligned(raw: RawTrbBuffer, variant: CommandTrbVariant) -> Result<CommandTrbVariant, Unrecognized>
    ensures { result ≡ aligned raw variant }
{
    if crate::low_bits(raw) != 0 {
        return Err(Unrecognized::new(Refusal::Reserved, 0, raw));
    }
    Ok(variant)
}

fn disable_slot(raw: RawTrbBuffer) -> Result<CommandTrbVariant, Unrecognized>
    ensures { result ≡ disable_slot_as raw }
{
    Ok(CommandTrbVariant::DisableSlot(DisableSlotCommandTrbData {
        slot_id: crate::slot_id(raw),
    }))
}

fn address_device(raw: RawTrbBuffer) -> Result<CommandTrbVariant, Unrecognized>
    ensures { result ≡ address_device_as raw }
{
    aligned(
        raw,
        CommandTrbVariant::AddressDevice(AddressDeviceCommandTrbData {
            input_context_pointer: crate::aligned_pointer(raw),
            block_set_address_request: crate::flag(raw, 13, 1),
            slot_id: crate::slot_id(raw),
        }),
    )
}

fn configure_endpoint(raw: RawTrbBuffer) -> Result<CommandTrbVariant, Unrecognized>
    ensures { result ≡ configure_endpoint_as raw }
{
    aligned(
        raw,
        CommandTrbVariant::ConfigureEndpoint(ConfigureEndpointCommandTrbData {
            input_context_pointer: crate::aligned_pointer(raw),
            deconfigure: crate::flag(raw, 13, 1),
            slot_id: crate::slot_id(raw),
        }),
    )
}

fn evaluate_context(raw: RawTrbBuffer) -> Result<CommandTrbVariant, Unrecognized>
    ensures { result ≡ evaluate_context_as raw }
{
    aligned(
        raw,
        CommandTrbVariant::EvaluateContext(EvaluateContextCommandTrbData {
            input_context_pointer: crate::aligned_pointer(raw),
            slot_id: crate::slot_id(raw),
        }),
    )
}

fn reset_endpoint(raw: RawTrbBuffer) -> Result<CommandTrbVariant, Unrecognized>
    ensures { result ≡ reset_endpoint_as raw }
{
    Ok(CommandTrbVariant::ResetEndpoint(ResetEndpointCommandTrbData {
        slot_id: crate::slot_id(raw),
        endpoint_id: crate::endpoint_id(raw),
    }))
}

fn stop_endpoint(raw: RawTrbBuffer) -> Result<CommandTrbVariant, Unrecognized>
    ensures { result ≡ stop_endpoint_as raw }
{
    Ok(CommandTrbVariant::StopEndpoint(StopEndpointCommandTrbData {
        endpoint_id: crate::endpoint_id(raw),
        slot_id: crate::slot_id(raw),
    }))
}

// Bits 1 to 3 of byte 0.
fn stream_context_type(raw: RawTrbBuffer) -> u8
    ensures { result ≡ field raw 0 1 3 }
{
    raw[0] % 16 / 2
}

fn set_tr_dequeue_pointer(raw: RawTrbBuffer) -> Result<CommandTrbVariant, Unrecognized>
    ensures { result ≡ set_tr_dequeue_pointer_as raw }
{
    Ok(CommandTrbVariant::SetTrDequeuePointer(SetTrDequeuePointerCommandTrbData {
        dequeue_cycle_state: crate::flag(raw, 0, 0),
        stream_context_type: stream_context_type(raw),
        dequeue_pointer: crate::aligned_pointer(raw),
        stream_id: crate::two(raw, 10),
        endpoint_id: crate::endpoint_id(raw),
        slot_id: crate::slot_id(raw),
    }))
}

fn reset_device(raw: RawTrbBuffer) -> Result<CommandTrbVariant, Unrecognized>
    ensures { result ≡ reset_device_as raw }
{
    Ok(CommandTrbVariant::ResetDevice(ResetDeviceCommandTrbData {
        slot_id: crate::slot_id(raw),
    }))
}

impl CommandTrbVariant {
    // Matched by the type's number, as with events.
    #[tactic(auto, unfolding(guest::specs::Refusals::by_number, crate::specs::Commands::command_of))]
    pub fn parse(raw: RawTrbBuffer) -> Result<CommandTrbVariant, Unrecognized>
        ensures { result ≡ command_of raw }
    {
        let trb_type = crate::trb_type(raw);
        match trb_type {
            trb_types::ENABLE_SLOT_COMMAND => Ok(CommandTrbVariant::EnableSlot),
            trb_types::DISABLE_SLOT_COMMAND => disable_slot(raw),
            trb_types::ADDRESS_DEVICE_COMMAND => address_device(raw),
            trb_types::CONFIGURE_ENDPOINT_COMMAND => configure_endpoint(raw),
            trb_types::EVALUATE_CONTEXT_COMMAND => evaluate_context(raw),
            trb_types::RESET_ENDPOINT_COMMAND => reset_endpoint(raw),
            trb_types::STOP_ENDPOINT_COMMAND => stop_endpoint(raw),
            trb_types::SET_TR_DEQUEUE_POINTER_COMMAND => set_tr_dequeue_pointer(raw),
            trb_types::RESET_DEVICE_COMMAND => reset_device(raw),
            trb_types::FORCE_EVENT_COMMAND
            | trb_types::NEGOTIATE_BANDWIDTH_COMMAND
            | trb_types::SET_LATENCY_TOLERANCE_VALUE_COMMAND
            | trb_types::GET_PORT_BANDWIDTH_COMMAND => Err(Unrecognized::new(
                Refusal::Optional,
                trb_type,
                raw,
            )),
            trb_types::FORCE_HEADER_COMMAND => Ok(CommandTrbVariant::ForceHeader),
            trb_types::NO_OP_COMMAND => Ok(CommandTrbVariant::NoOp),
            _ => Err(Unrecognized::new(Refusal::Type, trb_type, raw)),
        }
    }
}
