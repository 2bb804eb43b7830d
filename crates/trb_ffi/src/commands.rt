// The commands of a driver, as Rust's enum and C's union hold them (specs/Commands.antt). Each word is a sum of fields with widths of its own.
ghost use Rattle.std.specs.Prelude.{◌≡◌, ◌+◌, ◌*◌, ◌^◌};
ghost use Rattle.guest.specs.Fields.{whole_of};
ghost use Rattle.trb.specs.Commands.{command_of};
ghost use Rattle.trb.specs.Trb.{bit};
ghost use Rattle.words.specs.Lent as lent;
ghost use Rattle.trb_ffi.specs.Commands.{words_of, put};

use crate::packing;
use codes::trb_types;
use trb::command::{CommandTrbVariant, SetTrDequeuePointerCommandTrbData};

fn with_slot(kind: u8, slot: u8) -> u64
    ensures { result ≡ kind + slot * 2 ^ 8 }
{
    (kind as u64) + (slot as u64) * 0x100
}

fn with_endpoint(kind: u8, endpoint: u8, slot: u8) -> u64
    ensures { result ≡ kind + endpoint * 2 ^ 8 + slot * 2 ^ 16 }
{
    (kind as u64) + (endpoint as u64) * 0x100 + (slot as u64) * 0x1_0000
}

fn with_flag(slot: u8, flag: bool) -> u64
    ensures { result ≡ slot + bit flag * 2 ^ 8 }
{
    (slot as u64) + (flag as u64) * 0x100
}

// The stream id, the endpoint, the slot, the cycle state and the stream context type.
fn dequeue(d: SetTrDequeuePointerCommandTrbData) -> u64
    ensures { result ≡ d.stream_id + d.endpoint_id * 2 ^ 16 + d.slot_id * 2 ^ 24
        + bit d.dequeue_cycle_state * 2 ^ 32 + d.stream_context_type * 2 ^ 40 }
{
    (d.stream_id as u64)
        + (d.endpoint_id as u64) * 0x1_0000
        + (d.slot_id as u64) * 0x100_0000
        + (d.dequeue_cycle_state as u64) * 0x1_0000_0000
        + (d.stream_context_type as u64) * 0x100_0000_0000
}

fn put(out: &mut [u64; 3], variant: CommandTrbVariant)
    ensures { out.new ≡ lent.put (words_of variant) out.old }
{
    match variant {
        CommandTrbVariant::NoOp => words::put(out, &[trb_types::NO_OP_COMMAND as u64]),
        CommandTrbVariant::EnableSlot => words::put(out, &[trb_types::ENABLE_SLOT_COMMAND as u64]),
        CommandTrbVariant::DisableSlot(d) => words::put(
            out,
            &[with_slot(trb_types::DISABLE_SLOT_COMMAND, d.slot_id)],
        ),
        CommandTrbVariant::AddressDevice(d) => words::put(
            out,
            &[
                trb_types::ADDRESS_DEVICE_COMMAND as u64,
                d.input_context_pointer,
                with_flag(d.slot_id, d.block_set_address_request),
            ],
        ),
        CommandTrbVariant::ConfigureEndpoint(d) => words::put(
            out,
            &[
                trb_types::CONFIGURE_ENDPOINT_COMMAND as u64,
                d.input_context_pointer,
                with_flag(d.slot_id, d.deconfigure),
            ],
        ),
        CommandTrbVariant::EvaluateContext(d) => words::put(
            out,
            &[
                trb_types::EVALUATE_CONTEXT_COMMAND as u64,
                d.input_context_pointer,
                d.slot_id as u64,
            ],
        ),
        CommandTrbVariant::ResetEndpoint(d) => words::put(
            out,
            &[with_endpoint(trb_types::RESET_ENDPOINT_COMMAND, d.endpoint_id, d.slot_id)],
        ),
        CommandTrbVariant::StopEndpoint(d) => words::put(
            out,
            &[with_endpoint(trb_types::STOP_ENDPOINT_COMMAND, d.endpoint_id, d.slot_id)],
        ),
        CommandTrbVariant::SetTrDequeuePointer(d) => words::put(
            out,
            &[
                trb_types::SET_TR_DEQUEUE_POINTER_COMMAND as u64,
                d.dequeue_pointer,
                dequeue(d),
            ],
        ),
        CommandTrbVariant::ResetDevice(d) => words::put(
            out,
            &[with_slot(trb_types::RESET_DEVICE_COMMAND, d.slot_id)],
        ),
        CommandTrbVariant::ForceHeader => words::put(
            out,
            &[trb_types::FORCE_HEADER_COMMAND as u64],
        ),
    }
}

pub fn lomvigast_parse_command(out: &mut [u64; 3], low: u64, high: u64)
    ensures { out.new ≡ put (command_of (whole_of low high)) low high out.old }
{
    match CommandTrbVariant::parse(guest::whole(low, high)) {
        Ok(variant) => put(out, variant),
        Err(unrecognized) => packing::refuse(out, low, high, unrecognized.error),
    }
}
