// The TRBs of a transfer ring, as Rust's enum and C's union hold them (specs/Transfers.antt). Each word is a sum of fields with widths of its own;
// chain and completion stand at another place in each kind.
ghost use Rattle.std.specs.Prelude.{◌≡◌, ◌+◌, ◌*◌, ◌^◌};
ghost use Rattle.guest.specs.Fields.{whole_of};
ghost use Rattle.trb.specs.Transfers.{transfer_of};
ghost use Rattle.trb.specs.Trb.{bit};
ghost use Rattle.words.specs.Lent as lent;
ghost use Rattle.trb_ffi.specs.Transfers.{length_and, words_of, put};

use crate::packing;
use codes::trb_types;
use trb::transfer::{SetupStageTrb, TransferTrbVariant};

fn length_and(length: u32, chain: bool, completion: bool, immediate: bool, short: bool) -> u64
    ensures { result ≡ length_and length chain completion immediate short }
{
    (length as u64)
        + (chain as u64) * 0x1_0000_0000
        + (completion as u64) * 0x100_0000_0000
        + (immediate as u64) * 0x1_0000_0000_0000
        + (short as u64) * 0x100_0000_0000_0000
}

fn flags(kind: u8, chain: bool, completion: bool) -> u64
    ensures { result ≡ kind + bit chain * 2 ^ 8 + bit completion * 2 ^ 16 }
{
    (kind as u64) + (chain as u64) * 0x100 + (completion as u64) * 0x1_0000
}

fn status(chain: bool, completion: bool, direction: bool) -> u64
    ensures { result ≡ 4 + bit chain * 2 ^ 8 + bit completion * 2 ^ 16 + bit direction * 2 ^ 24 }
{
    (trb_types::STATUS_STAGE as u64)
        + (chain as u64) * 0x100
        + (completion as u64) * 0x1_0000
        + (direction as u64) * 0x100_0000
}

fn event_data(chain: bool, completion: bool) -> u64
    ensures { result ≡ bit chain + bit completion * 2 ^ 8 }
{
    (chain as u64) + (completion as u64) * 0x100
}

fn setup(d: SetupStageTrb) -> u64
    ensures { result ≡ 2 + d.request_type * 2 ^ 16 + d.request * 2 ^ 24 + d.value * 2 ^ 32 + d.index * 2 ^ 48 }
{
    (trb_types::SETUP_STAGE as u64)
        + (d.request_type as u64) * 0x1_0000
        + (d.request as u64) * 0x100_0000
        + (d.value as u64) * 0x1_0000_0000
        + (d.index as u64) * 0x1_0000_0000_0000
}

fn setup_length(d: SetupStageTrb) -> u64
    ensures { result ≡ d.length + bit d.interrupt_on_completion * 2 ^ 16 }
{
    (d.length as u64) + (d.interrupt_on_completion as u64) * 0x1_0000
}

// One word is set by itself: as a slice it takes four instructions more, by which these parsers would pass their limit (docs/SPEED.md).
fn put(out: &mut [u64; 4], variant: TransferTrbVariant)
    ensures { out.new ≡ lent.put (words_of variant) out.old }
{
    match variant {
        TransferTrbVariant::Normal(d) => words::put(
            out,
            &[
                trb_types::NORMAL as u64,
                d.data_pointer,
                length_and(
                    d.transfer_length,
                    d.chain,
                    d.interrupt_on_completion,
                    d.immediate_data,
                    d.interrupt_on_short,
                ),
            ],
        ),
        TransferTrbVariant::SetupStage(d) => words::put(out, &[setup(d), setup_length(d)]),
        TransferTrbVariant::DataStage(d) => words::put(
            out,
            &[
                trb_types::DATA_STAGE as u64,
                d.data_pointer,
                length_and(
                    d.transfer_length,
                    d.chain,
                    d.interrupt_on_completion,
                    d.immediate_data,
                    d.interrupt_on_short,
                ),
                d.direction as u64,
            ],
        ),
        TransferTrbVariant::StatusStage(d) => {
            out[0] = status(d.chain, d.interrupt_on_completion, d.direction);
        }
        TransferTrbVariant::Isoch => {
            out[0] = trb_types::ISOCH as u64;
        }
        TransferTrbVariant::EventData(d) => words::put(
            out,
            &[
                trb_types::EVENT_DATA as u64,
                d.event_data,
                event_data(d.chain, d.interrupt_on_completion),
            ],
        ),
        TransferTrbVariant::NoOp(d) => {
            out[0] = flags(trb_types::NO_OP, d.chain, d.interrupt_on_completion);
        }
    }
}

pub fn lomvigast_parse_transfer(out: &mut [u64; 4], low: u64, high: u64)
    ensures { out.new ≡ put (transfer_of (whole_of low high)) low high out.old }
{
    match TransferTrbVariant::parse(guest::whole(low, high)) {
        Ok(variant) => put(out, variant),
        Err(unrecognized) => packing::refuse(out, low, high, unrecognized.error),
    }
}
