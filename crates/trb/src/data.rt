// The data that a Normal or Data Stage TRB points at: the very part of guest memory, uncopied.
ghost use Rattle.std.specs.Prelude.{◌≡◌, ◌+◌};
ghost use Rattle.guest.specs.Memory.{window};
ghost use Rattle.trb.specs.Data.{of_normal, of_data_stage, data_answer, data_of, data_offset};

use crate::transfer::{DataStageTrb, NormalTrb};
use guest::Window;
use guest::refusal::Refusal;

// What a Normal and a Data Stage TRB say of their data.
#[derive(Clone, Copy)]
pub struct TrbDmaInfo {
    pub data_pointer: u64,
    pub transfer_length: u32,
    pub immediate_data: bool,
}

// One for each type, as `From` is. The two types are usbvfiod's, and differ in the direction.

impl From<NormalTrb> for TrbDmaInfo {
    ghost from_gives = { λ t i. i ≡ of_normal t };

    fn from(normal: NormalTrb) -> TrbDmaInfo {
        TrbDmaInfo {
            data_pointer: normal.data_pointer,
            transfer_length: normal.transfer_length,
            immediate_data: normal.immediate_data,
        }
    }
}

impl From<DataStageTrb> for TrbDmaInfo {
    ghost from_gives = { λ t i. i ≡ of_data_stage t };

    fn from(stage: DataStageTrb) -> TrbDmaInfo {
        TrbDmaInfo {
            data_pointer: stage.data_pointer,
            transfer_length: stage.transfer_length,
            immediate_data: stage.immediate_data,
        }
    }
}

// Whether the data is all in memory, or what refuses it.
#[tactic(auto, unfolding(guest::specs::Refusals::by_number, crate::specs::Data::data_refusal, guest::specs::Judge::judge))]
pub fn data_refusal(mem: &Window<'_>, info: TrbDmaInfo) -> Result<(), Refusal>
    ensures { result ≡ data_answer mem.now info }
{
    if info.immediate_data {
        return Err(Refusal::Immediate);
    }
    if !mem.inside(info.data_pointer, info.transfer_length as u64) {
        return Err(Refusal::Outside);
    }
    Ok(())
}

// The part of the memory, empty beside a refusal, as document 01 has it: its bytes, and how far from the window's start it begins. It takes the
// slice and no window, since the part's own place in it is promised.
#[tactic(auto, unfolding(crate::specs::Data::data_of, crate::specs::Data::data_offset, guest::specs::Judge::judge))]
pub fn data(start: u64, mem: &[u8], info: TrbDmaInfo) -> &[u8]
    ensures { (result.now ≡ data_of (window start mem.now) info)
        × (result.ref_ptr ≡ (mem.entry.ref_ptr.0, data_offset (window start mem.now) info + mem.entry.ref_ptr.1)) }
{
    if info.immediate_data {
        return &mem[0..0];
    }
    guest::part(start, mem, info.data_pointer, info.transfer_length as u64)
}
