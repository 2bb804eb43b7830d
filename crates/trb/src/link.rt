// Link TRBs (xHCI 6.4.4.1).
ghost use Rattle.std.specs.Prelude.{◌≡◌};
ghost use Rattle.trb.specs.Links.{link_of};

use crate::RawTrbBuffer;
use codes::trb_types;

#[derive(Clone, Copy)]
pub struct LinkTrb {
    // With the low four bits cleared.
    pub ring_segment_pointer: u64,
    // Whether one of those bits was set.
    pub pointer_bits_cleared: bool,
    pub toggle_cycle: bool,
    pub interrupt_on_completion: bool,
}

impl LinkTrb {
    #[tactic(auto, unfolding(crate::specs::Links::link_of))]
    pub fn parse(raw: RawTrbBuffer) -> Option<LinkTrb>
        ensures { result ≡ link_of raw }
    {
        if crate::trb_type(raw) != trb_types::LINK {
            return None;
        }
        Some(LinkTrb {
            ring_segment_pointer: crate::aligned_pointer(raw),
            pointer_bits_cleared: crate::low_bits(raw) != 0,
            toggle_cycle: crate::flag(raw, 12, 1),
            interrupt_on_completion: crate::flag(raw, 12, 5),
        })
    }
}
