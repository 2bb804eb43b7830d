// What any TRB has, Links, and the data that a Normal or Data Stage TRB points at.
ghost use Rattle.std.specs.Prelude.{◌≡◌};
ghost use Rattle.guest.specs.Memory.{window};
ghost use Rattle.guest.specs.Fields.{whole_of};
ghost use Rattle.trb.specs.Trb.{type_of, cycle_of};
ghost use Rattle.trb.specs.Links.{link_of};
ghost use Rattle.trb.specs.Data.{data_refusal};
ghost use Rattle.trb_ffi.specs.Parts.{flat_link, info_of, part_of};

use guest::Window;
use trb::data::TrbDmaInfo;
use trb::link::LinkTrb;

// A Link; or, with `link` false and 0s, any other TRB.
#[repr(C)]
#[derive(Clone, Copy)]
pub struct CLink {
    pub pointer: u64,
    pub link: bool,
    pub cleared: bool,
    pub toggle: bool,
    pub completion: bool,
}

// How far from the window's start the part begins, and its length; or the refusal's number, with 0s.
#[repr(C)]
#[derive(Clone, Copy)]
pub struct CPart {
    pub offset: u64,
    pub length: u32,
    pub refusal: u8,
}

fn flat_link(answer: Option<LinkTrb>) -> CLink
    ensures { result ≡ flat_link answer }
{
    match answer {
        Some(l) => CLink {
            pointer: l.ring_segment_pointer,
            link: true,
            cleared: l.pointer_bits_cleared,
            toggle: l.toggle_cycle,
            completion: l.interrupt_on_completion,
        },
        None => CLink {
            pointer: 0,
            link: false,
            cleared: false,
            toggle: false,
            completion: false,
        },
    }
}

pub fn lomvigast_trb_type(low: u64, high: u64) -> u8
    ensures { result ≡ type_of (whole_of low high) }
{
    trb::trb_type(guest::whole(low, high))
}

pub fn lomvigast_cycle_bit(low: u64, high: u64) -> bool
    ensures { result ≡ cycle_of (whole_of low high) }
{
    trb::cycle_bit(guest::whole(low, high))
}

pub fn lomvigast_parse_link(low: u64, high: u64) -> CLink
    ensures { result ≡ flat_link (link_of (whole_of low high)) }
{
    flat_link(LinkTrb::parse(guest::whole(low, high)))
}

#[tactic(auto, using(trb::proofs::Parts::data_number))]
fn info_of(pointer: u64, length: u32, immediate: bool) -> TrbDmaInfo
    ensures { result ≡ info_of pointer length immediate }
{
    TrbDmaInfo {
        data_pointer: pointer,
        transfer_length: length,
        immediate_data: immediate,
    }
}

#[tactic(auto, using(trb::proofs::Parts::data_number))]
pub fn lomvigast_data_refusal(
    start: u64,
    mem: &[u8],
    pointer: u64,
    length: u32,
    immediate: bool,
) -> u8
    ensures { result ≡ data_refusal (window start mem.now) (info_of pointer length immediate) }
{
    let info = info_of(pointer, length, immediate);
    match trb::data::data_refusal(&Window::at(start, mem), info) {
        Ok(()) => 0,
        Err(refusal) => refusal.number(),
    }
}

// The place of the part, since a reference cannot be answered over C.
pub fn lomvigast_data(start: u64, mem: &[u8], pointer: u64, length: u32, immediate: bool) -> CPart
    ensures { result ≡ part_of (window start mem.now) (info_of pointer length immediate) }
{
    let window = Window::at(start, mem);
    match trb::data::data_refusal(&window, info_of(pointer, length, immediate)) {
        Ok(()) => CPart {
            offset: window.offset(pointer, length as u64),
            length,
            refusal: 0,
        },
        Err(refusal) => CPart {
            offset: 0,
            length: 0,
            refusal: refusal.number(),
        },
    }
}
