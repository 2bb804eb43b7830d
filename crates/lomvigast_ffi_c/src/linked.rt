// The link-following reader: a ring of two words, lent to be moved.
ghost use Rattle.std.specs.Prelude.{◌≡◌, slice_set};
ghost use Rattle.guest.specs.Memory.{window};
ghost use Rattle.linked_ring.specs.Chase.{ring_at, advanced, chase};
ghost use Rattle.lomvigast_ffi.specs.Linked.{ring_of, ring_words, ring_after, flat_chase};

use lomvigast_ffi::linked;
use lomvigast_ffi::linked::{CChase, CLinkedRing};

#[unsafe(no_mangle)]
pub extern "C" fn lomvigast_next_trb(start: u64, mem: &[u8], ring: &mut CLinkedRing) -> CChase
    ensures { (result ≡ flat_chase (chase (window start mem.now) (ring_of ring.old)))
        × (ring.new ≡ ring_after (chase (window start mem.now) (ring_of ring.old)) ring.old) }
{
    linked::lomvigast_next_trb(start, mem, ring)
}

#[unsafe(no_mangle)]
pub extern "C" fn lomvigast_advance(ring: &mut CLinkedRing)
    ensures { ring.new ≡ slice_set ring.old 0 (advanced (ring_of ring.old)).place }
{
    linked::lomvigast_advance(ring)
}

#[unsafe(no_mangle)]
pub extern "C" fn lomvigast_set_place(ring: &mut CLinkedRing, place: u64, cycle: bool)
    ensures { ring.new ≡ ring_words (ring_at place cycle) }
{
    linked::lomvigast_set_place(ring, place, cycle)
}
