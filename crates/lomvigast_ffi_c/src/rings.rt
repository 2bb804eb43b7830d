// The event ring and its reader: a state of seven words, lent to be changed.
ghost use Rattle.std.specs.Prelude.{◌≡◌};
ghost use Rattle.guest.specs.Memory.{window};
ghost use Rattle.event_ring.specs.Ring.{empty, configured, reader_at, reader_configured, take};
ghost use Rattle.words.specs.Events.{event_in};
ghost use Rattle.lomvigast_ffi.specs.Rings.{words_of, state_of, ring_after, reader_after, added_from, memory_from, ring_from, take_number, put_taken, taken_from};

use lomvigast_ffi::rings;
use lomvigast_ffi::rings::CEventRing;

#[unsafe(no_mangle)]
pub extern "C" fn lomvigast_reset(ring: &mut CEventRing)
    ensures { ring.new ≡ words_of empty }
{
    rings::lomvigast_reset(ring)
}

#[unsafe(no_mangle)]
pub extern "C" fn lomvigast_configure(
    start: u64,
    mem: &[u8],
    ring: &mut CEventRing,
    table: u64,
    entries: u16,
) -> u8
    ensures { (result ≡ (configured (window start mem.now) (state_of ring.old) table entries).refusal) × (ring.new ≡ ring_after (configured (window start mem.now) (state_of ring.old) table entries) ring.old) }
{
    rings::lomvigast_configure(start, mem, ring, table, entries)
}

#[unsafe(no_mangle)]
pub extern "C" fn lomvigast_configure_reader(
    start: u64,
    mem: &[u8],
    reader: &mut CEventRing,
    table: u64,
    entries: u16,
) -> u8
    ensures { (result ≡ (reader_configured (window start mem.now) (reader_at (state_of reader.old)) table entries).refusal) × (reader.new ≡ reader_after (reader_configured (window start mem.now) (reader_at (state_of reader.old)) table entries) reader.old) }
{
    rings::lomvigast_configure_reader(start, mem, reader, table, entries)
}

#[unsafe(no_mangle)]
pub extern "C" fn lomvigast_add(
    start: u64,
    mem: &mut [u8],
    ring: &mut CEventRing,
    event: &[u64; 3],
    report: u64,
) -> u8
    ensures { (result ≡ (added_from (window start mem.old) (state_of ring.old) (event_in event.now) report).refusal) × (mem.new ≡ (memory_from (window start mem.old) (state_of ring.old) (event_in event.now) report).bytes) × (ring.new ≡ ring_from (window start mem.old) ring.old (event_in event.now) report) }
{
    rings::lomvigast_add(start, mem, ring, event, report)
}

#[unsafe(no_mangle)]
pub extern "C" fn lomvigast_take(
    start: u64,
    mem: &[u8],
    reader: &mut CEventRing,
    out: &mut [u64; 2],
) -> u8
    ensures { (result ≡ take_number (take (window start mem.now) (reader_at (state_of reader.old))).answer) × (reader.new ≡ taken_from (take (window start mem.now) (reader_at (state_of reader.old))) reader.old) × (out.new ≡ put_taken (take (window start mem.now) (reader_at (state_of reader.old))) out.old) }
{
    rings::lomvigast_take(start, mem, reader, out)
}
