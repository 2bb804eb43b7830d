// Runs the marked cases of document 01, in a window that begins at 0 and in one that begins high, and writes what comes out, then the completion
// codes by name and number. The file stdout has what the document and xHCI say; the words for it stand here, and in no Display of the core's.
#![tactic(auto)]

use codes::{CompletionCode, trb_types};
use event_ring::EventRing;
use guest::Window;
use guest::refusal::Refusal;
use linked_ring::{Found, LinkedRing};
use std::io;
use trb::command::CommandTrbVariant;
use trb::event::{
    CommandCompletionEventTrbData, EventTrb, PortStatusChangeEventTrbData, TransferEventTrbData,
};
use trb::transfer::TransferTrbVariant;
use trb::{RawTrbBuffer, TrbParseError};

// The cases that have addresses are run twice, the second time with all of them moved up by so much.
const MOVED: u64 = 0xffff_ffff_ffff_fe00;

// An event's bytes, two hexadecimal digits each; sixteen 0s beside a refusal.
fn event(rt: &impl Print, name: &str, event: EventTrb, cycle_bit: bool) -> io::Result<()> {
    let written = event.to_bytes(cycle_bit);
    print!(rt; "{name} refusal {}:", refusal(written))?;
    for b in written.unwrap_or([0u8; 16]) {
        print!(rt; " {b:02x}")?;
    }
    println!(rt)
}

// The number of what refuses, 0 for none, as the text shows it.
fn refusal<T: Drop>(answer: Result<T, Refusal>) -> u8 {
    match answer {
        Ok(_) => 0,
        Err(refusal) => refusal.number(),
    }
}

fn unrecognized(rt: &impl Print, name: &str, error: TrbParseError) -> io::Result<()> {
    println!(rt;
        "{name} refusal {} with type {}",
        error.refusal.number(),
        error.trb_type
    )
}

// Each by its own parser's own answer, and each with a text of its own. `rt` and `name`, here and below, are who prints and a line's head: no thing
// that is one.

fn command(rt: &impl Print, name: &str, raw: RawTrbBuffer) -> io::Result<()> {
    match CommandTrbVariant::parse(raw) {
        Err(u) => unrecognized(rt, name, u.error),
        Ok(CommandTrbVariant::SetTrDequeuePointer(d)) => {
            let cycle = d.dequeue_cycle_state as u8;
            print!(rt; "{name} cycle {cycle}, type {}", d.stream_context_type)?;
            print!(rt; ", pointer {:#x}", d.dequeue_pointer)?;
            println!(rt; ", stream {:#x}", d.stream_id)
        }
        Ok(_) => println!(rt; "another command"),
    }
}

fn transfer(rt: &impl Print, name: &str, raw: RawTrbBuffer) -> io::Result<()> {
    match TransferTrbVariant::parse(raw) {
        Err(u) => unrecognized(rt, name, u.error),
        Ok(_) => println!(rt; "a transfer TRB"),
    }
}

// A TRB of which only its first byte and its type, a number as everywhere (codes/src/trb_types.rt), are not 0.
fn trb_of(first: u8, trb_type: u8) -> RawTrbBuffer {
    let mut raw = [0u8; 16];
    raw[0] = first;
    raw[13] = (trb_type % 64) * 4;
    raw
}

fn events(rt: &impl Print) -> io::Result<()> {
    let completion = CommandCompletionEventTrbData {
        command_trb_pointer: 0x1000,
        command_completion_parameter: 0,
        completion_code: CompletionCode::Success,
        slot_id: 1,
    };
    event(rt, "E1", EventTrb::CommandCompletion(completion), true)?;
    let change = PortStatusChangeEventTrbData { port_id: 3 };
    event(rt, "E2", EventTrb::PortStatusChange(change), false)?;
    let done = TransferEventTrbData {
        trb_pointer: 0x2010,
        trb_transfer_length: 5,
        completion_code: CompletionCode::ShortPacket,
        event_data: true,
        endpoint_id: 3,
        slot_id: 2,
    };
    event(rt, "E3", EventTrb::Transfer(done), true)
}

fn parsers(rt: &impl Print) -> io::Result<()> {
    command(rt, "P1", trb_of(0x08, trb_types::ADDRESS_DEVICE_COMMAND))?;
    let mut dequeue = trb_of(0x47, trb_types::SET_TR_DEQUEUE_POINTER_COMMAND);
    dequeue[10] = 0x34;
    dequeue[11] = 0x12;
    dequeue[12] = 0x01;
    command(rt, "P2", dequeue)?;
    transfer(rt, "P4", trb_of(0, trb_types::LINK))?;
    command(rt, "P4", trb_of(0, trb_types::FORCE_EVENT_COMMAND))
}

// Addresses in a window are told from its start.
fn at(start: u64, offset: u64) -> u64 {
    start.wrapping_add(offset)
}

// A Link at the window's start that points to itself, fresh to a reader with state 1, by the eight bytes behind its pointer.
fn chase(rt: &impl Print, name: &str, start: u64, high: u64) -> io::Result<()> {
    let mem = guest::whole(start, high);
    print!(rt; "{name}")?;
    match LinkedRing::new(start, true).next_trb(&Window::at(start, &mem)) {
        Err(refusal) => println!(rt; " refusal {}", refusal.number()),
        Ok(chase) => {
            match chase.found {
                Found::Trb(_) => print!(rt; " a TRB")?,
                Found::NothingNew => print!(rt; " nothing new")?,
                Found::TooManyLinks => print!(rt; " too many links")?,
            }
            let cycle = chase.ring.cycle as u8;
            println!(rt; ", followed {}, state {cycle}", chase.notes.links)
        }
    }
}

// Adds a port's event to the ring and writes what came of it; where it was accepted, what cycle bit stands in the slot.
fn add(
    rt: &impl Print,
    name: &str,
    start: u64,
    mem: &mut [u8],
    ring: EventRing,
    offset: u64,
) -> io::Result<EventRing> {
    let change = PortStatusChangeEventTrbData { port_id: 3 };
    let report = at(start, offset);
    print!(rt; "{name} report {report:#x}")?;
    match ring.add(start, mem, EventTrb::PortStatusChange(change), report) {
        Err(refusal) => {
            println!(rt; ": refusal {}", refusal.number())?;
            Ok(ring)
        }
        Ok(after) => {
            let slot = Window::at(start, mem)
                .read_trb(ring.place)
                .unwrap_or([0u8; 16]);
            let cycle = trb::cycle_bit(slot) as u8;
            println!(rt; ": accepted at {:#x} with cycle {cycle}", ring.place)?;
            Ok(after)
        }
    }
}

// A segment of a table: its base and its slots.
#[derive(Clone, Copy)]
struct Segment {
    base: u64,
    slots: u64,
}

// Configures a ring on the segments, whose table is at the window's start, and adds an event for each report.
fn adds(
    rt: &impl Print,
    name: &str,
    start: u64,
    segments: &[Segment],
    reports: &[u64],
) -> io::Result<()> {
    let mut mem = [0u8; 0x150];
    for (segment, entry) in segments.iter().zip(mem.chunks_exact_mut(16)) {
        entry.copy_from_slice(&guest::whole(at(start, segment.base), segment.slots));
    }
    let entries = u16::try_from(segments.len()).unwrap_or(0);
    let mut ring = EventRing::new()
        .configure(&Window::at(start, &mem), start, entries)
        .unwrap_or(EventRing::new());
    for report in reports {
        ring = add(rt, name, start, &mut mem, ring, *report)?;
    }
    Ok(())
}

// The cases that have addresses, in a window that begins at `start`.
fn windowed(rt: &impl Print, names: [&str; 5], start: u64) -> io::Result<()> {
    let [l1, l2, r1, r2, r3] = names;
    chase(rt, l1, start, 0x1801_0000_0000)?;
    chase(rt, l2, start, 0x1803_0000_0000)?;
    let two = Segment {
        base: 0x100,
        slots: 2,
    };
    let one = Segment {
        base: 0x100,
        slots: 1,
    };
    let other = Segment {
        base: 0x140,
        slots: 1,
    };
    adds(rt, r1, start, &[two], &[0x100, 0x100, 0x110, 0x110, 0x100])?;
    adds(rt, r2, start, &[one], &[0x100, 0x100])?;
    adds(rt, r3, start, &[one, other], &[0x100, 0x100, 0x140, 0x140])
}

// The codes of xHCI 1.2 table 6-90 in its order, by their names there. Into the exports and into Rust go numbers alone, so it is here that
// names whose numbers are exchanged show.
const CODES: [(&str, CompletionCode); 36] = [
    ("Invalid", CompletionCode::Invalid),
    ("Success", CompletionCode::Success),
    ("Data Buffer Error", CompletionCode::DataBufferError),
    ("Babble Detected Error", CompletionCode::BabbleDetectedError),
    ("USB Transaction Error", CompletionCode::UsbTransactionError),
    ("TRB Error", CompletionCode::TrbError),
    ("Stall Error", CompletionCode::StallError),
    ("Resource Error", CompletionCode::ResourceError),
    ("Bandwidth Error", CompletionCode::BandwidthError),
    (
        "No Slots Available Error",
        CompletionCode::NoSlotsAvailableError,
    ),
    (
        "Invalid Stream Type Error",
        CompletionCode::InvalidStreamTypeError,
    ),
    (
        "Slot Not Enabled Error",
        CompletionCode::SlotNotEnabledError,
    ),
    (
        "Endpoint Not Enabled Error",
        CompletionCode::EndpointNotEnabledError,
    ),
    ("Short Packet", CompletionCode::ShortPacket),
    ("Ring Underrun", CompletionCode::RingUnderrun),
    ("Ring Overrun", CompletionCode::RingOverrun),
    (
        "VF Event Ring Full Error",
        CompletionCode::VfEventRingFullError,
    ),
    ("Parameter Error", CompletionCode::ParameterError),
    (
        "Bandwidth Overrun Error",
        CompletionCode::BandwidthOverrunError,
    ),
    ("Context State Error", CompletionCode::ContextStateError),
    (
        "No Ping Response Error",
        CompletionCode::NoPingResponseError,
    ),
    ("Event Ring Full Error", CompletionCode::EventRingFullError),
    (
        "Incompatible Device Error",
        CompletionCode::IncompatibleDeviceError,
    ),
    ("Missed Service Error", CompletionCode::MissedServiceError),
    ("Command Ring Stopped", CompletionCode::CommandRingStopped),
    ("Command Aborted", CompletionCode::CommandAborted),
    ("Stopped", CompletionCode::Stopped),
    (
        "Stopped - Length Invalid",
        CompletionCode::StoppedLengthInvalid,
    ),
    (
        "Stopped - Short Packet",
        CompletionCode::StoppedShortedPacket,
    ),
    (
        "Max Exit Latency Too Large Error",
        CompletionCode::MaxExitLatencyTooLargeError,
    ),
    ("Isoch Buffer Overrun", CompletionCode::IsochBufferOverrun),
    ("Event Lost Error", CompletionCode::EventLostError),
    ("Undefined Error", CompletionCode::UndefinedError),
    (
        "Invalid Stream ID Error",
        CompletionCode::InvalidStreamIdError,
    ),
    (
        "Secondary Bandwidth Error",
        CompletionCode::SecondaryBandwidthError,
    ),
    (
        "Split Transaction Error",
        CompletionCode::SplitTransactionError,
    ),
];

// The number that each code has in the core, behind its name in xHCI.
fn codes(rt: &impl Print) -> io::Result<()> {
    for (name, code) in CODES {
        println!(rt; "{name} {}", code.number())?;
    }
    Ok(())
}

fn main(rt: HostRuntime) -> io::Result<()> {
    events(&rt)?;
    parsers(&rt)?;
    windowed(&rt, ["L1", "L2", "R1", "R2", "R3"], 0)?;
    windowed(
        &rt,
        ["L1 moved", "L2 moved", "R1 moved", "R2 moved", "R3 moved"],
        MOVED,
    )?;
    codes(&rt)
}
