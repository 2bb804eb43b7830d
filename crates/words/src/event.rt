// An event as three words, written as a TRB and read back. Between words and TRB (`bytes`, `parse`) the code stays a number, which saves the way
// through the enum of codes: by it an event written and read stays below its limits (docs/SPEED.md); and a refusal ends as a number, since what
// answers is C's answer, in registers, with the event and its cycle bit beside it as C lends them. Of two functions for two kinds of event each has
// fields and reserved bits of its own. By the type's number a `match` chooses, as document 01 has types matched.
ghost use Rattle.std.specs.Prelude.{◌≡◌, ℕ, Ok, Err, Bool, ◌+◌, ◌*◌, ◌%◌, ◌^◌, ◌<◌, eqb};
ghost use Rattle.guest.specs.Fields.{whole_of};
ghost use Rattle.guest.specs.Refusals.{number_of};
ghost use Rattle.codes.specs.Codes.{code_of};
ghost use Rattle.trb.specs.Events.{is_listed, transfer_as, command_completion_as, port_status_change_as, event_of};
ghost use Rattle.words.specs.Events.{refused_with, coded, code_in, transfer_in, command_completion_in, port_status_change_in, event_in, bytes_from, written, put_variant, refusal_shown, number_of_given};

use codes::trb_types;
use guest::refusal::Refusal;
use trb::TrbParseError;
use trb::event::{
    CommandCompletionEventTrbData, EventTrb, PortStatusChangeEventTrbData, TransferEventTrbData,
};

// A TRB as two numbers; or, where the event is refused, 0 and the refusal's number.
#[repr(C)]
#[derive(Clone, Copy)]
pub struct CTrb {
    pub low: u64,
    pub high: u64,
}

#[tactic(auto, using(crate::proofs::Listed::is_listed_lem, crate::proofs::Listed::is_gap, crate::proofs::Listed::is_above))]
fn listed(code: u32) -> bool
    ensures { result ≡ is_listed (code_of code) }
{
    match code {
        0..=29 | 31..=36 => true,
        _ => false,
    }
}

// ---- written

fn refused(refusal: Refusal) -> CTrb
    ensures { result ≡ written (Err refusal) }
{
    CTrb {
        low: 0,
        high: refusal.number() as u64,
    }
}

// The pointer, and two dwords.
fn joined(pointer: u64, d2: u32, d3: u32) -> CTrb
    ensures { (result ≡ record { low = pointer; high = d2 + d3 * 2 ^ 32 }) × (pointer < 2 ^ 64) }
{
    CTrb {
        low: pointer,
        high: d2 as u64 + d3 as u64 * 0x1_0000_0000,
    }
}

#[tactic(auto, using(crate::proofs::Listed::listed_yes, crate::proofs::Listed::listed_no, crate::proofs::Written::unlisted, crate::proofs::Written::transfer_no))]
fn transfer_written(event: &[u64; 3], cycle: u64) -> CTrb
    ensures { result ≡ written (bytes_from (coded (code_in event.now) (transfer_in event.now)) (eqb (cycle % 2) 1)) }
{
    let w = event[2];
    let code = (w / 0x1_0000_0000 % 0x100) as u32;
    if !listed(code) {
        return refused(Refusal::Code);
    }
    let length = (w % 0x1_0000_0000) as u32;
    if 0x100_0000 <= length {
        return refused(Refusal::Event);
    }
    joined(
        event[1],
        length + code * 0x100_0000,
        (cycle % 2) as u32
            + (w / 0x100_0000_0000 % 2) as u32 * 4
            + 0x8000
            + (w / 0x1_0000_0000_0000 % 0x100) as u32 * 0x1_0000
            + (w / 0x100_0000_0000_0000 % 0x100) as u32 * 0x100_0000,
    )
}

#[tactic(auto, using(crate::proofs::Listed::listed_yes, crate::proofs::Listed::listed_no, crate::proofs::Written::unlisted, crate::proofs::Written::command_low, crate::proofs::Written::command_no))]
fn command_completion_written(event: &[u64; 3], cycle: u64) -> CTrb
    ensures { result ≡ written (bytes_from (coded (code_in event.now) (command_completion_in event.now)) (eqb (cycle % 2) 1)) }
{
    let w = event[2];
    let code = (w / 0x1_0000_0000 % 0x100) as u32;
    if !listed(code) {
        return refused(Refusal::Code);
    }
    let pointer = event[1];
    if pointer % 16 != 0 {
        return refused(Refusal::Event);
    }
    let length = (w % 0x1_0000_0000) as u32;
    if 0x100_0000 <= length {
        return refused(Refusal::Event);
    }
    joined(
        pointer,
        length + code * 0x100_0000,
        (cycle % 2) as u32 + 0x8400 + (w / 0x100_0000_0000 % 0x100) as u32 * 0x100_0000,
    )
}

#[tactic(auto, using(crate::proofs::Written::port_yes))]
fn port_status_change_written(event: &[u64; 3], cycle: u64) -> CTrb
    ensures { result ≡ written (bytes_from (Ok (port_status_change_in event.now)) (eqb (cycle % 2) 1)) }
{
    CTrb {
        low: event[0] / 0x100 % 0x100 * 0x100_0000,
        high: 0x100_0000 + (cycle % 2 + 0x8800) * 0x1_0000_0000,
    }
}

// The TRB of an event with the cycle bit that `cycle` has in bit 0. Most events are Transfer Events: their test stands first.
#[tactic(auto, unfolding(guest::specs::Refusals::by_number, crate::specs::Events::event_in))]
pub fn bytes(event: &[u64; 3], cycle: u64) -> CTrb
    ensures { result ≡ written (bytes_from (event_in event.now) (eqb (cycle % 2) 1)) }
{
    if event[0] % 0x100 == trb_types::TRANSFER_EVENT as u64 {
        return transfer_written(event, cycle);
    }
    let trb_type = (event[0] % 0x100) as u8;
    match trb_type {
        trb_types::PORT_STATUS_CHANGE_EVENT => port_status_change_written(event, cycle),
        trb_types::COMMAND_COMPLETION_EVENT => command_completion_written(event, cycle),
        _ => refused(Refusal::Type),
    }
}

// ---- read: 0, with the event's words; or the refusal, with the words as they were

#[tactic(auto, using(crate::proofs::Read::transfer_12, crate::proofs::Read::transfer_11, crate::proofs::Read::transfer_put), unfolding(guest::specs::Refusals::by_number))]
fn transfer_read(out: &mut [u64; 3], low: u64, high: u64) -> u16
    ensures { (result ≡ refusal_shown (transfer_as (whole_of low high))) × (out.new ≡ put_variant (transfer_as (whole_of low high)) out.old) }
{
    let d2 = high % 0x1_0000_0000;
    let d3 = high / 0x1_0000_0000 % 0x1_0000_0000;
    let code = d2 / 0x100_0000 % 0x100;
    if !listed(code as u32) {
        return Refusal::Code.number() as u16;
    }
    if !((d3 / 2 % 2 == 0) & (d3 / 8 % 0x80 == 0)) {
        return Refusal::Reserved.number() as u16;
    }
    let coded = d2 % 0x100_0000
        + code * 0x1_0000_0000
        + d3 / 4 % 2 * 0x100_0000_0000
        + d3 / 0x1_0000 % 0x100 * 0x1_0000_0000_0000
        + d3 / 0x100_0000 % 0x100 * 0x100_0000_0000_0000;
    crate::put(out, &[trb_types::TRANSFER_EVENT as u64, low, coded]);
    0
}

#[tactic(auto, using(crate::proofs::Read::command_12, crate::proofs::Read::command_11, crate::proofs::Read::command_put), unfolding(guest::specs::Refusals::by_number))]
fn command_completion_read(out: &mut [u64; 3], low: u64, high: u64) -> u16
    ensures { (result ≡ refusal_shown (command_completion_as (whole_of low high))) × (out.new ≡ put_variant (command_completion_as (whole_of low high)) out.old) }
{
    let d2 = high % 0x1_0000_0000;
    let d3 = high / 0x1_0000_0000 % 0x1_0000_0000;
    let code = d2 / 0x100_0000 % 0x100;
    if !listed(code as u32) {
        return Refusal::Code.number() as u16;
    }
    if !((low % 0x10 == 0) & (d3 / 2 % 0x200 == 0) & (d3 / 0x1_0000 % 0x100 == 0)) {
        return Refusal::Reserved.number() as u16;
    }
    let coded = d2 % 0x100_0000 + code * 0x1_0000_0000 + d3 / 0x100_0000 % 0x100 * 0x100_0000_0000;
    crate::put(
        out,
        &[trb_types::COMMAND_COMPLETION_EVENT as u64, low, coded],
    );
    0
}

#[tactic(auto, using(guest::proofs::Tests::tests, crate::proofs::Read::port_12, crate::proofs::Read::port_11), unfolding(guest::specs::Refusals::by_number))]
fn port_status_change_read(out: &mut [u64; 3], low: u64, high: u64) -> u16
    ensures { (result ≡ refusal_shown (port_status_change_as (whole_of low high))) × (out.new ≡ put_variant (port_status_change_as (whole_of low high)) out.old) }
{
    let d0 = low % 0x1_0000_0000;
    let d1 = low / 0x1_0000_0000 % 0x1_0000_0000;
    let d2 = high % 0x1_0000_0000;
    let d3 = high / 0x1_0000_0000 % 0x1_0000_0000;
    if d2 / 0x100_0000 % 0x100 != 1 {
        return Refusal::Code.number() as u16;
    }
    if !((d0 % 0x100_0000 == 0)
        & (d1 == 0)
        & (d2 % 0x100_0000 == 0)
        & (d3 / 2 % 0x200 == 0)
        & (d3 / 0x1_0000 % 0x1_0000 == 0))
    {
        return Refusal::Reserved.number() as u16;
    }
    crate::put(
        out,
        &[trb_types::PORT_STATUS_CHANGE_EVENT as u64 + d0 / 0x100_0000 % 0x100 * 0x100],
    );
    0
}

// The event that the two halves of a TRB say, put into the words that are lent; answers 0. Or the refusal, with the type above it where
// the refusal is 10.
#[tactic(auto, using(crate::proofs::Read::type_is), unfolding(guest::specs::Refusals::by_number, trb::specs::Events::event_of))]
pub fn parse(out: &mut [u64; 3], low: u64, high: u64) -> u16
    ensures { (result ≡ refusal_shown (event_of (whole_of low high))) × (out.new ≡ put_variant (event_of (whole_of low high)) out.old) }
{
    let trb_type = (high / 0x1_0000_0000 % 0x1_0000_0000 / 0x400 % 0x40) as u8;
    match trb_type {
        trb_types::TRANSFER_EVENT => transfer_read(out, low, high),
        trb_types::COMMAND_COMPLETION_EVENT => command_completion_read(out, low, high),
        trb_types::PORT_STATUS_CHANGE_EVENT => port_status_change_read(out, low, high),
        _ => Refusal::Type.number() as u16 + trb_type as u16 * 0x100,
    }
}

// ---- given, by value, for the whole rule. What two kinds share is the code's line.

#[tactic(auto, unfolding(guest::specs::Refusals::by_number))]
fn transfer_given(event: &[u64; 3]) -> Result<EventTrb, TrbParseError>
    ensures { result ≡ coded (code_in event.now) (transfer_in event.now) }
{
    let w = event[2];
    let Some(completion_code) = codes::code_of((w / 0x1_0000_0000 % 0x100) as u8) else {
        return Err(TrbParseError {
            refusal: Refusal::Code,
            trb_type: 0,
        });
    };
    Ok(EventTrb::Transfer(TransferEventTrbData {
        trb_pointer: event[1],
        trb_transfer_length: (w % 0x1_0000_0000) as u32,
        completion_code,
        event_data: w / 0x100_0000_0000 % 2 == 1,
        endpoint_id: (w / 0x1_0000_0000_0000 % 0x100) as u8,
        slot_id: (w / 0x100_0000_0000_0000 % 0x100) as u8,
    }))
}

#[tactic(auto, unfolding(guest::specs::Refusals::by_number))]
fn command_completion_given(event: &[u64; 3]) -> Result<EventTrb, TrbParseError>
    ensures { result ≡ coded (code_in event.now) (command_completion_in event.now) }
{
    let w = event[2];
    let Some(completion_code) = codes::code_of((w / 0x1_0000_0000 % 0x100) as u8) else {
        return Err(TrbParseError {
            refusal: Refusal::Code,
            trb_type: 0,
        });
    };
    Ok(EventTrb::CommandCompletion(CommandCompletionEventTrbData {
        command_trb_pointer: event[1],
        command_completion_parameter: (w % 0x1_0000_0000) as u32,
        completion_code,
        slot_id: (w / 0x100_0000_0000 % 0x100) as u8,
    }))
}

// No `TryFrom`: what it is made from is words, which have no type of their own, and docs/PROMISES.md has the name.
#[tactic(auto, unfolding(guest::specs::Refusals::by_number, crate::specs::Events::event_in))]
pub fn given(event: &[u64; 3]) -> Result<EventTrb, TrbParseError>
    ensures { result ≡ event_in event.now }
{
    let trb_type = (event[0] % 0x100) as u8;
    match trb_type {
        trb_types::TRANSFER_EVENT => transfer_given(event),
        trb_types::COMMAND_COMPLETION_EVENT => command_completion_given(event),
        trb_types::PORT_STATUS_CHANGE_EVENT => Ok(EventTrb::PortStatusChange(
            PortStatusChangeEventTrbData {
                port_id: (event[0] / 0x100 % 0x100) as u8,
            },
        )),
        _ => Err(TrbParseError {
            refusal: Refusal::Type,
            trb_type,
        }),
    }
}

// What says why something is refused: a number itself, or what holds a refusal.
pub trait Numbered {
    // The number that it says.
    ghost shown: { Self → ℕ };

    fn number(self) -> u8
        ensures { result ≡ shown self };
}

impl Numbered for u8 {
    ghost shown = { λ n. n };

    fn number(self) -> u8 {
        self
    }
}

impl Numbered for TrbParseError {
    ghost shown = { λ e. number_of e.refusal };

    fn number(self) -> u8 {
        self.refusal.number()
    }
}

// The number of what refuses a given event, 0 where nothing does, for C.
pub fn number<E: Numbered>(given: Result<EventTrb, E>) -> u8
    ensures { result ≡ number_of_given E.shown given }
{
    match given {
        Ok(_) => 0,
        Err(e) => e.number(),
    }
}
