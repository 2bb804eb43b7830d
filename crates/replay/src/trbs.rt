// Lines about single TRBs: the parsers, and events written. Of a word's fields the last is taken with all above it, so that what should
// be 0 there shows. What runs are the exports, so kinds and refusals are C's numbers here.
use crate::digits::{write_halves, write_numbers};
use crate::input::Numbers;
use codes::trb_types;
use std::io;
use std::io::Write;
use trb_ffi::{commands, events, parts, transfers};

// The events' types, as a word has them.
const TRANSFER: u64 = trb_types::TRANSFER_EVENT as u64;

const COMPLETION: u64 = trb_types::COMMAND_COMPLETION_EVENT as u64;

const PORT: u64 = trb_types::PORT_STATUS_CHANGE_EVENT as u64;

#[derive(Clone, Copy, Default)]
pub(crate) struct Trb {
    pub(crate) low: u64,
    pub(crate) high: u64,
}

impl Trb {
    // From its halves in a line.
    pub(crate) fn read(first: u64, second: u64) -> Trb {
        Trb {
            low: first.swap_bytes(),
            high: second.swap_bytes(),
        }
    }

    pub(crate) fn write(self, text: &mut impl Write) -> io::Result<()> {
        write_halves(self.low.swap_bytes(), self.high.swap_bytes(), text)
    }
}

// What a parser's words say: the type and its fields, or a refusal and the TRB, whose bytes stand in them from byte 1 on.
fn write_parsed<const N: usize>(
    words: [u64; 3],
    fields: [u64; N],
    text: &mut impl Write,
) -> io::Result<()> {
    let [a, b, c] = words;
    let trb_type = a & 0xff;
    if trb_type != 0 {
        write_numbers(&[0, trb_type], text)?;
        write_numbers(&fields, text)?;
        return Trb::default().write(text);
    }
    let refusal = c >> 8 & 0xff;
    let trb_type = c >> 16;
    let raw = Trb {
        low: a >> 8 | b << 56,
        high: b >> 8 | c << 56,
    };
    write_numbers(&[refusal, trb_type], text)?;
    write_numbers(&[0; N], text)?;
    raw.write(text)
}

#[derive(Clone, Copy, Default)]
struct Command {
    pointer: u64,
    stream: u64,
    flag: u64,
    context_type: u64,
    endpoint: u64,
    slot: u64,
}

impl From<[u64; 3]> for Command {
    fn from(words: [u64; 3]) -> Command {
        let [a, b, c] = words;
        let none = Command::default();
        match (a & 0xff) as u8 {
            trb_types::DISABLE_SLOT_COMMAND | trb_types::RESET_DEVICE_COMMAND => Command {
                slot: a >> 8,
                ..none
            },
            trb_types::ADDRESS_DEVICE_COMMAND
            | trb_types::CONFIGURE_ENDPOINT_COMMAND
            | trb_types::EVALUATE_CONTEXT_COMMAND => Command {
                pointer: b,
                flag: c >> 8,
                slot: c & 0xff,
                ..none
            },
            trb_types::RESET_ENDPOINT_COMMAND | trb_types::STOP_ENDPOINT_COMMAND => Command {
                endpoint: a >> 8 & 0xff,
                slot: a >> 16,
                ..none
            },
            trb_types::SET_TR_DEQUEUE_POINTER_COMMAND => Command {
                pointer: b,
                stream: c & 0xffff,
                flag: c >> 32 & 0xff,
                context_type: c >> 40,
                endpoint: c >> 16 & 0xff,
                slot: c >> 24 & 0xff,
            },
            _ => none,
        }
    }
}

impl Command {
    // In the order of a line.
    fn fields(&self) -> [u64; 6] {
        [
            self.pointer,
            self.stream,
            self.flag,
            self.context_type,
            self.endpoint,
            self.slot,
        ]
    }
}

pub(crate) fn parse_command(given: &Numbers, text: &mut impl Write) -> io::Result<()> {
    let trb = Trb::read(given[1], given[2]);
    let mut words = [0; 3];
    commands::lomvigast_parse_command(&mut words, trb.low, trb.high);
    trb.write(text)?;
    text.write_all(b":")?;
    write_parsed(words, Command::from(words).fields(), text)
}

#[derive(Clone, Copy, Default)]
struct Transfer {
    pointer: u64,
    length: u64,
    value: u64,
    index: u64,
    byte_0: u64,
    byte_1: u64,
    short: u64,
    chain: u64,
    completion: u64,
    immediate: u64,
    direction: u64,
}

impl From<[u64; 4]> for Transfer {
    fn from(words: [u64; 4]) -> Transfer {
        let [a, b, c, d] = words;
        let none = Transfer::default();
        match (a & 0xff) as u8 {
            trb_types::NORMAL | trb_types::DATA_STAGE => Transfer {
                pointer: b,
                length: c & 0xffff_ffff,
                short: c >> 56,
                chain: c >> 32 & 0xff,
                completion: c >> 40 & 0xff,
                immediate: c >> 48 & 0xff,
                direction: d,
                ..none
            },
            trb_types::SETUP_STAGE => Transfer {
                length: b & 0xffff,
                value: a >> 32 & 0xffff,
                index: a >> 48,
                byte_0: a >> 16 & 0xff,
                byte_1: a >> 24 & 0xff,
                completion: b >> 16,
                ..none
            },
            _ => Transfer {
                pointer: b,
                chain: (a >> 8 & 0xff) + (c & 0xff),
                completion: (a >> 16 & 0xff) + (c >> 8 & 0xff),
                direction: a >> 24,
                ..none
            },
        }
    }
}

impl Transfer {
    // In the order of a line.
    fn fields(&self) -> [u64; 11] {
        [
            self.pointer,
            self.length,
            self.value,
            self.index,
            self.byte_0,
            self.byte_1,
            self.short,
            self.chain,
            self.completion,
            self.immediate,
            self.direction,
        ]
    }
}

// One function for this and `parse_command` would take the parser, the number of its words and the type of the fields.
pub(crate) fn parse_transfer(given: &Numbers, text: &mut impl Write) -> io::Result<()> {
    let trb = Trb::read(given[1], given[2]);
    let mut words = [0; 4];
    transfers::lomvigast_parse_transfer(&mut words, trb.low, trb.high);
    let [a, b, c, _] = words;
    trb.write(text)?;
    text.write_all(b":")?;
    write_parsed([a, b, c], Transfer::from(words).fields(), text)
}

pub(crate) fn parse_link(given: &Numbers, text: &mut impl Write) -> io::Result<()> {
    let trb = Trb::read(given[1], given[2]);
    let link = parts::lomvigast_parse_link(trb.low, trb.high);
    let is_link = u64::from(link.link);
    let cleared = u64::from(link.cleared);
    let toggle = u64::from(link.toggle);
    let completion = u64::from(link.completion);
    trb.write(text)?;
    text.write_all(b":")?;
    write_numbers(&[is_link, link.pointer, cleared, toggle, completion], text)
}

#[derive(Clone, Copy)]
pub(crate) struct Event {
    // As it was read: above a byte it is no event's.
    trb_type: u64,
    pointer: u64,
    length: u64,
    code: u64,
    event_data: u64,
    endpoint: u64,
    slot: u64,
    port: u64,
}

impl From<Numbers> for Event {
    fn from(given: Numbers) -> Event {
        Event {
            trb_type: given[1],
            pointer: given[2],
            length: given[3] & 0xffff_ffff,
            code: given[4] & 0xff,
            event_data: given[5] & 1,
            endpoint: given[6] & 0xff,
            slot: given[7] & 0xff,
            port: given[8] & 0xff,
        }
    }
}

impl Event {
    // A Port Status Change has the code 1, which the words do not say: with another there is no event.
    pub(crate) fn words(&self) -> [u64; 3] {
        let coded = self.length | self.code << 32;
        match self.trb_type {
            TRANSFER => {
                let flag = self.event_data << 40;
                let place = self.endpoint << 48 | self.slot << 56;
                [TRANSFER, self.pointer, coded | flag | place]
            }
            COMPLETION => [COMPLETION, self.pointer, coded | self.slot << 40],
            PORT if self.code == 1 => [PORT | self.port << 8, 0, 0],
            _ => [0, 0, 0],
        }
    }

    pub(crate) fn write(&self, text: &mut impl Write) -> io::Result<()> {
        let fields = [
            self.trb_type & 0xff,
            self.pointer,
            self.length,
            self.code,
            self.event_data,
            self.endpoint,
            self.slot,
            self.port,
        ];
        write_numbers(&fields, text)
    }
}

pub(crate) fn write_event(given: &Numbers, text: &mut impl Write) -> io::Result<()> {
    let event = Event::from(*given);
    let cycle = given[9];
    let written = events::lomvigast_event_bytes(&event.words(), u64::from(cycle == 1));
    event.write(text)?;
    write_numbers(&[cycle & 1], text)?;
    text.write_all(b":")?;
    if written.high < 0x100 {
        write_numbers(&[written.high], text)?;
        return Trb::default().write(text);
    }
    write_numbers(&[0], text)?;
    let trb = Trb {
        low: written.low,
        high: written.high,
    };
    trb.write(text)
}
