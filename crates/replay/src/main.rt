// Runs the answers of usbvfiod's own code, recorded in the file stdin, against the core, and writes how many agree.
//
// A line is a letter for its kind, the input, a colon and the answer; the head of the file says the forms. The input as it was read and
// the core's answer are put into the same text, and the two texts are compared: so a line that cannot be read differs. A small letter
// begins a line whose answer is wrong on purpose: it must differ, so that a comparison which finds nothing is seen. No heap: the file, a line's memory,
// its numbers and its text have fixed rooms.
#![tactic(auto)]

mod counts;
mod digits;
mod input;
mod kind;
mod rings;
mod trbs;

ghost use Rattle.std.specs.Prelude.{◌≡◌, ◌≤◌, length, IfOk};

use counts::Counts;
use input::Numbers;
use kind::Kind;
use rings::Guest;
use std::io;
use std::io::{Cursor, Read, Write};

// Room for the file, and for the memory of a line. The length is all that a caller knows of it.
fn room() -> [u8; 0x10_0000]
    ensures { 0x100000 ≡ length result }
{
    [0u8; 0x10_0000]
}

// Reads until the room is full or the input ends, and answers how many bytes that were. std's `copy` promises no bound on its count.
fn read_full(input: &mut impl Read, room: &mut [u8]) -> io::Result<usize>
    ensures { IfOk result (λ n. n ≤ length room.new) }
{
    let mut length = 0;
    for _ in 0..u64::MAX {
        let read = input.read(&mut room[length..])?;
        if read == 0 {
            break;
        }
        length += read;
    }
    Ok(length)
}

// Puts a line's input, as it was read, and the core's answer into a text. One is read and one is written, so no struct holds both.
fn answer(kind: Kind, given: &Numbers, guest: &mut Guest, text: &mut impl Write) -> io::Result<()> {
    match kind {
        Kind::Command => trbs::parse_command(given, text),
        Kind::Transfer => trbs::parse_transfer(given, text),
        Kind::Link => trbs::parse_link(given, text),
        Kind::Event => trbs::write_event(given, text),
        Kind::Step => rings::step(given, text),
        Kind::Chase => guest.chase(given, text),
        Kind::Ring => guest.configure(given, text),
        Kind::Add => guest.add(given, text),
        Kind::Memory => guest.make(given, text),
        Kind::Poke => guest.poke(given, text),
    }
}

// A line up to the colon.
fn up_to_colon(line: &[u8]) -> &[u8] {
    line.split(|b| *b == b':').next().unwrap_or(line)
}

// Whether a line and the core's are as they should be: the same, or, of a line that is wrong on purpose, other in the answer and nowhere else.
fn is_as_told(wrong: bool, line: &[u8], got: &[u8]) -> bool {
    if wrong {
        line != got && up_to_colon(line) == up_to_colon(got)
    } else {
        line == got
    }
}

fn next_line(
    rt: &impl Print,
    line: &[u8],
    guest: &mut Guest,
    counts: &mut Counts,
) -> io::Result<()> {
    counts.line();
    let letter = line.first().copied().unwrap_or(0);
    if letter == b'#' {
        return Ok(());
    }
    let Ok(kind) = Kind::try_from(letter.to_ascii_uppercase()) else {
        return counts.otherwise(rt, line, &[letter]);
    };
    let wrong = letter.is_ascii_lowercase();
    let given = input::numbers(line);
    if matches!(kind, Kind::Memory) && !wrong && !guest.resize(given[1]) {
        return counts.otherwise(rt, line, b"no memory");
    }
    // No kind's text is longer.
    let mut text = Cursor::new([0; 256]);
    text.write_all(&[letter])?;
    answer(kind, &given, guest, &mut text)?;
    let end = text.position().min(256) as usize;
    let got = &text.get_ref()[..end];
    if !is_as_told(wrong, line, got) {
        return counts.otherwise(rt, line, got);
    }
    counts.as_told(wrong, kind);
    Ok(())
}

fn main(rt: HostRuntime) -> io::Result<()> {
    let mut file = room();
    let length = read_full(&mut rt.stdin(), &mut file)?;
    if length == file.len() {
        println!(rt; "the file may be longer than what was read")?;
    }
    let mut memory = room();
    let mut guest = Guest::new(&mut memory);
    let mut counts = Counts::default();
    for line in file[..length].split_inclusive(|b| *b == b'\n') {
        let line = line.strip_suffix(b"\n").unwrap_or(line);
        next_line(&rt, line, &mut guest, &mut counts)?;
    }
    counts.show(&rt)
}
