// A line's numbers as text, in hexadecimal digits. By hand, and not by `{:x}` and a Display, by which a run took half its time more (docs/SPEED.md).
use std::io;
use std::io::Write;

fn digit(n: u64) -> u8 {
    let digit = (n % 16) as u8;
    if digit < 10 {
        b'0' + digit
    } else {
        b'a' + (digit - 10)
    }
}

// Puts the last digits of a number, as many as there is room for.
fn fill(n: u64, room: &mut [u8]) {
    let mut rest = n;
    for place in room.iter_mut().rev() {
        *place = digit(rest);
        rest = rest / 16;
    }
}

// A number of as many digits as it needs, behind a space.
fn write_number(n: u64, text: &mut impl Write) -> io::Result<()> {
    let needed = (67 - n.leading_zeros()) as usize / 4;
    let start = 16 - needed.max(1).min(16);
    let mut shown = [b' '; 17];
    fill(n, &mut shown[start + 1..]);
    text.write_all(&shown[start..])
}

pub(crate) fn write_numbers(numbers: &[u64], text: &mut impl Write) -> io::Result<()> {
    for n in numbers {
        write_number(*n, text)?;
    }
    Ok(())
}

// The halves of a TRB, each with its first byte on top, behind a space.
pub(crate) fn write_halves(first: u64, second: u64, text: &mut impl Write) -> io::Result<()> {
    text.write_all(b" ")?;
    for half in [first, second] {
        let mut shown = [0u8; 16];
        fill(half, &mut shown);
        text.write_all(&shown)?;
    }
    Ok(())
}
