// The input of a line. It is read with no test: the program writes it again as it was read, and compares that too.

// The numbers of a line: at place 0 what its letter reads as, from 1 on those of its input, and then of its answer. A TRB is two: its
// halves, each with its first byte on top.
pub(crate) type Numbers = [u64; 16];

// 0 for what is no digit, a capital letter too, which `to_digit` would take.
fn digit(b: u8) -> u64 {
    match b {
        b'0'..=b'9' => u64::from(b - b'0'),
        b'a'..=b'f' => u64::from(b - b'a' + 10),
        _ => 0,
    }
}

fn number(digits: &[u8]) -> u64 {
    digits.iter().fold(0, |n, b| n << 4 | digit(*b))
}

// A number ends with a space, a colon or its 16th digit.
pub(crate) fn numbers(line: &[u8]) -> Numbers {
    let words = line.split(|b| matches!(b, b' ' | b':'));
    let numbers = words.flat_map(|word| word.chunks(16)).map(number);
    let mut values = [0; 16];
    for (value, n) in values.iter_mut().zip(numbers) {
        *value = n;
    }
    values
}
