// What crosses to Rust and C as words of eight bytes: words that a caller lends, and an event in three of them.
#![tactic(auto)]

pub mod event;

ghost use Rattle.std.specs.Prelude.{◌≡◌};
ghost use Rattle.words.specs.Lent.{put};

// Sets as many of the lent words as are given, from the first on.
pub fn put<const N: usize>(out: &mut [u64; N], words: &[u64])
    ensures { out.new ≡ put words.now out.old }
{
    let n = words.len().min(N);
    out[..n].copy_from_slice(&words[..n]);
}
