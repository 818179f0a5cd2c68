// Names compared a word at a time: eight bytes are one number, the first byte the highest.
#![tactic(auto)]

ghost use Rattle.std.specs.Prelude.{◌≡◌, ◌+◌, ◌≤◌, length, take, drop};
ghost use Rattle.model.specs.Names.{name_at, compare_names};
ghost use Rattle.words.specs.Words.{word_of, compare_words};

use std::cmp::Ordering;

// The eight bytes from p on as one number. It is compiled to one load and a byte swap.
fn word_at(a: &[u8], p: u64) -> u64
    requires { p + 8 ≤ length a.now }
    ensures { result ≡ word_of (take 8 (drop p a.now)) }
{
    let at = p as usize;
    let s = &a[at..at + 8];
    u64::from_be_bytes([s[0], s[1], s[2], s[3], s[4], s[5], s[6], s[7]])
}

// Two names of 16 bytes, eight at a time: as two numbers each, and so as their bytes from the left. The second numbers are read only where the
// first are equal.
pub fn compare_names(a: &[u8], p: u64, b: &[u8], q: u64) -> Ordering
    requires { (p + 16 ≤ length a.now) × (q + 16 ≤ length b.now) }
    ensures { (result ≡ compare_words (name_at a.now p) (name_at b.now q))
        × (result ≡ compare_names (name_at a.now p) (name_at b.now q)) }
{
    let first = word_at(a, p).cmp(&word_at(b, q));
    first.then_with(|| word_at(a, p + 8).cmp(&word_at(b, q + 8)))
}
