// The listing's texts in a lent buffer: numbers in decimal, lines, a frame's six lines, a refusal's two or three, the two totals.

#![tactic(auto)]

ghost use Rattle.std.specs.Prelude.{◌≡◌, length};
ghost use Rattle.buffer.specs.Put.{Room, Put};
ghost use Rattle.texts.specs.Text.{decimal, digits, line};
ghost use Rattle.texts.specs.Block.{said_lines, refusal_lines, placed_lines, totals};

// The keys of the lines.
pub const AT: &[u8] = b"at=";

pub const VER: &[u8] = b"ver=";

pub const ADR: &[u8] = b"adr=";

pub const CID1: &[u8] = b"cid1=";

pub const CID2: &[u8] = b"cid2=";

pub const INFO: &[u8] = b"info=";

pub const REFUSED: &[u8] = b"refused=";

pub const PLACE: &[u8] = b"place=";

pub const FRAMES: &[u8] = b"frames=";

pub const REFUSALS: &[u8] = b"refusals=";

// What ends each line.
pub const LF: u8 = b'\n';

// A frame's four bytes and INFO, as their characters.
#[derive(Clone, Copy)]
pub struct Characters<'a> {
    pub ver: &'a [u8],
    pub adr: &'a [u8],
    pub cid1: &'a [u8],
    pub cid2: &'a [u8],
    pub info: &'a [u8],
}

// Puts the last k digits of a number, the last one first. By index: with `iter_mut().rev()` the loop's invariant has to speak of the iterator.
#[tactic(auto, using(crate::proofs::Texts::digit_steps))]
fn put_digits(out: &mut [u8], at: usize, k: usize, n: u32) -> usize
    requires { Room out.old at (digits k n) }
    ensures { Put out.old at (digits k n) out.new result }
{
    let mut rest = n;
    for i in (0..k).rev() {
        out[at + i] = b'0' + (rest % 10) as u8;
        rest /= 10;
    }
    at + k
}

// Puts a number in decimal.
#[tactic(auto, using(crate::proofs::Decimals::decimals))]
fn put_decimal(out: &mut [u8], at: usize, n: u32) -> usize
    requires { Room out.old at (decimal n) }
    ensures { Put out.old at (decimal n) out.new result }
{
    if n < 10 {
        return buffer::put(out, at, b'0' + n as u8);
    }
    let k = n.ilog10() as usize + 1;
    put_digits(out, at, k, n)
}

// Puts a line that says a number in decimal.
#[tactic(auto, using(crate::proofs::Texts::puts_steps), unfolding(crate::specs::Text::line))]
fn put_number_line(out: &mut [u8], at: usize, key: &[u8], n: u32) -> usize
    requires { Room out.old at (line key.now (decimal n)) }
    ensures { Put out.old at (line key.now (decimal n)) out.new result }
{
    let said = buffer::put_all(out, at, key);
    let end = put_decimal(out, said, n);
    buffer::put(out, end, LF)
}

// Puts a line that says characters. It differs from the function above in one line; a trait for what is put there, with its two impls, would be longer.
#[tactic(auto, using(crate::proofs::Texts::puts_steps), unfolding(crate::specs::Text::line))]
fn put_text_line(out: &mut [u8], at: usize, key: &[u8], text: &[u8]) -> usize
    requires { Room out.old at (line key.now text.now) }
    ensures { Put out.old at (line key.now text.now) out.new result }
{
    let said = buffer::put_all(out, at, key);
    let end = buffer::put_all(out, said, text);
    buffer::put(out, end, LF)
}

// Puts a frame's six lines.
#[tactic(auto, using(crate::proofs::Texts::puts_steps), unfolding(crate::specs::Block::six_lines))]
pub fn put_frame(out: &mut [u8], at: usize, soi: u32, frame: Characters<'_>) -> usize
    requires { Room out.old at (said_lines soi frame) }
    ensures { Put out.old at (said_lines soi frame.entry) out.new result }
{
    let second = put_number_line(out, at, AT, soi);
    let third = put_text_line(out, second, VER, frame.ver);
    let fourth = put_text_line(out, third, ADR, frame.adr);
    let fifth = put_text_line(out, fourth, CID1, frame.cid1);
    let last = put_text_line(out, fifth, CID2, frame.cid2);
    put_text_line(out, last, INFO, frame.info)
}

// Puts a refusal's two lines.
#[tactic(auto, using(crate::proofs::Texts::puts_steps), unfolding(crate::specs::Block::refusal_lines))]
pub fn put_refusal(out: &mut [u8], at: usize, soi: u32, number: u8) -> usize
    requires { Room out.old at (refusal_lines soi number) }
    ensures { Put out.old at (refusal_lines soi number) out.new result }
{
    let last = put_number_line(out, at, AT, soi);
    put_number_line(out, last, REFUSED, u32::from(number))
}

// Puts the three lines of a refusal with a place.
#[tactic(auto, using(crate::proofs::Texts::puts_steps), unfolding(crate::specs::Block::placed_lines))]
pub fn put_placed(out: &mut [u8], at: usize, soi: u32, number: u8, place: u32) -> usize
    requires { Room out.old at (placed_lines soi number place) }
    ensures { Put out.old at (placed_lines soi number place) out.new result }
{
    let last = put_refusal(out, at, soi, number);
    put_number_line(out, last, PLACE, place)
}

// Puts the two totals.
#[tactic(auto, using(crate::proofs::Texts::puts_steps), unfolding(crate::specs::Block::totals))]
pub fn put_totals(out: &mut [u8], frames: u32, refusals: u32) -> usize
    requires { Room out.old 0 (totals frames refusals) }
    ensures { Put out.old 0 (totals frames refusals) out.new result }
{
    let last = put_number_line(out, 0, FRAMES, frames);
    put_number_line(out, last, REFUSALS, refusals)
}
