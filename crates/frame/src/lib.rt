// The frame: LENGTH and CHKSUM, the judging of a stretch of characters, and the writing of a frame.

#![tactic(auto)]

ghost use Rattle.std.specs.Prelude.{◌≡◌, ◌+◌, ◌-◌, ◌%◌, ◌<◌, ◌≤◌, true, false, [], ◌∷◌, ◌++◌, length, take, drop, sum, None, MatchOption};
ghost use Rattle.hex_chars.specs.Hex.{FirstBad, all_hex, hexes, word};
ghost use Rattle.buffer.specs.Put.{Room, Put};
ghost use Rattle.buffer.specs.Writing.{Writes};
ghost use Rattle.frame.specs.Frame.{lchksum, length_of, chksum, packed, encode};
ghost use Rattle.frame.specs.Judge.{fault_told, refused_at, bad_number, header, Judges};
ghost use Rattle.frame.specs.Write.{framed};

use refusal::{Refusal, need};

// SOI (tilde) opens a frame, EOI (CR) closes it.
pub const SOI: u8 = 0x7E;

pub const CR: u8 = 0x0D;

// The most characters between them: 16 and the largest LENID.
pub const MOST: usize = 4110;

// The characters that are added at once.
const BLOCK: usize = 64;

// The four bytes that a frame starts with.
#[derive(Clone, Copy, PartialEq, Eq, Debug)]
pub struct Header {
    pub ver: u8,
    pub adr: u8,
    pub cid1: u8,
    pub cid2: u8,
}

// A frame as the judge tells it: its header and LENID. INFO stands among the characters that were judged.
#[derive(Clone, Copy, PartialEq, Eq, Debug)]
pub struct Frame {
    pub header: Header,
    pub lenid: usize,
}

// Why characters are no frame: the refusal, with the place of the first character that isn't hex where that is why.
#[derive(Clone, Copy, PartialEq, Eq, Debug)]
pub struct Fault {
    pub refusal: Refusal,
    pub place: Option<u32>,
}

impl From<Refusal> for Fault {
    ghost from_gives = { λ r f. f ≡ record { refusal = r; place = None } };

    fn from(refusal: Refusal) -> Fault {
        Fault {
            refusal,
            place: None,
        }
    }
}

// LCHKSUM of a LENID.
#[tactic(auto, unfolding(crate::specs::Frame::lchksum))]
fn lchksum(lenid: u16) -> u16
    ensures { result ≡ lchksum lenid }
{
    (16 - (lenid / 256 + lenid / 16 % 16 + lenid % 16) % 16) % 16
}

// LENGTH of a LENID; of a larger number, that of its low 12 bits.
#[tactic(auto, using(crate::proofs::Steps::small), unfolding(crate::specs::Frame::length_of))]
fn length_of(lenid: u16) -> u16
    ensures { result ≡ length_of (lenid % 4096) }
{
    let low = lenid % 4096;
    lchksum(low) * 4096 + low
}

// The wrapping sum of characters. No early exit, so that the loop is compiled to vector code.
fn sum_of(characters: &[u8]) -> u16
    ensures { result ≡ sum characters.now % 65536 }
{
    let mut total: u16 = 0;
    for &c in characters {
        total = total.wrapping_add(u16::from(c));
    }
    total
}

// CHKSUM of characters: their wrapping sum, taken from zero. By blocks, whose bytes the machine adds at once, and what is left.
fn chksum(characters: &[u8]) -> u16
    ensures { result ≡ chksum characters.now }
{
    let (blocks, rest) = characters.as_chunks::<BLOCK>();
    let mut total = sum_of(rest);
    for block in blocks {
        total = total.wrapping_add(sum_of(block));
    }
    total.wrapping_neg()
}

// The header of a frame's characters.
#[tactic(auto, unfolding(crate::specs::Judge::header))]
pub fn header_of(stretch: &[u8]) -> Header
    requires { 16 ≤ length stretch.now }
    ensures { result ≡ header stretch.now }
{
    Header {
        ver: hex_chars::byte_at(stretch, 0),
        adr: hex_chars::byte_at(stretch, 2),
        cid1: hex_chars::byte_at(stretch, 4),
        cid2: hex_chars::byte_at(stretch, 6),
    }
}

// What the first character that isn't hex calls for, with its place.
fn bad_character(character: u8, place: usize) -> Fault
    requires { place < MOST }
    ensures { fault_told result ≡ refused_at (bad_number character) place }
{
    let refusal = if hex_chars::is_lower(character) {
        Refusal::LowerCase
    } else {
        Refusal::NoHexDigit
    };
    Fault {
        refusal,
        place: Some(place as u32),
    }
}

// The place of the first character that isn't hex, if there is one. All are tested first, by blocks: one by one only where one is found.
fn bad_place(stretch: &[u8]) -> Option<usize>
    ensures { MatchOption result (all_hex stretch.now ≡ true) (FirstBad stretch.now) }
{
    if hex_chars::all_hex(stretch) {
        return None;
    }
    hex_chars::first_bad(stretch)
}

// Judges the characters between SOI and CR: the first refusal that applies, or the frame.
#[tactic(auto, using(hex_chars::proofs::Bad::first_bad_place), unfolding(crate::specs::Judge::judge, crate::specs::Judge::need, crate::specs::Judge::lenid))]
pub fn judge(stretch: &[u8]) -> Result<Frame, Fault>
    ensures { Judges stretch.now result }
{
    let n = stretch.len();
    need(n <= MOST, Refusal::TooLong)?;
    need(16 <= n, Refusal::TooShort)?;
    if let Some(place) = bad_place(stretch) {
        return Err(bad_character(stretch[place], place));
    }
    let length = hex_chars::word_at(stretch, 8);
    let lenid = length % 4096;
    need(length / 4096 == lchksum(lenid), Refusal::LchksumDiffers)?;
    need(lenid % 2 == 0, Refusal::LenidOdd)?;
    let end = 12 + lenid as usize;
    need(n == end + 4, Refusal::CountDiffers)?;
    let check = hex_chars::word_at(stretch, end);
    need(check == chksum(&stretch[..end]), Refusal::ChksumDiffers)?;
    Ok(Frame {
        header: header_of(stretch),
        lenid: lenid as usize,
    })
}

// Puts SOI, the header and LENGTH at the front of the buffer.
#[tactic(auto, unfolding(crate::specs::Frame::packed, hex_chars::specs::Hex::hexes))]
fn put_head(out: &mut [u8], header: Header, length: u16) -> usize
    requires { Room out.old 0 (SOI ∷ hexes (packed header length [])) }
    ensures { Put out.old 0 (SOI ∷ hexes (packed header length [])) out.new result }
{
    let head = [header.ver, header.adr, header.cid1, header.cid2];
    let start = buffer::put(out, 0, SOI);
    let next = hex_chars::put_bytes(out, start, &head);
    hex_chars::put_word(out, next, length)
}

// Puts the CHKSUM of what stands from place 1 up to `end`, and CR.
#[tactic(auto, using(crate::proofs::Steps::lengths))]
fn put_tail(out: &mut [u8], end: usize) -> usize
    requires { (1 ≤ end) × (end + 5 ≤ length out.old) }
    ensures { Put out.old end (hexes (word (chksum (take (end - 1) (drop 1 out.old)))) ++ CR ∷ []) out.new result }
{
    let check = chksum(&out[1..end]);
    let last = hex_chars::put_word(out, end, check);
    buffer::put(out, last, CR)
}

// Puts a frame from SOI to CR at the front of the buffer.
#[tactic(auto, using(crate::proofs::Steps::lengths))]
fn put_frame(out: &mut [u8], header: Header, info: &[u8]) -> usize
    requires short { length info.now ≤ 2047 }
    requires room { Room out.old 0 (encode header info.now) }
    ensures { Put out.old 0 (encode header info.now) out.new result }
{
    let length = length_of(2 * info.len() as u16);
    let start = put_head(out, header, length);
    let end = hex_chars::put_bytes(out, start, info);
    put_tail(out, end)
}

// Writes a frame from SOI to CR, INFO given as bytes: 33 above 2,047 of them, then 32.
#[tactic(auto, using(crate::proofs::Steps::written), unfolding(buffer::specs::Writing::writing))]
pub fn write(header: Header, info: &[u8], out: &mut [u8]) -> Result<usize, Refusal>
    ensures { Writes (framed header info.now out.old) result out.new }
{
    need(info.len() <= 2047, Refusal::NotEncodable)?;
    need(18 + 2 * info.len() <= out.len(), Refusal::BufferTooShort)?;
    Ok(put_frame(out, header, info))
}
