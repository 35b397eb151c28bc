// The formats of single values: a byte and a signed number, high byte first. And what formats of several are made of: N bytes, and words.

ghost use Rattle.std.specs.Prelude.{◌≡◌};
ghost use Rattle.buffer.specs.Put.{Room, Put};
ghost use Rattle.codec.specs.Codec.{byte};
ghost use Rattle.codec.specs.Numbers.{word, signed};
ghost use Rattle.codec.specs.Row.{row, row_put};
ghost use Rattle.fields.specs.Reads.{found};
ghost use Rattle.parts.specs.Laws.{some_byte, some_signed};

use crate::format::Format;
use crate::list::fill;
use fields::Fields;
use refusal::Refusal;

// A word, high byte first.
pub fn put_word(out: &mut [u8], at: usize, value: u16) -> usize
    requires { Room out.old at (word.put value) }
    ensures { Put out.old at (word.put value) out.new result }
{
    buffer::put_all(out, at, &value.to_be_bytes())
}

// A signed number.
pub fn put_signed(out: &mut [u8], at: usize, value: i16) -> usize
    requires { Room out.old at (signed.put value) }
    ensures { Put out.old at (signed.put value) out.new result }
{
    put_word(out, at, record::word_of(value))
}

pub struct Byte;

impl Format for Byte {
    type Value = u8;

    ghost codec = { byte };

    ghost some = { some_byte };

    ghost long = { λ a. 1 };

    fn read(fields: &mut Fields<'_>) -> Result<u8, Refusal> {
        fields.byte()
    }

    fn is_fine(_value: u8) -> bool {
        true
    }

    fn size(_value: u8) -> usize {
        1
    }

    fn put(out: &mut [u8], at: usize, value: u8) -> usize {
        buffer::put(out, at, value)
    }
}

pub struct Signed;

impl Format for Signed {
    type Value = i16;

    ghost codec = { signed };

    ghost some = { some_signed };

    ghost long = { λ a. 2 };

    fn read(fields: &mut Fields<'_>) -> Result<i16, Refusal> {
        Ok(record::signed(fields.word()?))
    }

    fn is_fine(_value: i16) -> bool {
        true
    }

    fn size(_value: i16) -> usize {
        2
    }

    fn put(out: &mut [u8], at: usize, value: i16) -> usize {
        put_signed(out, at, value)
    }
}

// Reads N bytes.
pub fn read_bytes<const N: usize>(fields: &mut Fields<'_>) -> Result<[u8; N], Refusal>
    ensures { found result fields.new ≡ (row byte N).get fields.old }
{
    let mut bytes = [0u8; N];
    fill::<Byte>(fields, &mut bytes)?;
    Ok(bytes)
}

// Puts words. Beside `put_all`, which asks that each value can be written: of a word its type says so, and of a signed number.
#[tactic(auto, using(codec::proofs::RowPuts::row_puts))]
pub fn put_words(out: &mut [u8], at: usize, words: &[u16]) -> usize
    requires { Room out.old at (row_put word words.now) }
    ensures { Put out.old at (row_put word words.now) out.new result }
{
    let mut next = at;
    for &word in words {
        next = put_word(out, next, word);
    }
    next
}

// Puts signed numbers.
#[tactic(auto, using(codec::proofs::RowPuts::row_puts))]
pub fn put_all_signed(out: &mut [u8], at: usize, list: &[i16]) -> usize
    requires { Room out.old at (row_put signed list.now) }
    ensures { Put out.old at (row_put signed list.now) out.new result }
{
    let mut next = at;
    for &value in list {
        next = put_signed(out, next, value);
    }
    next
}
