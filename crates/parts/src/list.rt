// Lists of one format's values: so many in a row, and a count with as many after it, which stand in a list of places with zeros beyond.

ghost use Rattle.std.specs.Prelude.{◌≡◌, true, length};
ghost use Rattle.buffer.specs.Put.{Room, Put};
ghost use Rattle.codec.specs.Row.{row};
ghost use Rattle.codec.specs.Counted.{Zero, every, counted};
ghost use Rattle.fields.specs.Reads.{found};
ghost use Rattle.parts.specs.Lists.{filled};
ghost use Rattle.record.specs.Zeros.{zero_signed};

use crate::bytes::Signed;
use crate::format::Format;
use fields::Fields;
use refusal::Refusal;

// A format whose lists hold zeros beyond their count.
pub trait Element: Format {
    ghost zero: { Zero Self.Value };

    fn zero() -> Self::Value
        ensures { result ≡ zero.zero };

    fn is_zero(value: Self::Value) -> bool
        ensures { result ≡ zero.test value };
}

impl Element for Signed {
    ghost zero = { zero_signed };

    fn zero() -> i16 {
        0
    }

    fn is_zero(value: i16) -> bool {
        value == 0
    }
}

// ---- so many in a row

// Reads as many values as the list has places.
pub fn fill<F: Format>(fields: &mut Fields<'_>, list: &mut [F::Value]) -> Result<(), Refusal>
    ensures { filled result list.new fields.new ≡ (row F.codec (length list.old)).get fields.old }
{
    for place in list {
        *place = F::read(fields)?;
    }
    Ok(())
}

// Whether each value can be written.
pub fn is_fine_all<F: Format>(list: &[F::Value]) -> bool
    ensures { result ≡ (row F.codec (length list.now)).ok list.now }
{
    list.iter().all(|value| F::is_fine(*value))
}

// Puts each value after the one before.
#[tactic(auto, using(codec::proofs::RowPuts::row_puts))]
pub fn put_all<F: Format>(out: &mut [u8], at: usize, list: &[F::Value]) -> usize
    requires ok { (row F.codec (length list.now)).ok list.now ≡ true }
    requires room { Room out.old at ((row F.codec (length list.now)).put list.now) }
    ensures { Put out.old at ((row F.codec (length list.now)).put list.now) out.new result }
{
    let mut next = at;
    for value in list {
        next = F::put(out, next, *value);
    }
    next
}

// ---- a count, and as many values

// Whether each value is zero.
fn all_zero<F: Element>(list: &[F::Value]) -> bool
    ensures { result ≡ every F.zero.test list.now }
{
    list.iter().all(|value| F::is_zero(*value))
}

// Reads a count, and as many values: zeros stand beyond them.
pub fn read_counted<F: Element, const N: usize>(
    fields: &mut Fields<'_>,
) -> Result<(u8, [F::Value; N]), Refusal>
    ensures { found result fields.new ≡ (counted F.codec F.zero N).get fields.old }
{
    let count = fields.byte()?;
    let n = count as usize;
    if n < 1 || n > N {
        return Err(Refusal::CountOutOfRange);
    }
    let mut list = [F::zero(); N];
    fill::<F>(fields, &mut list[..n])?;
    Ok((count, list))
}

// Whether a count and its list can be written: the count in range, its values as they may be, and zeros beyond.
pub fn is_fine_counted<F: Element, const N: usize>(count: u8, list: &[F::Value; N]) -> bool
    ensures { result ≡ (counted F.codec F.zero N).ok (count, list.now) }
{
    let n = count as usize;
    if n < 1 || n > N {
        return false;
    }
    let values = &list[..];
    is_fine_all::<F>(&values[..n]) && all_zero::<F>(&values[n..])
}

// Puts a count, and as many values of the list. The count stands beside the list, as in a format's value.
pub fn put_counted<F: Element, const N: usize>(
    out: &mut [u8],
    at: usize,
    count: u8,
    list: &[F::Value; N],
) -> usize
    requires ok { (counted F.codec F.zero N).ok (count, list.now) ≡ true }
    requires room { Room out.old at ((counted F.codec F.zero N).put (count, list.now)) }
    ensures { Put out.old at ((counted F.codec F.zero N).put (count, list.now)) out.new result }
{
    let next = buffer::put(out, at, count);
    put_all::<F>(out, next, &list[..count as usize])
}
