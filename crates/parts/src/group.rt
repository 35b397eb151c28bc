// The INFO of a group's reply, of any format: flag, FFH, then records until INFO ends, each into a place of a lent list.
// INFO is lent as its hex characters. Refusals come in the order of the bytes: 16 and 21 before those of the records, 17 last.

ghost use Rattle.std.specs.Prelude.{◌≡◌, ◌≤◌, IfOk, OnErr, length, replicate};
ghost use Rattle.hex_chars.specs.Hex.{unhexes};
ghost use Rattle.codec.specs.Codec.{byte};
ghost use Rattle.codec.specs.Both.{◌then◌};
ghost use Rattle.codec.specs.Whole.{lead, mapped};
ghost use Rattle.codec.specs.Many.{many};
ghost use Rattle.record.specs.Infos.{command};
ghost use Rattle.parts.specs.Groups.{grouped, handed, listed, led};

use crate::format::Format;
use crate::read::read_command;
use fields::Fields;
use refusal::Refusal;

// Command of a group.
const GROUP: u8 = 0xFF;

// Fills a list with one value. The slice's own `fill` asks for a `clone` that gives its value back, which `Copy` doesn't say.
fn fill_with<T: Copy>(list: &mut [T], value: T)
    ensures { list.new ≡ replicate (length list.old) value }
{
    for place in list {
        *place = value;
    }
}

// Records until INFO ends, as many as there are places, into the first of them; how many. A byte after the last place is left over.
// By index, since the index is the answer: with `iter_mut().enumerate()` two facts of the early returns were not found.
fn read_records<F: Format>(
    mut fields: Fields<'_>,
    places: &mut [F::Value],
) -> Result<usize, Refusal>
    ensures value { listed result places.new ≡ (many F.codec F.some (length places.old)).get fields.entry }
    ensures count { IfOk result (λ n. n ≤ length places.old) }
{
    for i in 0..places.len() {
        if fields.is_empty() {
            return Ok(i);
        }
        places[i] = F::read(&mut fields)?;
    }
    fields.end()?;
    Ok(places.len())
}

// Flag, FFH and records; the flag and how many.
fn read_group<F: Format>(info: &[u8], places: &mut [F::Value]) -> Result<(u8, usize), Refusal>
    ensures value { led result places.new ≡ (lead (byte then command 0xFF) (λ x. many F.codec F.some (length places.old))).get (unhexes info.now) }
    ensures count { IfOk result (λ x. x.1 ≤ length places.old) }
{
    let mut fields = Fields::new(info);
    let flag = fields.byte()?;
    read_command(&mut fields, GROUP)?;
    Ok((flag, read_records::<F>(fields, places)?))
}

// Flag, FFH and records; the flag and how many. The places beyond the records, and on a refusal all places, hold `none`.
pub fn take_group<F: Format>(
    info: &[u8],
    none: F::Value,
    places: &mut [F::Value],
) -> Result<(u8, usize), Refusal>
    ensures value { handed result places.new ≡ mapped ((lead (byte then command 0xFF) (λ x. many F.codec F.some (length places.old))).get (unhexes info.now)) (grouped none (length places.old)) }
    ensures count { IfOk result (λ x. x.1 ≤ length places.old) }
    ensures err { OnErr result (places.new ≡ replicate (length places.old) none) }
{
    match read_group::<F>(info, places) {
        Ok((flag, count)) => {
            fill_with(&mut places[count..], none);
            Ok((flag, count))
        }
        Err(why) => {
            fill_with(places, none);
            Err(why)
        }
    }
}
