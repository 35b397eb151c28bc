// The format of a 42H record's capacities, in mAh, and cycles: remaining 1, items, total 1, cycles, and with items 4 remaining 2 and total 2.

#![tactic(auto, unfolding(record::specs::Capacities::capacities))]

ghost use Rattle.std.specs.Prelude.{◌≡◌, true, cond, leb};
ghost use Rattle.buffer.specs.Put.{Room, Put};
ghost use Rattle.codec.specs.Numbers.{three};
ghost use Rattle.fields.specs.Reads.{found};
ghost use Rattle.record.specs.Capacities.{items, capacities};
ghost use Rattle.analog.specs.Laws.{some_capacities};

use fields::Fields;
use parts::bytes::put_word;
use parts::format::Format;
use refusal::Refusal;

// The items: whether they are 4, not 2.
fn read_items(fields: &mut Fields<'_>) -> Result<bool, Refusal>
    ensures { found result fields.new ≡ items.get fields.old }
{
    match fields.byte()? {
        2 => Ok(false),
        4 => Ok(true),
        _ => Err(Refusal::ItemsUnknown),
    }
}

// A capacity of three bytes.
fn read_three(fields: &mut Fields<'_>) -> Result<u32, Refusal>
    ensures { found result fields.new ≡ three.get fields.old }
{
    let first = fields.word()?;
    let last = fields.byte()?;
    Ok(u32::from(first) * 256 + u32::from(last))
}

fn put_three(out: &mut [u8], at: usize, value: u32) -> usize
    requires ok { three.ok value ≡ true }
    requires room { Room out.old at (three.put value) }
    ensures { Put out.old at (three.put value) out.new result }
{
    let next = put_word(out, at, (value / 256) as u16);
    buffer::put(out, next, (value % 256) as u8)
}

// How many bytes they take, by the total: with items 2, or with items 4.
pub fn size_of(total: u32) -> usize
    ensures { result ≡ cond (leb total 65000) 7 13 }
{
    if total <= 65000 { 7 } else { 13 }
}

// A value is remaining, total and cycles. The 65 Ah rule is judged after the last byte: with items 2 both are at most 65,000; with items 4 the
// fields of two bytes are FFFFH, and total 2 is above 65,000.
pub struct Capacities;

impl Format for Capacities {
    type Value = (u32, (u32, u16));

    ghost codec = { capacities };

    ghost some = { some_capacities };

    ghost long = { λ c. cond (leb c.1.0 65000) 7 13 };

    fn read(fields: &mut Fields<'_>) -> Result<(u32, (u32, u16)), Refusal> {
        let remaining = fields.word()?;
        let four = read_items(fields)?;
        let total = fields.word()?;
        let cycles = fields.word()?;
        if !four {
            if remaining > 65000 || total > 65000 {
                return Err(Refusal::CapacitiesBreakRule);
            }
            return Ok((remaining as u32, (total as u32, cycles)));
        }
        let remaining_2 = read_three(fields)?;
        let total_2 = read_three(fields)?;
        if remaining != 65535 || total != 65535 || total_2 <= 65000 {
            return Err(Refusal::CapacitiesBreakRule);
        }
        Ok((remaining_2, (total_2, cycles)))
    }

    fn is_fine((remaining, (total, _)): (u32, (u32, u16))) -> bool {
        if total <= 65000 {
            return remaining <= 65000;
        }
        remaining < 16777216 && total < 16777216
    }

    fn size((_, (total, _)): (u32, (u32, u16))) -> usize {
        size_of(total)
    }

    fn put(out: &mut [u8], at: usize, (remaining, (total, cycles)): (u32, (u32, u16))) -> usize {
        if total <= 65000 {
            let at = put_word(out, at, remaining as u16);
            let at = buffer::put(out, at, 2);
            let at = put_word(out, at, total as u16);
            return put_word(out, at, cycles);
        }
        let at = put_word(out, at, 65535);
        let at = buffer::put(out, at, 4);
        let at = put_word(out, at, 65535);
        let at = put_word(out, at, cycles);
        let at = put_three(out, at, remaining);
        put_three(out, at, total)
    }
}
