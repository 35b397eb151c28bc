// Whole INFOs of any format, read: with flag and Command, with Command alone, with a flag alone, and to its end.
// INFO is lent as its hex characters. Refusals come in the order of the bytes: 16 and 21 before the record's own, 17 last.

ghost use Rattle.std.specs.Prelude.{◌≡◌};
ghost use Rattle.hex_chars.specs.Hex.{unhexes};
ghost use Rattle.codec.specs.Codec.{byte};
ghost use Rattle.codec.specs.Both.{◌then◌};
ghost use Rattle.codec.specs.Whole.{ended, lead, mapped};
ghost use Rattle.record.specs.Infos.{command, empty_info};
ghost use Rattle.fields.specs.Reads.{found, answered};
ghost use Rattle.parts.specs.Took.{flagged, unflagged};

use crate::format::Format;
use fields::Fields;
use refusal::Refusal;

// Command: it has to be the one that was asked.
pub fn read_command(fields: &mut Fields<'_>, asked: u8) -> Result<u8, Refusal>
    ensures { found result fields.new ≡ (command asked).get fields.old }
{
    let given = fields.byte()?;
    if given == asked {
        Ok(given)
    } else {
        Err(Refusal::CommandDiffers)
    }
}

// A value, and nothing after it.
pub fn read_last<F: Format>(mut fields: Fields<'_>) -> Result<F::Value, Refusal>
    ensures { answered result ≡ (ended F.codec).get fields.entry }
{
    let value = F::read(&mut fields)?;
    fields.end()?;
    Ok(value)
}

// Flag, Command, and a value.
pub fn take_flagged<F: Format>(info: &[u8], adr: u8) -> Result<(u8, F::Value), Refusal>
    ensures { answered result ≡ mapped ((lead (byte then command adr) (λ x. ended F.codec)).get (unhexes info.now)) flagged }
{
    let mut fields = Fields::new(info);
    let flag = fields.byte()?;
    read_command(&mut fields, adr)?;
    Ok((flag, read_last::<F>(fields)?))
}

// Command, and a value.
pub fn take_unflagged<F: Format>(info: &[u8], adr: u8) -> Result<F::Value, Refusal>
    ensures { answered result ≡ mapped ((lead (command adr) (λ x. ended F.codec)).get (unhexes info.now)) unflagged }
{
    let mut rest = Fields::new(info);
    read_command(&mut rest, adr)?;
    read_last::<F>(rest)
}

// A flag, and a value.
pub fn take_flag_alone<F: Format>(info: &[u8]) -> Result<(u8, F::Value), Refusal>
    ensures { answered result ≡ (lead byte (λ x. ended F.codec)).get (unhexes info.now) }
{
    let mut left = Fields::new(info);
    let flag = left.byte()?;
    Ok((flag, read_last::<F>(left)?))
}

// A value alone.
pub fn take_bare<F: Format>(info: &[u8]) -> Result<F::Value, Refusal>
    ensures { answered result ≡ (ended F.codec).get (unhexes info.now) }
{
    read_last::<F>(Fields::new(info))
}

// 4FH and 95H: nothing, where a byte is left over.
#[tactic(auto, unfolding(record::specs::Infos::empty_info))]
pub fn take_nothing(info: &[u8]) -> Result<(), Refusal>
    ensures { answered result ≡ empty_info.get (unhexes info.now) }
{
    Fields::new(info).end()
}
