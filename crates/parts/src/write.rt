// Whole INFOs of any format, written as bytes at the front of a lent buffer: 33 for an ADR outside the rule or a value that can't be encoded,
// then 32.

ghost use Rattle.std.specs.Prelude.{◌≡◌, ◌≤◌, ◌&&◌, ◌++◌, length};
ghost use Rattle.buffer.specs.Writing.{Writes, writing};
ghost use Rattle.codec.specs.Codec.{byte};
ghost use Rattle.codec.specs.Both.{◌then◌};
ghost use Rattle.codec.specs.Whole.{ended, lead};
ghost use Rattle.record.specs.Address.{is_address};
ghost use Rattle.record.specs.Infos.{command};
ghost use Rattle.parts.specs.Records.{record_writing};

use crate::format::Format;
use refusal::Refusal;

// A value after the bytes of its front.
fn write_after<F: Format>(
    out: &mut [u8],
    front: &[u8],
    adr: u8,
    value: F::Value,
) -> Result<usize, Refusal>
    requires { length front.now ≤ 2 }
    ensures { Writes (writing 33 (is_address adr && F.codec.ok value) (front.now ++ F.codec.put value) out.old) result out.new }
{
    if !record::is_address(adr) {
        return Err(Refusal::NotEncodable);
    }
    if !F::is_fine(value) {
        return Err(Refusal::NotEncodable);
    }
    if out.len() < front.len() + F::size(value) {
        return Err(Refusal::BufferTooShort);
    }
    let at = buffer::put_all(out, 0, front);
    Ok(F::put(out, at, value))
}

// Flag, Command = ADR, and a value.
pub fn write_flagged<F: Format>(
    out: &mut [u8],
    flag: u8,
    adr: u8,
    value: F::Value,
) -> Result<usize, Refusal>
    ensures { Writes (record_writing adr (lead (byte then command adr) (λ x. ended F.codec)) ((flag, adr), value) out.old) result out.new }
{
    write_after::<F>(out, &[flag, adr], adr, value)
}

// Command = ADR, and a value.
pub fn write_unflagged<F: Format>(
    out: &mut [u8],
    adr: u8,
    value: F::Value,
) -> Result<usize, Refusal>
    ensures { Writes (record_writing adr (lead (command adr) (λ x. ended F.codec)) (adr, value) out.old) result out.new }
{
    write_after::<F>(out, &[adr], adr, value)
}

// A flag alone, and a value.
pub fn write_flag_alone<F: Format>(
    out: &mut [u8],
    flag: u8,
    adr: u8,
    value: F::Value,
) -> Result<usize, Refusal>
    ensures { Writes (record_writing adr (lead byte (λ x. ended F.codec)) (flag, value) out.old) result out.new }
{
    write_after::<F>(out, &[flag], adr, value)
}
