// A format: how values of one kind lie in INFO, with its reader and its writer. What is written here once is so for every format.

ghost use Rattle.std.specs.Prelude.{◌≡◌, true, ℕ, ◌<◌, length, T};
ghost use Rattle.buffer.specs.Put.{Room, Put};
ghost use Rattle.codec.specs.Codec.{Codec};
ghost use Rattle.fields.specs.Reads.{found};

use fields::Fields;
use refusal::Refusal;

pub trait Format {
    type Value: Copy;

    // Which values it writes, as which bytes, and what it reads, with the laws that make these inverse.
    ghost codec: { Codec Self.Value };

    // A value has a byte at least.
    ghost some: { (a : Self.Value) → T (codec.ok a) → 0 < length (codec.put a) };

    // How many bytes a value takes by its counts, whether it can be written or not.
    ghost long: { Self.Value → ℕ };

    // Reads the next value.
    fn read(fields: &mut Fields<'_>) -> Result<Self::Value, Refusal>
        ensures { found result fields.new ≡ codec.get fields.old };

    // Whether a value can be written.
    fn is_fine(value: Self::Value) -> bool
        ensures { result ≡ codec.ok value };

    // How many bytes a value takes.
    fn size(value: Self::Value) -> usize
        ensures value { result ≡ long value }
        ensures put { codec.ok value ≡ true → result ≡ length (codec.put value) }
        ensures few { result < 2000 };

    // Puts a value.
    fn put(out: &mut [u8], at: usize, value: Self::Value) -> usize
        requires ok { codec.ok value ≡ true }
        requires room { Room out.old at (codec.put value) }
        ensures { Put out.old at (codec.put value) out.new result };
}
