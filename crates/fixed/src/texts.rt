// Formats of a fixed number of bytes, whatever these say: the serial number of 93H, the firmware version of 96H and the maker's text of 51H.
// Three formats and not one over N: a format owes that a value has fewer than 2,000 bytes, which is not so for every N.

#![tactic(auto, using(parts::proofs::ByteRows::bytes), unfolding(record::specs::Texts::serial, record::specs::Texts::version, record::specs::Texts::maker))]

ghost use Rattle.std.specs.Prelude.{◌≡◌};
ghost use Rattle.record.specs.Texts.{serial, version, maker};
ghost use Rattle.fixed.specs.Laws.{some_serial, some_version, some_maker};

use fields::Fields;
use parts::bytes::read_bytes;
use parts::format::Format;
use refusal::Refusal;

// 93H.
pub struct SerialNumber;

impl Format for SerialNumber {
    type Value = [u8; 16];

    ghost codec = { serial };

    ghost some = { some_serial };

    ghost long = { λ a. 16 };

    fn read(fields: &mut Fields<'_>) -> Result<[u8; 16], Refusal> {
        read_bytes::<16>(fields)
    }

    fn is_fine(_serial: [u8; 16]) -> bool {
        true
    }

    fn size(_serial: [u8; 16]) -> usize {
        16
    }

    fn put(out: &mut [u8], at: usize, serial: [u8; 16]) -> usize {
        buffer::put_all(out, at, &serial)
    }
}

// 96H.
pub struct FirmwareVersion;

impl Format for FirmwareVersion {
    type Value = [u8; 5];

    ghost codec = { version };

    ghost some = { some_version };

    ghost long = { λ a. 5 };

    fn read(fields: &mut Fields<'_>) -> Result<[u8; 5], Refusal> {
        read_bytes::<5>(fields)
    }

    fn is_fine(_version: [u8; 5]) -> bool {
        true
    }

    fn size(_version: [u8; 5]) -> usize {
        5
    }

    fn put(out: &mut [u8], at: usize, version: [u8; 5]) -> usize {
        buffer::put_all(out, at, &version)
    }
}

// 51H.
pub struct MakerText;

impl Format for MakerText {
    type Value = [u8; 32];

    ghost codec = { maker };

    ghost some = { some_maker };

    ghost long = { λ a. 32 };

    fn read(fields: &mut Fields<'_>) -> Result<[u8; 32], Refusal> {
        read_bytes::<32>(fields)
    }

    fn is_fine(_maker: [u8; 32]) -> bool {
        true
    }

    fn size(_maker: [u8; 32]) -> usize {
        32
    }

    fn put(out: &mut [u8], at: usize, maker: [u8; 32]) -> usize {
        buffer::put_all(out, at, &maker)
    }
}
