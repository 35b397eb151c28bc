// The reader of INFO: what is left of it, and the byte or the word that comes next.

#![tactic(auto, using(crate::proofs::Nexts::nexts))]

ghost use Rattle.std.specs.Prelude.{◌≡◌, List, ℕ, length, ◌==◌};
ghost use Rattle.hex_chars.specs.Hex.{unhexes};
ghost use Rattle.codec.specs.Codec.{byte};
ghost use Rattle.codec.specs.Numbers.{word};
ghost use Rattle.codec.specs.Whole.{at_end};
ghost use Rattle.fields.specs.Reads.{found, answered};

use refusal::Refusal;
use std::marker::Model;

// What is left of INFO, which is lent as its hex characters. A reading that INFO ends before leaves nothing. No `Copy`: the language takes none
// beside an `impl Model` of borrowed characters.
#[derive(Clone, Drop)]
pub struct Fields<'a> {
    rest: &'a [u8],
}

impl<'a> Model for Fields<'a> {
    ghost Value = { List ℕ };

    ghost view = { λ f. unhexes f.rest.now };
}

impl<'a> Fields<'a> {
    // All of an INFO.
    pub fn new(info: &'a [u8]) -> Fields<'a>
        ensures { result ≡ unhexes info.now }
    {
        Fields { rest: info }
    }

    // The next byte.
    pub fn byte(&mut self) -> Result<u8, Refusal>
        ensures { found result self.new ≡ byte.get self.old }
    {
        if self.rest.len() < 2 {
            return Err(Refusal::InfoEnds);
        }
        let value = hex_chars::byte_at(self.rest, 0);
        self.rest = &self.rest[2..];
        Ok(value)
    }

    // The next word, high byte first.
    pub fn word(&mut self) -> Result<u16, Refusal>
        ensures { found result self.new ≡ word.get self.old }
    {
        let high = self.byte()?;
        let low = self.byte()?;
        Ok(u16::from(high) * 256 + u16::from(low))
    }

    // How many bytes are left.
    pub fn len(&self) -> usize
        ensures { result ≡ length self.now }
    {
        self.rest.len() / 2
    }

    // Whether nothing is left.
    pub fn is_empty(&self) -> bool
        ensures { result ≡ (length self.now == 0) }
    {
        self.len() == 0
    }

    // The end of INFO: a byte that is left over is refused.
    pub fn end(self) -> Result<(), Refusal>
        ensures { answered result ≡ at_end tt self.entry }
    {
        if self.is_empty() {
            Ok(())
        } else {
            Err(Refusal::BytesLeftOver)
        }
    }
}
