// Bytes put into a lent buffer from a place on. Each function answers the place after what it put.

#![tactic(auto)]

ghost use Rattle.std.specs.Prelude.{[], ◌∷◌};
ghost use Rattle.buffer.specs.Put.{Room, Put};

// One byte. Buffer and place stay two parameters: a struct that held the lent buffer would have two moments of the loan in each clause.
#[tactic(auto, using(crate::proofs::Puts::puts_one))]
pub fn put(out: &mut [u8], at: usize, byte: u8) -> usize
    requires { Room out.old at (byte ∷ []) }
    ensures { Put out.old at (byte ∷ []) out.new result }
{
    out[at] = byte;
    at + 1
}

// All of a text.
#[tactic(auto, using(crate::proofs::Puts::copied_more))]
pub fn put_all(out: &mut [u8], at: usize, text: &[u8]) -> usize
    requires { Room out.old at text.now }
    ensures { Put out.old at text.now out.new result }
{
    for (i, &byte) in text.iter().enumerate() {
        out[at + i] = byte;
    }
    at + text.len()
}
