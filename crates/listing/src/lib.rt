// The listing of a capture: the lines of each event, then the two totals, as text in a lent buffer.
// Store, piece and buffer are parameters one by one, as C lends them.

#![tactic(auto)]

ghost use Rattle.std.specs.Prelude.{◌≡◌, ◌+◌, ◌-◌, ◌<◌, ◌≤◌, length, []};
ghost use Rattle.buffer.specs.Put.{Put};
ghost use Rattle.buffer.specs.Writing.{Writes};
ghost use Rattle.frame.specs.Judge.{fault_told};
ghost use Rattle.receiver.specs.Step.{paper};
ghost use Rattle.receiver.specs.Run.{stepping};
ghost use Rattle.receiver.specs.Pass.{Fits};
ghost use Rattle.texts.specs.Block.{lines, block_of};
ghost use Rattle.listing.specs.Piece.{fresh, left, frames_then, refusals_then, listing, Lists, closing};
ghost use Rattle.listing.specs.Within.{turn, stored_lines, Puts, call_refusal};

use frame::{Fault, MOST};
use receiver::Receiver;
use refusal::Refusal;
use texts::Characters;

// The most bytes of a capture that are listed.
pub const LIMIT: u32 = 1073741824;

// The buffer that `list` asks for: the lines of any event fit.
pub const ROOM: usize = 4200;

// The buffer that `close` asks for: the two totals fit.
pub const CLOSING: usize = 38;

// Where a listing stands: its receiver, the offset of the next byte, and the totals so far.
#[derive(Clone, Copy)]
pub struct Listing {
    pub receiver: Receiver,
    pub offset: u32,
    pub frames: u32,
    pub refusals: u32,
}

// What a piece gave: the listing after the bytes that were taken, how many those are, and how many bytes of text stand at the front of the buffer.
// What was taken is beside the result, and not in it: C and `Lists` read the listing after a refusal too.
#[derive(Clone, Copy)]
pub struct Listed {
    pub next: Listing,
    pub taken: usize,
    pub written: Result<usize, Refusal>,
}

// The same of a part of a piece, with the place after its text.
#[derive(Clone, Copy)]
struct Part {
    next: Listing,
    taken: usize,
    end: usize,
}

// Puts the lines of a frame whose characters stand in the store. Place and buffer stay apart here and below: in a struct each clause would
// speak of two moments of the loan.
#[tactic(auto, using(texts::proofs::Texts::lengths, std::proofs::lemmas::Grind::common_steps))]
fn put_stored(out: &mut [u8], at: usize, soi: u32, lenid: usize, store: &[u8]) -> usize
    requires room { at + 4200 ≤ length out.old }
    requires store { 4110 ≤ length store.now }
    requires info { lenid ≤ 4094 }
    ensures { Put out.old at (stored_lines soi lenid store.now) out.new result }
{
    let characters = Characters {
        ver: &store[0..2],
        adr: &store[2..4],
        cid1: &store[4..6],
        cid2: &store[6..8],
        info: &store[12..12 + lenid],
    };
    texts::put_frame(out, at, soi, characters)
}

// Puts the lines of a refusal, with its place where it has one.
#[tactic(auto, using(crate::proofs::Events::event_steps), unfolding(texts::specs::Block::lines))]
fn put_fault(out: &mut [u8], at: usize, soi: u32, fault: Fault) -> usize
    requires { at + 4200 ≤ length out.old }
    ensures { Put out.old at (lines (block_of soi (fault_told fault) [])) out.new result }
{
    match fault.place {
        Some(place) => texts::put_placed(out, at, soi, fault.refusal.number(), place),
        None => texts::put_refusal(out, at, soi, fault.refusal.number()),
    }
}

// The offset of the SOI of a stretch that held so many characters when the byte before offset came.
fn back(offset: u32, held: usize) -> u32
    requires { held ≤ 4110 }
    ensures { result ≡ offset - (held + 2) }
{
    offset.saturating_sub(held as u32 + 2)
}

impl Listing {
    // A fresh listing.
    pub fn new() -> Listing
        ensures { result ≡ fresh }
    {
        Listing {
            receiver: Receiver::new(),
            offset: 0,
            frames: 0,
            refusals: 0,
        }
    }

    // How many bytes may still be read.
    pub fn left(self) -> u32
        ensures { result ≡ left self }
    {
        LIMIT.saturating_sub(self.offset)
    }

    // One run of the receiver over a piece, the lines of its event, and its total one more.
    #[tactic(auto, using(crate::proofs::Parts::advance_steps), unfolding(texts::specs::Block::lines))]
    fn advance(self, store: &mut [u8], piece: &[u8], out: &mut [u8], at: usize) -> Part
        requires fits { Fits self.receiver store.old }
        requires few { length piece.now ≤ left self }
        requires room { at + 4200 ≤ length out.old }
        ensures { Puts (turn self (stepping self.receiver store.old piece.now)) out.old at result store.new out.new }
    {
        let ran = self.receiver.run(store, piece);
        let offset = self.offset + ran.taken as u32;
        let soi = back(offset, ran.held);
        let mut next = Listing {
            receiver: ran.next,
            offset,
            frames: self.frames,
            refusals: self.refusals,
        };
        let end = match ran.event {
            None => at,
            Some(Ok(frame)) => {
                next.frames = self.frames.wrapping_add(1);
                put_stored(out, at, soi, frame.lenid, store)
            }
            Some(Err(fault)) => {
                next.refusals = self.refusals.wrapping_add(1);
                put_fault(out, at, soi, fault)
            }
        };
        Part {
            next,
            taken: ran.taken,
            end,
        }
    }

    // Run by run, as long as the buffer has room for an event's lines. The place moves by what a run took, so that no `for` counts it.
    #[tactic(auto, using(crate::proofs::Parts::loop_steps))]
    fn list_within(self, store: &mut [u8], piece: &[u8], out: &mut [u8]) -> Part
        requires fits { Fits self.receiver store.old }
        requires few { length piece.now ≤ left self }
        ensures { Puts (listing self store.old (length out.old) piece.now) out.old 0 result store.new out.new }
    {
        let mut part = Part {
            next: self,
            taken: 0,
            end: 0,
        };
        while part.taken < piece.len() && ROOM <= out.len() - part.end {
            let one = part
                .next
                .advance(store, &piece[part.taken..], out, part.end);
            part = Part {
                next: one.next,
                taken: part.taken + one.taken,
                end: one.end,
            };
        }
        part
    }

    // What a call is refused with, if at all: 32 for a store below 4,110 bytes or a buffer below 4,200, then 35 for a count above 4,110. It asks
    // for a buffer too, and so is not the receiver's.
    #[tactic(auto, unfolding(crate::specs::Within::call_refusal))]
    fn refusal(self, store: &[u8], out: &[u8]) -> Option<Refusal>
        ensures { result ≡ call_refusal self store.now out.now }
    {
        if store.len() < MOST || out.len() < ROOM {
            return Some(Refusal::BufferTooShort);
        }
        if self.receiver.is_beyond() {
            return Some(Refusal::ReceiverBeyondStore);
        }
        None
    }

    // Lists as much of a piece as the buffer has room for, and no byte beyond the limit. A call that is refused takes no byte.
    #[tactic(auto, using(crate::proofs::Parts::call_steps))]
    pub fn list(self, store: &mut [u8], piece: &[u8], out: &mut [u8]) -> Listed
        ensures { Lists self store.old piece.now out.old result store.new out.new }
    {
        if let Some(refusal) = self.refusal(store, out) {
            return Listed {
                next: self,
                taken: 0,
                written: Err(refusal),
            };
        }
        let most = (self.left() as usize).min(piece.len());
        let part = self.list_within(store, &piece[..most], out);
        Listed {
            next: part.next,
            taken: part.taken,
            written: Ok(part.end),
        }
    }

    // Writes the two totals, which close the listing. 32 for a buffer below 38 bytes.
    #[tactic(auto, using(crate::proofs::Events::totals_steps), unfolding(buffer::specs::Writing::writing))]
    pub fn close(self, out: &mut [u8]) -> Result<usize, Refusal>
        ensures { Writes (closing self out.old) result out.new }
    {
        if out.len() < CLOSING {
            return Err(Refusal::BufferTooShort);
        }
        Ok(texts::put_totals(out, self.frames, self.refusals))
    }
}
