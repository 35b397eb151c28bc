// The receiver: fed by bytes, it writes characters to a lent store and hands out frames, each at its own CR.

#![tactic(auto)]

ghost use Rattle.std.specs.Prelude.{◌≡◌, ℕ, Bool, ◌<◌, ◌≤◌, length};
ghost use Rattle.std.specs.List.{list_any, position_or_len};
ghost use Rattle.refusal.specs.Number.{number};
ghost use Rattle.buffer.specs.Put.{Room};
ghost use Rattle.frame.specs.Judge.{refused, judge};
ghost use Rattle.receiver.specs.Step.{beyond, paper, Steps};
ghost use Rattle.receiver.specs.Run.{count_of, Runs};
ghost use Rattle.receiver.specs.Pass.{is_soi, is_end, Behind, Fits, call_refusal, moved, Stored, Passed};

use frame::{CR, Fault, Frame, MOST, SOI};
use refusal::Refusal;
use std::hint::select_unpredictable;

// Waiting, or open with a count of characters. No Option of a count: the theorems and the C interface name these two states.
#[derive(Clone, Copy)]
pub enum Receiver {
    Waiting,
    Open(usize),
}

// What a byte gives: nothing, or a frame or a refusal.
pub type Event = Option<Result<Frame, Fault>>;

#[derive(Clone, Copy)]
pub struct Stepped {
    pub next: Receiver,
    pub event: Event,
}

// What a run leaves: how many bytes it took, and how many characters were held when the event's byte came (0 where nothing came).
// That number stands beside the event, and not in it, for the C interface and the definition `Run` have it so.
#[derive(Clone, Copy)]
pub struct Ran {
    pub next: Receiver,
    pub event: Event,
    pub taken: usize,
    pub held: usize,
}

// The bytes of a block that is scanned at once: a wide one while waiting, then and in a stretch a smaller one, then a narrow one.
const WIDE: usize = 512;

const BLOCK: usize = 32;

const NARROW: usize = 16;

// The bytes at the end of a scan, which are stored with no branch on any of them.
const FEW: usize = 4;

// Whether a byte is SOI or CR.
fn is_end(x: u8) -> bool
    ensures { result ≡ is_end x }
{
    (x == SOI) | (x == CR)
}

// What a scan looks for.
trait Mark {
    // Whether a byte is a mark.
    ghost test: { ℕ → Bool };

    // Whether a block has one. No early exit, so that the loop is compiled to vector code.
    fn is_in(block: &[u8]) -> bool
        ensures { result ≡ list_any test block.now };
}

// SOI.
struct Soi;

impl Mark for Soi {
    ghost test = { is_soi };

    fn is_in(block: &[u8]) -> bool {
        let mut hit = false;
        for &x in block {
            hit |= x == SOI;
        }
        hit
    }
}

// SOI or CR.
struct End;

impl Mark for End {
    ghost test = { is_end };

    // Two flags: with one the compiler finds no vector code that is worth it.
    fn is_in(block: &[u8]) -> bool {
        let mut soi = false;
        let mut cr = false;
        for &x in block {
            soi |= x == SOI;
            cr |= x == CR;
        }
        soi | cr
    }
}

// Passes the blocks at the start that have no mark: what is left behind them.
#[tactic(auto, using(crate::proofs::Scans::scans))]
fn pass_blocks<M: Mark, const WIDTH: usize>(s: &[u8]) -> &[u8]
    requires { (0 < WIDTH) × (WIDTH ≤ 512) }
    ensures { Behind M.test s.now result.now }
{
    let (blocks, rest) = s.as_chunks::<WIDTH>();
    for (i, block) in blocks.iter().enumerate() {
        if M::is_in(block) {
            return &s[i * WIDTH..];
        }
    }
    rest
}

// How many bytes stand before the first SOI, all of them where there is none: byte by byte.
#[tactic(auto, using(crate::proofs::Scans::scans))]
fn first_soi(s: &[u8]) -> usize
    ensures { result ≡ position_or_len is_soi s.now }
{
    s.iter().position(|&x| x == SOI).unwrap_or(s.len())
}

// How many bytes stand before the first SOI, all of them where there is none. Where frames follow each other it is the first byte; else wide
// blocks are passed, then smaller ones in the wide one that has it.
#[tactic(auto, using(crate::proofs::Scans::scans))]
fn find_soi(s: &[u8]) -> usize
    ensures { result ≡ position_or_len is_soi s.now }
{
    if s.first() == Some(&SOI) {
        return 0;
    }
    let near = pass_blocks::<Soi, BLOCK>(pass_blocks::<Soi, WIDE>(s));
    s.len() - near.len() + first_soi(near)
}

// How many bytes at the start are neither SOI nor CR, counted in fours: none where the first four have one, as in noise full of them;
// else by blocks, by narrow ones, then four by four.
fn plain(s: &[u8]) -> usize
    ensures before { result ≤ position_or_len is_end s.now }
    ensures within { result ≤ length s.now }
{
    let Some((few, behind)) = s.split_first_chunk::<FEW>() else {
        return 0;
    };
    if End::is_in(few) {
        return 0;
    }
    let narrow = pass_blocks::<End, NARROW>(pass_blocks::<End, BLOCK>(behind));
    s.len() - pass_blocks::<End, FEW>(narrow).len()
}

// A refusal as an event.
fn refused(refusal: Refusal) -> Event
    ensures { paper result ≡ refused (number refusal) }
{
    Some(Err(Fault::from(refusal)))
}

// What is held, judged.
fn judged(held: &[u8]) -> Event
    ensures { paper result ≡ judge held.now }
{
    Some(frame::judge(held))
}

// Stores those of the first four bytes that stand before a SOI or a CR, and answers how many: each place gets its byte or what it has.
// So where the stretch ends is no branch, which would be mispredicted in noise.
fn store_few(store: &mut [u8], at: usize, s: &[u8]) -> usize
    requires { Room store.old at s.now }
    ensures { Stored store.old at s.now result store.new }
{
    let Some((few, _)) = s.split_first_chunk::<FEW>() else {
        return 0;
    };
    let mut k = 0;
    for (j, &x) in few.iter().enumerate() {
        let more = (k == j) & !is_end(x);
        store[at + j] = select_unpredictable(more, x, store[at + j]);
        k += usize::from(more);
    }
    k
}

// Stores bytes of a piece before its first SOI or CR from place count on, as many as may be or nearly so, and answers how many. In noise
// full of them nothing is scanned; there the branch costs less than to call for a copy of no bytes.
#[tactic(auto, using(buffer::proofs::Puts::puts_mid))]
fn store_plain(store: &mut [u8], count: usize, piece: &[u8]) -> usize
    requires { Fits (Receiver.Open count) store.old }
    ensures { Passed (Receiver.Open count) store.old piece.now result store.new }
{
    let most = (MOST - count).min(piece.len());
    let fitting = &piece[..most];
    let k = plain(fitting);
    if k == 0 {
        return store_few(store, count, fitting);
    }
    let next = count + k;
    store[count..next].copy_from_slice(&fitting[..k]);
    k + store_few(store, next, &fitting[k..])
}

impl Receiver {
    // A fresh receiver.
    pub fn new() -> Receiver
        ensures { result ≡ Receiver.Waiting }
    {
        Receiver::Waiting
    }

    // How many characters it holds.
    fn count(self) -> usize
        ensures { result ≡ count_of self }
    {
        match self {
            Receiver::Waiting => 0,
            Receiver::Open(count) => count,
        }
    }

    // Whether the count is above 4,110.
    pub fn is_beyond(self) -> bool
        ensures { result ≡ beyond self }
    {
        MOST < self.count()
    }

    // After k bytes that it only waits over, or only stores.
    fn moved(self, k: usize) -> Receiver
        requires { count_of (moved self k) ≤ 4110 }
        ensures { result ≡ moved self k }
    {
        match self {
            Receiver::Waiting => Receiver::Waiting,
            Receiver::Open(count) => Receiver::Open(count + k),
        }
    }

    // One byte, where the store is long enough and the count within it.
    #[tactic(auto, unfolding(crate::specs::Step::step, crate::specs::Step::step_by, crate::specs::Step::kind))]
    fn advance(self, store: &mut [u8], byte: u8) -> Stepped
        requires { Fits self store.old }
        ensures { Steps self store.old byte result store.new }
    {
        match (self, byte) {
            (Receiver::Waiting, SOI) => Stepped {
                next: Receiver::Open(0),
                event: None,
            },
            (Receiver::Waiting, _) => Stepped {
                next: Receiver::Waiting,
                event: None,
            },
            (Receiver::Open(_), SOI) => Stepped {
                next: Receiver::Open(0),
                event: refused(Refusal::SoiInside),
            },
            (Receiver::Open(count), CR) => Stepped {
                next: Receiver::Waiting,
                event: judged(&store[..count]),
            },
            (Receiver::Open(MOST), _) => Stepped {
                next: Receiver::Waiting,
                event: refused(Refusal::TooLong),
            },
            (Receiver::Open(count), _) => {
                store[count] = byte;
                Stepped {
                    next: Receiver::Open(count + 1),
                    event: None,
                }
            }
        }
    }

    // Passes bytes at the start of a piece that it only waits over, or only stores, and answers how many.
    fn pass(self, store: &mut [u8], piece: &[u8]) -> usize
        requires { Fits self store.old }
        ensures { Passed self store.old piece.now result store.new }
    {
        match self {
            Receiver::Waiting => find_soi(piece),
            Receiver::Open(count) => store_plain(store, count, piece),
        }
    }

    // A run, where the store is long enough and the count within it: passes what it can, steps over the byte behind that, and so on.
    fn run_within(self, store: &mut [u8], piece: &[u8]) -> Ran
        requires { Fits self store.old }
        ensures { Runs self store.old piece.now result store.new }
    {
        let mut now = self;
        let mut rest = piece;
        loop {
            let passed = now.pass(store, rest);
            let at = now.moved(passed);
            let Some((&byte, behind)) = rest[passed..].split_first() else {
                return Ran {
                    next: at,
                    event: None,
                    taken: piece.len(),
                    held: 0,
                };
            };
            let stepped = at.advance(store, byte);
            if stepped.event.is_some() {
                return Ran {
                    next: stepped.next,
                    event: stepped.event,
                    taken: piece.len() - behind.len(),
                    held: at.count(),
                };
            }
            now = stepped.next;
            rest = behind;
        }
    }

    // What a call is refused with: 32 for a store below 4,110 bytes, then 35 for a count above 4,110.
    fn refusal(self, store: &[u8]) -> Option<Refusal>
        ensures { result ≡ call_refusal self store.now }
    {
        if store.len() < MOST {
            return Some(Refusal::BufferTooShort);
        }
        if self.is_beyond() {
            return Some(Refusal::ReceiverBeyondStore);
        }
        None
    }

    // One byte: the next receiver and the event. 32 and 35 leave the receiver as it was.
    #[tactic(auto, unfolding(crate::specs::Step::step))]
    pub fn step(self, store: &mut [u8], byte: u8) -> Stepped
        ensures { Steps self store.old byte result store.new }
    {
        match self.refusal(store) {
            Some(refusal) => Stepped {
                next: self,
                event: refused(refusal),
            },
            None => self.advance(store, byte),
        }
    }

    // A piece of the stream, up to and including the byte that gives an event, or all of it: the same as stepping. 32 and 35 take no byte.
    #[tactic(auto, unfolding(crate::specs::Run::run))]
    pub fn run(self, store: &mut [u8], piece: &[u8]) -> Ran
        ensures { Runs self store.old piece.now result store.new }
    {
        match self.refusal(store) {
            Some(refusal) => Ran {
                next: self,
                event: refused(refusal),
                taken: 0,
                held: 0,
            },
            None => self.run_within(store, piece),
        }
    }
}
