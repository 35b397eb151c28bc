// What C sees of the library's answers: structs of the paper's numbers, 0 where there is none. Kinds and numbers have 32 bits, a length the
// width of a size. As numbers, and with a length beside, because they are the C interface: include/hanuzak.h has the same structs.

#![tactic(auto)]

ghost use Rattle.std.specs.Prelude.{◌≡◌};
ghost use Rattle.buffer.specs.Writing.{paper as paper_written};
ghost use Rattle.frame.specs.Judge.{paper as paper_judged};
ghost use Rattle.receiver.specs.Step.{paper as paper_event};
ghost use Rattle.standin.specs.Answer.{paper as paper_answered};
ghost use Rattle.reply.specs.Read.{paper as paper_reply};
ghost use Rattle.flat.specs.Flat.{written_of, event_of, flat_receiver, receiver_of, answered_of, reply_of};
ghost use Rattle.flat.specs.Listing.{flat_listing, listing_back};

use frame::{Fault, Frame};
use listing::{Listed, Listing};
use receiver::{Event, Ran, Receiver, Stepped};
use refusal::Refusal;
use reply::Reply;

// ---- a writer's answer: the refusal's number and 0, or 0 and how many bytes

#[repr(C)]
#[derive(Clone, Copy)]
pub struct FlatWritten {
    pub number: u32,
    pub length: usize,
}

impl From<Result<usize, Refusal>> for FlatWritten {
    ghost from_gives = { λ written flat. flat ≡ written_of (paper_written written) };

    fn from(written: Result<usize, Refusal>) -> FlatWritten {
        match written {
            Ok(length) => FlatWritten { number: 0, length },
            Err(refusal) => FlatWritten {
                number: u32::from(refusal.number()),
                length: 0,
            },
        }
    }
}

// ---- an event: kind 0 nothing, 1 a frame with its four bytes and LENID, 2 refused, with 4 and 9 the place of the first character that
// isn't hex

#[repr(C)]
#[derive(Clone, Copy, Default)]
pub struct FlatEvent {
    pub kind: u32,
    pub number: u32,
    pub ver: u8,
    pub adr: u8,
    pub cid1: u8,
    pub cid2: u8,
    pub place: u32,
    pub lenid: usize,
}

impl From<Result<Frame, Fault>> for FlatEvent {
    ghost from_gives = { λ judged flat. flat ≡ event_of (paper_judged judged) };

    fn from(judged: Result<Frame, Fault>) -> FlatEvent {
        match judged {
            Ok(frame) => FlatEvent {
                kind: 1,
                ver: frame.header.ver,
                adr: frame.header.adr,
                cid1: frame.header.cid1,
                cid2: frame.header.cid2,
                lenid: frame.lenid,
                ..FlatEvent::default()
            },
            Err(fault) => FlatEvent {
                kind: 2,
                number: u32::from(fault.refusal.number()),
                place: fault.place.unwrap_or(0),
                ..FlatEvent::default()
            },
        }
    }
}

impl From<Event> for FlatEvent {
    ghost from_gives = { λ event flat. flat ≡ event_of (paper_event event) };

    fn from(event: Event) -> FlatEvent {
        event.map(FlatEvent::from).unwrap_or_default()
    }
}

// ---- a receiver: open 0 is waiting, whatever the count; any other is open

#[repr(C)]
#[derive(Clone, Copy)]
pub struct FlatReceiver {
    pub open: usize,
    pub count: usize,
}

impl From<Receiver> for FlatReceiver {
    ghost from_gives = { λ receiver flat. flat ≡ flat_receiver receiver };

    fn from(receiver: Receiver) -> FlatReceiver {
        match receiver {
            Receiver::Waiting => FlatReceiver { open: 0, count: 0 },
            Receiver::Open(count) => FlatReceiver { open: 1, count },
        }
    }
}

impl From<FlatReceiver> for Receiver {
    ghost from_gives = { λ flat receiver. receiver ≡ receiver_of flat };

    fn from(flat: FlatReceiver) -> Receiver {
        if flat.open == 0 {
            Receiver::Waiting
        } else {
            Receiver::Open(flat.count)
        }
    }
}

// ---- a step and a run of it

#[repr(C)]
#[derive(Clone, Copy)]
pub struct FlatStepped {
    pub next: FlatReceiver,
    pub event: FlatEvent,
}

impl From<Stepped> for FlatStepped {
    ghost from_gives = { λ stepped flat. flat ≡ record { next = flat_receiver stepped.next; event = event_of (paper_event stepped.event) } };

    fn from(stepped: Stepped) -> FlatStepped {
        FlatStepped {
            next: stepped.next.into(),
            event: stepped.event.into(),
        }
    }
}

#[repr(C)]
#[derive(Clone, Copy)]
pub struct FlatRan {
    pub next: FlatReceiver,
    pub event: FlatEvent,
    pub taken: usize,
    pub held: usize,
}

impl From<Ran> for FlatRan {
    ghost from_gives = { λ ran flat. flat ≡ record { next = flat_receiver ran.next; event = event_of (paper_event ran.event); taken = ran.taken; held = ran.held } };

    fn from(ran: Ran) -> FlatRan {
        FlatRan {
            next: ran.next.into(),
            event: ran.event.into(),
            taken: ran.taken,
            held: ran.held,
        }
    }
}

// ---- the stand-in's answer: kind 0 silence, 1 a reply of so many bytes, 2 refused

#[repr(C)]
#[derive(Clone, Copy, Default)]
pub struct FlatAnswered {
    pub kind: u32,
    pub number: u32,
    pub length: usize,
}

impl From<Result<Option<usize>, Refusal>> for FlatAnswered {
    ghost from_gives = { λ answered flat. flat ≡ answered_of (paper_answered answered) };

    fn from(answered: Result<Option<usize>, Refusal>) -> FlatAnswered {
        match answered {
            Ok(None) => FlatAnswered::default(),
            Ok(Some(length)) => FlatAnswered {
                kind: 1,
                length,
                ..FlatAnswered::default()
            },
            Err(refusal) => FlatAnswered {
                kind: 2,
                number: u32::from(refusal.number()),
                ..FlatAnswered::default()
            },
        }
    }
}

// ---- a reading: kind 1 read, 2 refused, with 4 and 9 the place of the first character that isn't hex; the 32 bytes of 51H are zeros for
// every other command and with a refusal

#[repr(C)]
#[derive(Clone, Copy, Default)]
pub struct FlatReply {
    pub kind: u32,
    pub number: u32,
    pub ver: u8,
    pub code: u8,
    pub flag: u8,
    pub maker: [u8; 32],
    pub place: u32,
}

// No `From`: it is made of two values, and a `Reading`, which has both, would bring its table along.
pub fn reply(outcome: Result<Reply, Fault>, maker: [u8; 32]) -> FlatReply
    ensures { result ≡ reply_of (paper_reply outcome) maker }
{
    match outcome {
        Ok(reply) => FlatReply {
            kind: 1,
            ver: reply.ver,
            code: reply.code,
            flag: reply.flag,
            maker,
            ..FlatReply::default()
        },
        Err(fault) => FlatReply {
            kind: 2,
            number: u32::from(fault.refusal.number()),
            maker,
            place: fault.place.unwrap_or(0),
            ..FlatReply::default()
        },
    }
}

// ---- a listing: its receiver, the offset of the next byte, and the totals so far

#[repr(C)]
#[derive(Clone, Copy)]
pub struct FlatListing {
    pub receiver: FlatReceiver,
    pub offset: u32,
    pub frames: u32,
    pub refusals: u32,
}

impl From<Listing> for FlatListing {
    ghost from_gives = { λ listing flat. flat ≡ flat_listing listing };

    fn from(listing: Listing) -> FlatListing {
        FlatListing {
            receiver: listing.receiver.into(),
            offset: listing.offset,
            frames: listing.frames,
            refusals: listing.refusals,
        }
    }
}

impl From<FlatListing> for Listing {
    ghost from_gives = { λ flat listing. listing ≡ listing_back flat };

    fn from(flat: FlatListing) -> Listing {
        Listing {
            receiver: flat.receiver.into(),
            offset: flat.offset,
            frames: flat.frames,
            refusals: flat.refusals,
        }
    }
}

#[repr(C)]
#[derive(Clone, Copy)]
pub struct FlatListed {
    pub next: FlatListing,
    pub taken: usize,
    pub written: FlatWritten,
}

impl From<Listed> for FlatListed {
    ghost from_gives = { λ listed flat. flat ≡ record { next = flat_listing listed.next; taken = listed.taken; written = written_of (paper_written listed.written) } };

    fn from(listed: Listed) -> FlatListed {
        FlatListed {
            next: listed.next.into(),
            taken: listed.taken,
            written: listed.written.into(),
        }
    }
}
