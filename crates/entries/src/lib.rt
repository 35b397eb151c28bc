// The entries under the interface, over the table by value.

#![tactic(auto)]

ghost use Rattle.std.specs.Prelude.{◌≡◌, cond, List, ℕ, Ok, Err};
ghost use Rattle.table.specs.Table.{members};
ghost use Rattle.table.specs.Rule.{keeps};
ghost use Rattle.groups.specs.Groups.{group_writing};
ghost use Rattle.standin.specs.Answer.{answer};
ghost use Rattle.reply.specs.Read.{read_reply, paper as paper_reply};
ghost use Rattle.flat.specs.Flat.{FlatWrites, reply_of};
ghost use Rattle.entries.specs.Entries.{Serves, carries_records, stored_of, ReadsFlat};

use flat::{FlatAnswered, FlatReply, FlatWritten};
use frame::Fault;
use refusal::Refusal;
use reply::Reply;
use reply::gate::Question;
use table::part::Part;
use table::rule::Ruled;
use table::{Station, Table};

// 31 for a table that breaks its rule.
pub fn check_rule(given: Table) -> Result<(), Refusal>
    ensures { result ≡ cond (keeps given) (Ok tt) (Err Refusal.TableBreaksRule) }
{
    Ruled::judge(&given)?;
    Ok(())
}

// INFO for Command FFH: 31, then 32.
pub fn group<P: Part>(out: &mut [u8], flag: u8, given: Table) -> FlatWritten
    ensures { FlatWrites (group_writing P.codec P.some P.part (keeps given) flag (members given) out.old) result out.new }
{
    groups::write_group::<P>(out, flag, given).into()
}

// What the stand-in answers, and the place of the record that goes off: the count, past every record, where none does.
#[derive(Clone, Copy)]
pub struct Served {
    pub answered: FlatAnswered,
    pub off: usize,
}

// The answer of the stand-in to a stretch.
pub fn serve(station: Station, given: Table, stretch: &[u8], out: &mut [u8]) -> Served
    ensures { Serves (answer (keeps given) given.count station (members given) stretch.now out.old) result out.new }
{
    let replied = standin::answer(station, given, stretch, out);
    Served {
        answered: replied.answered.into(),
        off: replied.off,
    }
}

// What the reply reader tells, how many records of the lent table are to be stored, and the table then.
#[derive(Clone, Copy)]
pub struct ReadReply {
    pub reply: FlatReply,
    pub stored: usize,
    pub table: Table,
}

// Whether a command's reply carries records.
#[tactic(auto, unfolding(crate::specs::Entries::carries_records))]
fn carries_records(cid2: u8) -> bool
    ensures { result ≡ carries_records cid2 }
{
    matches!(cid2, 0x42 | 0x44 | 0x47 | 0x92 | 0x93 | 0x96)
}

// How many records are to be stored. None where none changes: a record that is stored again has the same values, but the bytes between its
// fields need not be the same, and a refusal changes no lent byte.
fn to_store(count: usize, cid2: u8, outcome: Result<Reply, Fault>) -> usize
    ensures { (maker : List ℕ) → result ≡ stored_of count cid2 (reply_of (paper_reply outcome) maker) }
{
    let read = outcome.is_ok_and(|reply| reply.code == 0);
    if read && carries_records(cid2) {
        count
    } else {
        0
    }
}

// Reads the reply to a question from a stretch.
pub fn read_flat(given: Table, question: Question, stretch: &[u8]) -> ReadReply
    ensures { ReadsFlat (read_reply (keeps given) (members given) question stretch.now) question.cid2 given result }
{
    let done = reply::read(given, question, stretch);
    ReadReply {
        reply: flat::reply(done.outcome, done.maker),
        stored: to_store(given.count, question.cid2, done.outcome),
        table: done.table,
    }
}
