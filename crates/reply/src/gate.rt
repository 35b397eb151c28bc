// The gate before a reply's INFO: whether the question can be asked, and whether the stretch answers it.

ghost use Rattle.std.specs.Prelude.{◌≡◌};
ghost use Rattle.table.specs.Table.{members};
ghost use Rattle.command.specs.Heard.{words_of};
ghost use Rattle.reply.specs.Gate.{is_return_code, asks, frame_gate, gate, frame_paper, paper};

use command::Heard;
use frame::Fault;
use refusal::{Refusal, need};
use table::Table;

// What was asked; Command is ignored with 47H, 4FH and 51H.
#[repr(C)]
#[derive(Clone, Copy)]
pub struct Question {
    pub adr: u8,
    pub cid2: u8,
    pub command: u8,
}

// Whether a byte is a return code of the paper.
#[tactic(auto, unfolding(crate::specs::Gate::is_return_code))]
fn is_return_code(code: u8) -> bool
    ensures { result ≡ is_return_code code }
{
    matches!(code, 0x00..=0x06 | 0x90 | 0x91)
}

// Whether a question can be asked: a served command, with ADR as its Command or FFH at the master with 42H or 44H.
#[tactic(auto, unfolding(crate::specs::Gate::asks))]
fn is_asked(question: Question) -> bool
    ensures { result ≡ asks question }
{
    let terms = command::terms_of(command::kind_of(question.cid2));
    terms.served
        && (!terms.has_command
            || question.command == question.adr
            || (question.command == 0xFF && terms.has_group && table::is_master(question.adr)))
}

// Of a frame: 11, 12, 13, 14.
#[tactic(auto, unfolding(crate::specs::Gate::frame_gate))]
fn gate_frame(question: Question, heard: Heard) -> Result<(), Refusal>
    ensures { frame_paper result ≡ frame_gate question (words_of heard) }
{
    let header = heard.header;
    let code = header.cid2;
    need(header.adr == question.adr, Refusal::AdrDiffers)?;
    need(header.cid1 == 0x46, Refusal::Cid1Differs)?;
    need(is_return_code(code), Refusal::CodeUnknown)?;
    need(code == 0 || heard.lenid == 0, Refusal::InfoBesideCode)
}

// 34, 23, then what the judge refuses, then 11 to 14.
#[tactic(auto, unfolding(crate::specs::Gate::gate))]
pub fn gate(table: Table, question: Question, heard: Heard) -> Result<(), Fault>
    ensures { paper result ≡ gate (members table) question (words_of heard) }
{
    need(is_asked(question), Refusal::NotServed)?;
    need(
        table::has_member(table, question.adr),
        Refusal::AdrNotInTable,
    )?;
    heard.judged?;
    Ok(gate_frame(question, heard)?)
}
