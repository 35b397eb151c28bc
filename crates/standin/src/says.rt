// What the stand-in says to a stretch: silence, or the return code of the first of the eleven steps that applies.

ghost use Rattle.std.specs.Prelude.{◌≡◌, true};
ghost use Rattle.refusal.specs.Number.{number};
ghost use Rattle.frame.specs.Judge.{paper as paper_judged};
ghost use Rattle.table.specs.Table.{members};
ghost use Rattle.command.specs.Heard.{number_of, words_of};
ghost use Rattle.standin.specs.Says.{paper, decide};
ghost use Rattle.standin.specs.Steps.{by_number, by_header, by_command};

use command::{Heard, Terms};
use frame::{Fault, Frame, Header};
use refusal::Refusal;
use table::{Station, Table};

// What the judge's refusal calls for, where the member is on: silence for a stretch that is too long, too short or not all hex, then steps 1 to 3;
// `rest` where none of them applies.
fn by_refusal(refusal: Refusal, rest: Option<u8>) -> Option<u8>
    ensures { paper result ≡ by_number (number refusal) true (paper rest) }
{
    match refusal {
        Refusal::TooLong | Refusal::TooShort | Refusal::LowerCase | Refusal::NoHexDigit => None,
        Refusal::LchksumDiffers => Some(0x03),
        Refusal::LenidOdd | Refusal::CountDiffers => Some(0x05),
        Refusal::ChksumDiffers => Some(0x02),
        _ => rest,
    }
}

// The silences, then steps 1 to 3; `rest` where none of them applies.
#[tactic(auto, using(command::proofs::Numbers::numbers))]
fn by_judgement(judged: Result<Frame, Fault>, on: bool, rest: Option<u8>) -> Option<u8>
    ensures { paper result ≡ by_number (number_of (paper_judged judged)) on (paper rest) }
{
    if !on {
        return None;
    }
    match judged {
        Ok(_) => rest,
        Err(fault) => by_refusal(fault.refusal, rest),
    }
}

// Steps 4 to 7, then 00H for a command without a Command byte; `rest` where none of them applies.
fn by_header(ver: u8, terms: Terms, header: Header, lenid: usize, rest: Option<u8>) -> Option<u8>
    ensures { paper result ≡ by_header ver terms header lenid (paper rest) }
{
    if header.cid1 != 0x46 {
        return Some(0x05);
    }
    if !terms.served {
        return Some(0x04);
    }
    if terms.same_ver && header.ver != ver {
        return Some(0x01);
    }
    if lenid != terms.lenid {
        return Some(0x05);
    }
    if !terms.has_command {
        return Some(0x00);
    }
    rest
}

// Steps 8 to 11.
fn by_command(group: bool, may: bool, own: bool, fault: bool) -> Option<u8>
    ensures { paper result ≡ by_command group may own fault }
{
    if group && !may {
        return Some(0x06);
    }
    if !group && !own {
        return Some(0x90);
    }
    if fault {
        return Some(0x91);
    }
    Some(0x00)
}

// The silences, then the first of the eleven steps that applies: each part is given what is said where none of its steps does.
#[tactic(auto, unfolding(crate::specs::Says::decide))]
pub fn decide(station: Station, table: Table, heard: Heard) -> Option<u8>
    ensures { paper result ≡ decide station (members table) (words_of heard) }
{
    let header = heard.header;
    let adr = header.adr;
    let member = table::member_at(table, adr);
    let terms = command::terms_of(command::kind_of(header.cid2));
    let group = heard.command == 0xFF;
    let may = terms.has_group && table::is_master(adr);
    let fault = if group {
        table::any_fault(table)
    } else {
        member.link_fault == 1
    };
    let last = by_command(group, may, heard.command == adr, fault);
    let next = by_header(station.ver, terms, header, heard.lenid, last);
    by_judgement(heard.judged, member.on == 1, next)
}
