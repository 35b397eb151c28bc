// The reply reader: what a stretch that answers a question says of the table's records.

#![tactic(auto)]

pub mod gate;

ghost use Rattle.std.specs.Prelude.{◌≡◌, ◌<◌, length, T};
ghost use Rattle.hex_chars.specs.Hex.{unhexes};
ghost use Rattle.codec.specs.Codec.{byte};
ghost use Rattle.codec.specs.Both.{◌then◌};
ghost use Rattle.codec.specs.Whole.{ended, lead, mapped};
ghost use Rattle.codec.specs.Many.{many};
ghost use Rattle.frame.specs.Frame.{info_at};
ghost use Rattle.record.specs.Infos.{command};
ghost use Rattle.command.specs.Heard.{words_of, words};
ghost use Rattle.reply.specs.Gate.{passed, gate};
ghost use Rattle.record.specs.Nothing.{no_maker};
ghost use Rattle.table.specs.Table.{members};
ghost use Rattle.table.specs.Rule.{keeps};
ghost use Rattle.table.specs.Changes.{replaced};
ghost use Rattle.reply.specs.Read.{by_code, for_all, given, read_reply, took, took_nothing, Reads};
ghost use Rattle.reply.specs.Done.{taken_left, done_left, KeptBy};

use crate::gate::Question;
use alarm::AlarmInformation;
use analog::AnalogValues;
use command::{Heard, Kind};
use fixed::{FirmwareVersion, MakerText, ManagementLimits, SerialNumber, SystemParameters};
use frame::Fault;
use parts::group::take_group;
use parts::read::{take_bare, take_flag_alone, take_flagged, take_nothing, take_unflagged};
use refusal::{Refusal, need};
use table::Table;
use table::changes::{deal, replace};
use table::part::Part;
use table::rule::Ruled;

// What a reply says beside its records: VER, code and flag.
#[derive(Clone, Copy)]
pub struct Reply {
    pub ver: u8,
    pub code: u8,
    pub flag: u8,
}

// How a reading went, the 32 bytes of 51H (zeros for every other command), and the table then.
#[derive(Clone, Copy)]
pub struct Reading {
    pub outcome: Result<Reply, Fault>,
    pub maker: [u8; 32],
    pub table: Table,
}

// A reply that was read, the 32 bytes of 51H, and the table then.
#[derive(Clone, Copy)]
struct Done {
    reply: Reply,
    maker: [u8; 32],
    table: Table,
}

// A reply with 00H and no bytes of 51H.
fn was_read(table: Table, ver: u8, flag: u8) -> Done
    ensures { result ≡ record { reply = record { ver = ver; code = 0; flag = flag }; maker = no_maker; table = table } }
{
    Done {
        reply: Reply { ver, code: 0, flag },
        maker: [0; 32],
        table,
    }
}

// The clause `kept` of these readers speaks of the parameter `table`, so no type of the answer can hold it.

// 42H and 44H of one module: flag, Command and one part of the asked record.
fn read_flagged<P: Part>(table: Table, adr: u8, ver: u8, info: &[u8]) -> Result<Done, Refusal>
    ensures is { taken_left table result ≡ given ver (members table) (mapped ((lead (byte then command adr) (λ x. ended P.codec)).get (unhexes info.now)) (λ x. (x.0.0, (no_maker, replaced adr (P.with x.1) (members table))))) }
    ensures kept { KeptBy table result }
{
    let (flag, value) = take_flagged::<P>(info, adr)?;
    Ok(was_read(replace::<P>(table, adr, value), ver, flag))
}

// 92H, 93H and 96H: Command and one part of the asked record.
fn read_unflagged<P: Part>(table: Table, adr: u8, ver: u8, info: &[u8]) -> Result<Done, Refusal>
    ensures is { taken_left table result ≡ given ver (members table) (mapped ((lead (command adr) (λ x. ended P.codec)).get (unhexes info.now)) (λ x. (0, (no_maker, replaced adr (P.with x.1) (members table))))) }
    ensures kept { KeptBy table result }
{
    let value = take_unflagged::<P>(info, adr)?;
    Ok(was_read(replace::<P>(table, adr, value), ver, 0))
}

// 47H: a flag and one part of the asked record.
fn read_flag_alone<P: Part>(table: Table, adr: u8, ver: u8, info: &[u8]) -> Result<Done, Refusal>
    ensures is { taken_left table result ≡ given ver (members table) (mapped ((lead byte (λ x. ended P.codec)).get (unhexes info.now)) (λ x. (x.0, (no_maker, replaced adr (P.with x.1) (members table))))) }
    ensures kept { KeptBy table result }
{
    let (flag, value) = take_flag_alone::<P>(info)?;
    Ok(was_read(replace::<P>(table, adr, value), ver, flag))
}

// 42H and 44H of the group: one part of each member that is on, all or none. Twelve places are lent for them.
fn read_group<P: Part>(
    table: Table,
    none: P::Value,
    places: &mut [P::Value],
    ver: u8,
    info: &[u8],
) -> Result<Done, Refusal>
    requires { length places.old ≡ 12 }
    ensures is { taken_left table result ≡ given ver (members table) (for_all P.with (members table) ((lead (byte then command 0xFF) (λ x. many P.codec P.some 12)).get (unhexes info.now))) }
    ensures kept { KeptBy table result }
{
    let (flag, count) = take_group::<P>(info, none, places)?;
    need(count == table::count_on(table), Refusal::RecordsDiffer)?;
    Ok(was_read(deal::<P>(table, &places[..count]), ver, flag))
}

// 4FH and 95H carry nothing.
fn read_nothing(table: Table, ver: u8, info: &[u8]) -> Result<Done, Refusal>
    ensures is { taken_left table result ≡ given ver (members table) (took_nothing (members table) (unhexes info.now)) }
    ensures kept { KeptBy table result }
{
    take_nothing(info)?;
    Ok(was_read(table, ver, 0))
}

// 51H: its 32 bytes.
#[tactic(auto, unfolding(crate::specs::Read::took, record::specs::Infos::maker_info))]
fn read_maker(table: Table, adr: u8, ver: u8, info: &[u8]) -> Result<Done, Refusal>
    ensures is { taken_left table result ≡ given ver (members table) (took Kind.Maker (members table) adr (unhexes info.now)) }
    ensures kept { KeptBy table result }
{
    let maker = take_bare::<MakerText>(info)?;
    let read = was_read(table, ver, 0);
    Ok(Done { maker, ..read })
}

// The data of a reply with code 00H. A match over the kind, since each INFO has another type.
#[tactic(auto, unfolding(crate::specs::Read::took, record::specs::Infos::analog_info, record::specs::Infos::alarm_info, record::specs::Infos::parameters_info, record::specs::Infos::limits_info, record::specs::Infos::serial_info, record::specs::Infos::version_info, record::specs::Infos::analog_group, record::specs::Infos::alarm_group))]
fn read_data(table: Table, kind: Kind, adr: u8, ver: u8, info: &[u8]) -> Result<Done, Refusal>
    ensures is { taken_left table result ≡ given ver (members table) (took kind (members table) adr (unhexes info.now)) }
    ensures kept { KeptBy table result }
{
    match kind {
        Kind::Analog => read_flagged::<AnalogValues>(table, adr, ver, info),
        Kind::AnalogGroup => {
            let none = record::zero_analog();
            read_group::<AnalogValues>(table, none, &mut [none; 12], ver, info)
        }
        Kind::Alarm => read_flagged::<AlarmInformation>(table, adr, ver, info),
        Kind::AlarmGroup => {
            let none = record::zero_alarm();
            read_group::<AlarmInformation>(table, none, &mut [none; 12], ver, info)
        }
        Kind::Parameters => read_flag_alone::<SystemParameters>(table, adr, ver, info),
        Kind::Protocol | Kind::TurnOff => read_nothing(table, ver, info),
        Kind::Maker => read_maker(table, adr, ver, info),
        Kind::Limits => read_unflagged::<ManagementLimits>(table, adr, ver, info),
        Kind::Serial => read_unflagged::<SerialNumber>(table, adr, ver, info),
        Kind::Version => read_unflagged::<FirmwareVersion>(table, adr, ver, info),
        Kind::Unserved => Err(Refusal::NotServed),
    }
}

// A stretch that may be read: with a code other than 00H only what its header says.
#[tactic(auto, using(crate::proofs::Ways::info_there))]
fn read_open(
    table: Table,
    question: Question,
    heard: Heard,
    stretch: &[u8],
) -> Result<Done, Refusal>
    requires heard { words_of heard ≡ words stretch.now }
    requires passes { gate (members table) question (words_of heard) ≡ passed }
    ensures is { taken_left table result ≡ by_code (members table) question (words_of heard) (unhexes (info_at heard.lenid stretch.now)) }
    ensures kept { KeptBy table result }
{
    let header = heard.header;
    if header.cid2 != 0 {
        let mut read = was_read(table, header.ver, 0);
        read.reply.code = header.cid2;
        return Ok(read);
    }
    let end = 12 + heard.lenid;
    let kind = command::form_of(question.cid2, question.command);
    read_data(table, kind, question.adr, header.ver, &stretch[12..end])
}

// 31, the gate, and what is read behind it.
#[tactic(auto, unfolding(crate::specs::Read::read_reply))]
fn read_passed(table: Table, question: Question, stretch: &[u8]) -> Result<Done, Fault>
    ensures is { done_left table result ≡ read_reply (keeps table) (members table) question stretch.now }
    ensures kept { KeptBy table result }
{
    Ruled::judge(&table)?;
    let heard = command::hear(stretch);
    crate::gate::gate(table, question, heard)?;
    Ok(read_open(table, question, heard, stretch)?)
}

// Reads a reply, the bytes between SOI and CR, to a question: 31, 34, 23, 1 and 3 to 9, 11 to 14, then its INFO. A refusal changes no record.
pub fn read(table: Table, question: Question, stretch: &[u8]) -> Reading
    ensures { Reads (read_reply (keeps table) (members table) question stretch.now) table result }
{
    match read_passed(table, question, stretch) {
        Ok(done) => {
            let maker = done.maker;
            let after = done.table;
            Reading {
                outcome: Ok(done.reply),
                maker,
                table: after,
            }
        }
        Err(fault) => Reading {
            outcome: Err(fault),
            maker: [0; 32],
            table,
        },
    }
}
