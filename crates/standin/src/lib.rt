// The stand-in: its answer to a stretch, over the table by value.

#![tactic(auto)]

mod says;

ghost use Rattle.std.specs.Prelude.{◌≡◌, true, ◌≤◌, length};
ghost use Rattle.buffer.specs.Writing.{Writes};
ghost use Rattle.frame.specs.Frame.{encode};
ghost use Rattle.table.specs.Table.{is_on, member_at, members};
ghost use Rattle.table.specs.Rule.{keeps};
ghost use Rattle.command.specs.Heard.{words_of};
ghost use Rattle.standin.specs.Says.{decide};
ghost use Rattle.standin.specs.Steps.{filled};
ghost use Rattle.standin.specs.Answer.{info_by, info_for, reply_header, off_for, says, answer, Answers};

use alarm::AlarmInformation;
use analog::AnalogValues;
use command::{Heard, Kind};
use fixed::{FirmwareVersion, ManagementLimits, SerialNumber, SystemParameters};
use frame::Header;
use groups::write_group;
use parts::write::{write_flag_alone, write_flagged, write_unflagged};
use refusal::Refusal;
use table::rule::Ruled;
use table::{Station, Table};

// What the stand-in does: silence, a reply of so many bytes, or a refusal; and the place of the record that goes off.
// `off` stays a place, the table's count where none goes off: `off_for` and `off_at` of specs/Answer, and the theorems over them, name it so.
#[derive(Clone, Copy)]
pub struct Replied {
    pub answered: Result<Option<usize>, Refusal>,
    pub off: usize,
}

// Writes the data of a command, for a member that is on. The match over the kind stays: each kind's INFO has another type.
#[tactic(auto, using(crate::proofs::Filled::fills))]
fn fill(
    info: &mut [u8],
    station: Station,
    ruled: &Ruled<'_>,
    kind: Kind,
    adr: u8,
) -> Result<usize, Refusal>
    requires on { is_on (member_at adr (members ruled.now.table.now)) ≡ true }
    requires room { 816 ≤ length info.old }
    ensures { Writes (filled (info_by kind station (members ruled.now.table.now) adr) info.old) result info.new }
{
    let table = *ruled.table;
    let member = table::member_at(table, adr);
    match kind {
        Kind::Analog => write_flagged::<AnalogValues>(info, 0, adr, member.analog),
        Kind::AnalogGroup => write_group::<AnalogValues>(info, 0, table),
        Kind::Alarm => write_flagged::<AlarmInformation>(info, 0, adr, member.alarm),
        Kind::AlarmGroup => write_group::<AlarmInformation>(info, 0, table),
        Kind::Parameters => write_flag_alone::<SystemParameters>(info, 0, adr, member.parameters),
        Kind::Maker => Ok(buffer::put_all(info, 0, &station.maker)),
        Kind::Limits => write_unflagged::<ManagementLimits>(info, adr, member.limits),
        Kind::Serial => write_unflagged::<SerialNumber>(info, adr, member.serial),
        Kind::Version => write_unflagged::<FirmwareVersion>(info, adr, member.version),
        Kind::Protocol | Kind::TurnOff | Kind::Unserved => Ok(0),
    }
}

// Writes a reply: with 00H the data of the command, with any other code no INFO.
#[tactic(auto, using(crate::proofs::Replies::replies))]
fn write_reply(
    station: Station,
    ruled: &Ruled<'_>,
    heard: Heard,
    code: u8,
    out: &mut [u8],
) -> Result<usize, Refusal>
    requires on { is_on (member_at heard.header.adr (members ruled.now.table.now)) ≡ true }
    requires room { 4112 ≤ length out.old }
    ensures { Writes (filled (encode (reply_header station (words_of heard) code) (info_for station (members ruled.now.table.now) (words_of heard) code)) out.old) result out.new }
{
    let asked = heard.header;
    let header = Header {
        ver: station.ver,
        adr: asked.adr,
        cid1: 0x46,
        cid2: code,
    };
    if code != 0 {
        return frame::write(header, &[], out);
    }
    let kind = command::form_of(asked.cid2, heard.command);
    let mut info = [0u8; 816];
    let length = fill(&mut info, station, ruled, kind, asked.adr)?;
    frame::write(header, &info[..length], out)
}

// The place of the record that goes off, the table's count where none does (see `Replied`), where a member that is on was asked: only an accepted
// 95H changes the table.
#[tactic(auto, using(crate::proofs::Members::places), unfolding(crate::specs::Answer::off_for))]
fn goes_off(table: Table, heard: Heard, code: u8) -> usize
    requires { is_on (member_at heard.header.adr (members table)) ≡ true }
    ensures { result ≡ off_for table.count (members table) (words_of heard) code }
{
    let asked = heard.header;
    if code == 0 && asked.cid2 == 0x95 {
        return table::place_of(table, asked.adr).unwrap_or(table.count);
    }
    table.count
}

// Silence or a reply, where neither the buffer nor the table is refused.
#[tactic(auto, using(crate::proofs::Replies::said), unfolding(crate::specs::Answer::says))]
fn speak(station: Station, ruled: &Ruled<'_>, heard: Heard, out: &mut [u8]) -> Replied
    requires room { 4112 ≤ length out.old }
    ensures { Answers (says ruled.now.table.now.count station (members ruled.now.table.now) (words_of heard) (decide station (members ruled.now.table.now) (words_of heard)) out.old) result out.new }
{
    let table = *ruled.table;
    match crate::says::decide(station, table, heard) {
        None => Replied {
            answered: Ok(None),
            off: table.count,
        },
        Some(code) => Replied {
            answered: write_reply(station, ruled, heard, code, out).map(Some),
            off: goes_off(table, heard, code),
        },
    }
}

// The answer to a stretch, the bytes between SOI and CR: 32 for a buffer below 4,112 bytes, 31, then silence or a reply.
#[tactic(auto, unfolding(crate::specs::Answer::answer))]
pub fn answer(station: Station, table: Table, stretch: &[u8], out: &mut [u8]) -> Replied
    ensures { Answers (answer (keeps table) table.count station (members table) stretch.now out.old) result out.new }
{
    if out.len() < 4112 {
        return Replied {
            answered: Err(Refusal::BufferTooShort),
            off: table.count,
        };
    }
    match Ruled::judge(&table) {
        Ok(ruled) => speak(station, &ruled, command::hear(stretch), out),
        Err(refusal) => Replied {
            answered: Err(refusal),
            off: table.count,
        },
    }
}
