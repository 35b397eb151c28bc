// The commands under CID1 46H, and what a stretch says: its judgement, its four bytes, LENID and the byte at INFO's first place.

#![tactic(auto)]

ghost use Rattle.std.specs.Prelude.{◌≡◌};
ghost use Rattle.command.specs.Command.{kind_of, form_of, with_command, plain_terms, terms_of};
ghost use Rattle.command.specs.Heard.{words, words_of};

use frame::{Fault, Frame, Header};

// What a CID2 asks for; the group forms of 42H and 44H are those with Command FFH.
#[derive(Clone, Copy)]
pub enum Kind {
    Analog,
    AnalogGroup,
    Alarm,
    AlarmGroup,
    Parameters,
    Protocol,
    Maker,
    Limits,
    Serial,
    TurnOff,
    Version,
    Unserved,
}

// What a command asks of its question: whether it is served, whether VER must be the table's, its LENID, whether it has a Command byte, and
// whether that may be FFH at the master. Each flag is a column of the table of commands by itself, and none says whether another field holds.
#[derive(Clone, Copy)]
pub struct Terms {
    pub served: bool,
    pub same_ver: bool,
    pub lenid: usize,
    pub has_command: bool,
    pub has_group: bool,
}

// What a stretch says: the judgement, and what stands at its places.
#[derive(Clone, Copy)]
pub struct Heard {
    pub judged: Result<Frame, Fault>,
    pub header: Header,
    pub lenid: usize,
    pub command: u8,
}

// The kind of a question, by its CID2 alone: the table of commands, row by row.
#[tactic(auto, unfolding(crate::specs::Command::kind_of))]
pub fn kind_of(cid2: u8) -> Kind
    ensures { result ≡ kind_of cid2 }
{
    match cid2 {
        0x42 => Kind::Analog,
        0x44 => Kind::Alarm,
        0x47 => Kind::Parameters,
        0x4F => Kind::Protocol,
        0x51 => Kind::Maker,
        0x92 => Kind::Limits,
        0x93 => Kind::Serial,
        0x95 => Kind::TurnOff,
        0x96 => Kind::Version,
        _ => Kind::Unserved,
    }
}

// The kind of a question, by its Command too.
#[tactic(auto, unfolding(crate::specs::Command::form_of))]
pub fn form_of(cid2: u8, command: u8) -> Kind
    ensures { result ≡ form_of cid2 command }
{
    match (cid2, command) {
        (0x42, 0xFF) => Kind::AnalogGroup,
        (0x44, 0xFF) => Kind::AlarmGroup,
        _ => kind_of(cid2),
    }
}

// A command with a Command byte.
fn with_command(group: bool) -> Terms
    ensures { result ≡ with_command group }
{
    Terms {
        served: true,
        same_ver: true,
        lenid: 2,
        has_command: true,
        has_group: group,
    }
}

// A command without one. It stands beside `with_command` as the definitions `with_command` and `plain_terms` do: in one function all five fields would be parameters.
fn plain(served: bool, same_ver: bool) -> Terms
    ensures { result ≡ plain_terms served same_ver }
{
    Terms {
        served,
        same_ver,
        lenid: 0,
        has_command: false,
        has_group: false,
    }
}

// What each kind asks of its question: the columns of the table of commands, row by row.
#[tactic(auto, unfolding(crate::specs::Command::terms_of))]
pub fn terms_of(kind: Kind) -> Terms
    ensures { result ≡ terms_of kind }
{
    match kind {
        Kind::Analog | Kind::AnalogGroup | Kind::Alarm | Kind::AlarmGroup => with_command(true),
        Kind::Limits | Kind::Serial | Kind::TurnOff | Kind::Version => with_command(false),
        Kind::Protocol => plain(true, false),
        Kind::Parameters | Kind::Maker => plain(true, true),
        Kind::Unserved => plain(false, true),
    }
}

// Judges a stretch, and reads its places where it is long enough to have them.
#[tactic(auto, unfolding(crate::specs::Heard::words, frame::specs::Judge::lenid))]
pub fn hear(stretch: &[u8]) -> Heard
    ensures { words_of result ≡ words stretch.now }
{
    let judged = frame::judge(stretch);
    if stretch.len() < 16 {
        return Heard {
            judged,
            header: Header {
                ver: 0,
                adr: 0,
                cid1: 0,
                cid2: 0,
            },
            lenid: 0,
            command: 0,
        };
    }
    let header = frame::header_of(stretch);
    Heard {
        judged,
        header,
        lenid: (hex_chars::word_at(stretch, 8) % 4096) as usize,
        command: hex_chars::byte_at(stretch, 12),
    }
}
