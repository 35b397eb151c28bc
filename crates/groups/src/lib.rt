// The group writer: INFO of 42H or 44H for Command FFH, with the records of the members that are on, in rising ADR.

#![tactic(auto)]

ghost use Rattle.std.specs.Prelude.{◌≡◌, true, ◌<◌, ◌≤◌, length};
ghost use Rattle.buffer.specs.Put.{Room, Put};
ghost use Rattle.buffer.specs.Writing.{Writes};
ghost use Rattle.table.specs.Table.{members};
ghost use Rattle.table.specs.Rule.{encodable, keeps};
ghost use Rattle.groups.specs.Groups.{group_writing};
ghost use Rattle.groups.specs.Texts.{part_text, text_on, text_of_all};

use record::Module;
use refusal::Refusal;
use table::Table;
use table::part::Part;
use table::rule::Ruled;

// How many bytes a member's record takes: none where it is off.
#[tactic(auto, unfolding(crate::specs::Texts::text_on))]
fn size_on<P: Part>(member: &Module) -> usize
    requires { encodable member.now ≡ true }
    ensures value { result ≡ length (text_on (part_text P.codec P.part) member.now) }
    ensures few { result < 2000 }
{
    if member.on == 1 {
        P::size(P::part_of(member))
    } else {
        0
    }
}

// How many bytes the records of all members take.
#[tactic(auto, using(crate::proofs::Texts::sizes))]
fn size_of_all<P: Part>(ruled: &Ruled<'_>) -> usize
    ensures value { result ≡ length (text_of_all (part_text P.codec P.part) (members ruled.now.table.now)) }
    ensures few { result ≤ 24000 }
{
    let members = ruled.table.members();
    let mut size = 0;
    for member in members {
        size += size_on::<P>(member);
    }
    size
}

// A member's record, or nothing where it is off.
#[tactic(auto, using(crate::proofs::Texts::puts_on), unfolding(crate::specs::Texts::text_on))]
fn put_on<P: Part>(out: &mut [u8], at: usize, member: &Module) -> usize
    requires ok { encodable member.now ≡ true }
    requires room { Room out.old at (text_on (part_text P.codec P.part) member.now) }
    ensures { Put out.old at (text_on (part_text P.codec P.part) member.now) out.new result }
{
    if member.on == 1 {
        P::put(out, at, P::part_of(member))
    } else {
        at
    }
}

// The records of all members.
#[tactic(auto, using(crate::proofs::Texts::puts))]
fn put_all_on<P: Part>(out: &mut [u8], at: usize, ruled: &Ruled<'_>) -> usize
    requires { Room out.old at (text_of_all (part_text P.codec P.part) (members ruled.now.table.now)) }
    ensures { Put out.old at (text_of_all (part_text P.codec P.part) (members ruled.now.table.now)) out.new result }
{
    let members = ruled.table.members();
    let mut next = at;
    for member in members {
        next = put_on::<P>(out, next, member);
    }
    next
}

// Flag, FFH, and the records of the members that are on: 31, then 32.
pub fn write_group<P: Part>(out: &mut [u8], flag: u8, table: Table) -> Result<usize, Refusal>
    ensures { Writes (group_writing P.codec P.some P.part (keeps table) flag (members table) out.old) result out.new }
{
    let ruled = Ruled::judge(&table)?;
    if out.len() < 2 + size_of_all::<P>(&ruled) {
        return Err(Refusal::BufferTooShort);
    }
    let at = buffer::put_all(out, 0, &[flag, 0xFF]);
    Ok(put_all_on::<P>(out, at, &ruled))
}
