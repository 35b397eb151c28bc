// The table by value: one to twelve module records in rising ADR, and what is asked of it.

#![tactic(auto)]

pub mod changes;
pub mod part;
pub mod rule;

ghost use Rattle.std.specs.Prelude.{◌≡◌, ◌<◌, ◌≤◌, length, IfSome};
ghost use Rattle.table.specs.Table.{blank, new_module, members, place_found, has_member, member_at, any_fault, count_on, is_master};

use record::Module;

// The records that are there are the first `count`: twelve places, since the project keeps nothing on a heap.
#[derive(Clone, Copy)]
pub struct Table {
    pub count: usize,
    pub modules: [Module; 12],
}

// What the table holds beside its records: VER, and the 32 bytes of 51H.
#[repr(C)]
#[derive(Clone, Copy)]
pub struct Station {
    pub ver: u8,
    pub maker: [u8; 32],
}

// A record that is off, with 0 in every place.
pub fn blank_module() -> Module
    ensures { result ≡ blank }
{
    Module {
        adr: 0,
        on: 0,
        link_fault: 0,
        analog: record::zero_analog(),
        alarm: record::zero_alarm(),
        limits: record::zero_limits(),
        serial: [0; 16],
        version: [0; 5],
        parameters: record::zero_parameters(),
    }
}

// A record that can be sent before anything was read into it: on, with one cell, one temperature and 0 in every other place.
pub fn new_module(adr: u8) -> Module
    ensures { result ≡ new_module adr }
{
    let mut analog = record::zero_analog();
    analog.cell_count = 1;
    analog.temperature_count = 1;
    let mut alarm = record::zero_alarm();
    alarm.cell_count = 1;
    alarm.temperature_count = 1;
    Module {
        adr,
        on: 1,
        analog,
        alarm,
        ..blank_module()
    }
}

impl Table {
    // The records that are there; a count above twelve has twelve.
    #[tactic(auto, using(std::proofs::lemmas::List::take_min), unfolding(crate::specs::Table::members))]
    pub fn members(&self) -> &[Module]
        ensures value { result.now ≡ members self.now }
        ensures few { length result.now ≤ 12 }
    {
        let all = self.modules.as_slice();
        &all[..self.count.min(all.len())]
    }
}

// The place of the member with an ADR.
pub fn place_of(table: Table, adr: u8) -> Option<usize>
    ensures value { result ≡ place_found adr (members table) }
    ensures within { IfSome result (λ place. place < 12) }
{
    table.members().iter().position(|member| member.adr == adr)
}

// Whether a member has an ADR.
#[tactic(auto, unfolding(crate::specs::Table::has_member))]
pub fn has_member(table: Table, adr: u8) -> bool
    ensures { result ≡ has_member adr (members table) }
{
    place_of(table, adr).is_some()
}

// The member with an ADR, or the blank record, which is off: the theorems say of a table without the ADR what they say of that record, so no Option.
#[tactic(auto, using(crate::proofs::Asked::places))]
pub fn member_at(table: Table, adr: u8) -> Module
    ensures { result ≡ member_at adr (members table) }
{
    match place_of(table, adr) {
        Some(place) => table.members()[place],
        None => blank_module(),
    }
}

// Whether a member that is on has a link fault.
pub fn any_fault(table: Table) -> bool
    ensures { result ≡ any_fault (members table) }
{
    table
        .members()
        .iter()
        .any(|member| member.on == 1 && member.link_fault == 1)
}

// How many members are on.
#[tactic(auto, using(crate::proofs::Asked::counted))]
pub fn count_on(table: Table) -> usize
    ensures { result ≡ count_on (members table) }
{
    let mut on = 0;
    for member in table.members() {
        on += usize::from(member.on == 1);
    }
    on
}

// Whether an address is that of a master battery.
#[tactic(auto, unfolding(crate::specs::Table::is_master))]
pub fn is_master(adr: u8) -> bool
    ensures { result ≡ is_master adr }
{
    adr % 16 == 2 && adr / 16 <= 7
}
