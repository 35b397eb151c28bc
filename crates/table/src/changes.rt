// How a reply changes the table's records: one part of the asked record, or that part of each member that is on.

ghost use Rattle.std.specs.Prelude.{◌≡◌, List, ◌∷◌};
ghost use Rattle.std.specs.Slice.Iter.{iter_rest};
ghost use Rattle.table.specs.Table.{members};
ghost use Rattle.table.specs.Changes.{replaced, dealt, TableIs};

use crate::Table;
use crate::part::Part;
use record::Module;
use std::slice::Iter;

// The part of the record with an ADR, replaced; where there is none, the table as it is.
#[tactic(auto, using(crate::proofs::changes::Storing::not_there))]
pub fn replace<P: Part>(table: Table, adr: u8, value: P::Value) -> Table
    ensures { TableIs table (replaced adr (P.with value) (members table)) result }
{
    let mut modules = table.modules;
    if let Some(place) = crate::place_of(table, adr) {
        P::put_in(&mut modules[place], value);
    }
    Table { modules, ..table }
}

// A member that is on takes the next value, where one is left.
#[tactic(auto, using(crate::proofs::changes::Dealing::served))]
fn serve<P: Part>(member: &mut Module, left: &mut Iter<'_, P::Value>)
    ensures { (ms : List _) → dealt P.with (member.old ∷ ms) (iter_rest left.old) ≡ member.new ∷ dealt P.with ms (iter_rest left.new) }
{
    if member.on == 1 {
        if let Some(value) = left.next() {
            P::put_in(member, *value);
        }
    }
}

// Values dealt out to the members that are on, in order; a member without a value stays.
#[tactic(auto, using(crate::proofs::changes::Dealing::dealing_all))]
fn deal_out<P: Part>(members: &mut [Module], values: &[P::Value])
    ensures { members.new ≡ dealt P.with members.old values.now }
{
    let mut left = values.iter();
    for member in members {
        serve::<P>(member, &mut left);
    }
}

// Values dealt out to the table's members.
pub fn deal<P: Part>(table: Table, values: &[P::Value]) -> Table
    ensures { TableIs table (dealt P.with (members table) values.now) result }
{
    let mut modules = table.modules;
    let count = table.members().len();
    deal_out::<P>(&mut modules[..count], values);
    Table { modules, ..table }
}
