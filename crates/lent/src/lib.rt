// A lent table, a slice of records, by value: loaded, and put back.

#![tactic(auto)]

ghost use Rattle.std.specs.Prelude.{◌≡◌, take};
ghost use Rattle.lent.specs.Loaded.{over, loaded};

use record::Module;
use table::Table;

// The lent table by value: how many records it has, and the first twelve of them.
#[tactic(auto, using(crate::proofs::Loaded::front_loaded))]
pub fn load(table: &[Module]) -> Table
    ensures { result ≡ loaded table.now }
{
    let mut modules = [table::blank_module(); 12];
    let n = table.len().min(modules.len());
    modules[..n].copy_from_slice(&table[..n]);
    Table {
        count: table.len(),
        modules,
    }
}

// Puts the first records of a table by value, so many of them, over those of the lent one; no byte of the others is written.
#[tactic(auto, using(crate::proofs::Loaded::front_stored))]
pub fn store(table: &mut [Module], from: Table, count: usize)
    ensures { table.new ≡ over table.old (take count from.modules) }
{
    let n = table.len().min(from.modules.len()).min(count);
    table[..n].copy_from_slice(&from.modules[..n]);
}
