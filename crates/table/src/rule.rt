// The table's rule (31), judged over the table by value.

ghost use Rattle.std.specs.Prelude.{◌≡◌, true, false, MatchResult};
ghost use Rattle.refusal.specs.declared.Refusal.TheVariants.{TableBreaksRule};
ghost use Rattle.table.specs.Rule.{encodable, fine, follows, rising, keeps};

use crate::Table;
use alarm::AlarmInformation;
use analog::AnalogValues;
use fixed::{FirmwareVersion, ManagementLimits, SerialNumber, SystemParameters};
use parts::format::Format;
use record::Module;
use refusal::Refusal;

// Whether every value can be encoded.
#[tactic(auto, unfolding(crate::specs::Rule::encodable))]
fn is_encodable(given: Module) -> bool
    ensures { result ≡ encodable given }
{
    AnalogValues::is_fine(given.analog)
        && AlarmInformation::is_fine(given.alarm)
        && ManagementLimits::is_fine(given.limits)
        && SerialNumber::is_fine(given.serial)
        && FirmwareVersion::is_fine(given.version)
        && SystemParameters::is_fine(given.parameters)
}

// Whether a record by itself keeps the rule.
#[tactic(auto, unfolding(crate::specs::Rule::fine))]
fn is_fine(given: Module) -> bool
    ensures { result ≡ fine given }
{
    record::is_address(given.adr) && given.on <= 1 && given.link_fault <= 1 && is_encodable(given)
}

// Whether a record may stand after the one with ADR `last`, in a table of group m.
fn may_follow(given: Module, m: u8, last: u8) -> bool
    ensures { result ≡ follows m last given }
{
    is_fine(given) && last < given.adr && given.adr / 16 == m
}

// Whether the ADRs rise, in one group m, and each record keeps the rule.
#[tactic(auto, using(crate::proofs::rule::Rules::rises))]
fn is_rising(members: &[Module], m: u8) -> bool
    ensures { result ≡ rising m 0 members.now }
{
    let mut last = 0;
    for member in members {
        if !may_follow(*member, m, last) {
            return false;
        }
        last = member.adr;
    }
    true
}

// A table that keeps its rule.
#[derive(Clone, Copy)]
pub struct Ruled<'a> {
    pub table: &'a Table,
    ghost kept: { keeps table.now ≡ true },
}

impl<'a> Ruled<'a> {
    // The table, once it is judged: 31 where it breaks its rule.
    pub fn judge(table: &'a Table) -> Result<Ruled<'a>, Refusal>
        ensures { MatchResult result (λ r. r.table.now ≡ table.now) (λ e. (keeps table.now ≡ false) × (e ≡ TableBreaksRule)) }
    {
        if keeps_rule(*table) {
            Ok(Ruled { table })
        } else {
            Err(Refusal::TableBreaksRule)
        }
    }
}

// Whether the table keeps its rule.
#[tactic(auto, unfolding(crate::specs::Rule::keeps, crate::specs::Rule::rule))]
pub fn keeps_rule(table: Table) -> bool
    ensures { result ≡ keeps table }
{
    let members = table.members();
    match members.first() {
        Some(first) => table.count <= 12 && is_rising(members, first.adr / 16),
        None => false,
    }
}
