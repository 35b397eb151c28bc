// 92H: charge and discharge management.

#![tactic(auto, unfolding(record::specs::Limits::limits))]

ghost use Rattle.std.specs.Prelude.{◌≡◌};
ghost use Rattle.record.specs.Limits.{limits};
ghost use Rattle.fixed.specs.Laws.{some_limits};

use fields::Fields;
use parts::bytes::{put_all_signed, put_words};
use parts::format::Format;
use record::Limits;
use refusal::Refusal;

// Two voltage limits, two current limits and status.
pub struct ManagementLimits;

impl Format for ManagementLimits {
    type Value = Limits;

    ghost codec = { limits };

    ghost some = { some_limits };

    ghost long = { λ a. 9 };

    fn read(fields: &mut Fields<'_>) -> Result<Limits, Refusal> {
        Ok(Limits {
            charge_voltage: fields.word()?,
            discharge_voltage: fields.word()?,
            charge_current: record::current(fields.word()?),
            discharge_current: record::current(fields.word()?),
            status: fields.byte()?,
        })
    }

    fn is_fine(_value: Limits) -> bool {
        true
    }

    fn size(_value: Limits) -> usize {
        9
    }

    fn put(out: &mut [u8], at: usize, value: Limits) -> usize {
        let at = put_words(out, at, &[value.charge_voltage, value.discharge_voltage]);
        let at = put_all_signed(out, at, &[value.charge_current, value.discharge_current]);
        buffer::put(out, at, value.status)
    }
}
