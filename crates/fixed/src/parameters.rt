// 47H: the limits that a module holds itself to.

#![tactic(auto, unfolding(record::specs::Parameters::parameters))]

ghost use Rattle.std.specs.Prelude.{◌≡◌};
ghost use Rattle.record.specs.Parameters.{parameters};
ghost use Rattle.fixed.specs.Laws.{some_parameters};

use fields::Fields;
use parts::bytes::{Signed, put_words};
use parts::format::Format;
use record::Parameters;
use refusal::Refusal;

// Twelve words.
pub struct SystemParameters;

impl Format for SystemParameters {
    type Value = Parameters;

    ghost codec = { parameters };

    ghost some = { some_parameters };

    ghost long = { λ a. 24 };

    fn read(fields: &mut Fields<'_>) -> Result<Parameters, Refusal> {
        Ok(Parameters {
            cell_high_voltage: Signed::read(fields)?,
            cell_low_voltage: Signed::read(fields)?,
            cell_under_voltage: Signed::read(fields)?,
            charge_high_temperature: Signed::read(fields)?,
            charge_low_temperature: Signed::read(fields)?,
            charge_current: Signed::read(fields)?,
            module_high_voltage: fields.word()?,
            module_low_voltage: fields.word()?,
            module_under_voltage: fields.word()?,
            discharge_high_temperature: Signed::read(fields)?,
            discharge_low_temperature: Signed::read(fields)?,
            discharge_current: Signed::read(fields)?,
        })
    }

    fn is_fine(_value: Parameters) -> bool {
        true
    }

    fn size(_value: Parameters) -> usize {
        24
    }

    fn put(out: &mut [u8], at: usize, value: Parameters) -> usize {
        let words = [
            record::word_of(value.cell_high_voltage),
            record::word_of(value.cell_low_voltage),
            record::word_of(value.cell_under_voltage),
            record::word_of(value.charge_high_temperature),
            record::word_of(value.charge_low_temperature),
            record::word_of(value.charge_current),
            value.module_high_voltage,
            value.module_low_voltage,
            value.module_under_voltage,
            record::word_of(value.discharge_high_temperature),
            record::word_of(value.discharge_low_temperature),
            record::word_of(value.discharge_current),
        ];
        put_words(out, at, &words)
    }
}
