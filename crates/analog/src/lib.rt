// 42H, analog values of a module: the format of the record, without flag and Command.

#![tactic(auto, unfolding(record::specs::Analog::analog, record::specs::Analog::measured))]

ghost use Rattle.record.specs.Analog.{analog};
ghost use Rattle.record.specs.Infos.{some_analog};
ghost use Rattle.analog.specs.Size.{analog_size};

mod capacities;

use crate::capacities::Capacities;
use fields::Fields;
use parts::bytes::{Signed, put_signed, put_word};
use parts::format::Format;
use parts::list::{is_fine_counted, put_counted, read_counted};
use record::Analog;
use refusal::Refusal;

pub struct AnalogValues;

impl Format for AnalogValues {
    type Value = Analog;

    ghost codec = { analog };

    ghost some = { some_analog };

    ghost long = { λ a. analog_size a.cell_count a.temperature_count a.total };

    fn read(fields: &mut Fields<'_>) -> Result<Analog, Refusal> {
        let (cell_count, cells) = read_counted::<Signed, 16>(fields)?;
        let (temperature_count, temperatures) = read_counted::<Signed, 8>(fields)?;
        let current = record::current(fields.word()?);
        let voltage = fields.word()?;
        let (remaining, (total, cycles)) = Capacities::read(fields)?;
        Ok(Analog {
            cell_count,
            cells,
            temperature_count,
            temperatures,
            current,
            voltage,
            remaining,
            total,
            cycles,
        })
    }

    fn is_fine(analog: Analog) -> bool {
        is_fine_counted::<Signed, 16>(analog.cell_count, &analog.cells)
            && is_fine_counted::<Signed, 8>(analog.temperature_count, &analog.temperatures)
            && Capacities::is_fine((analog.remaining, (analog.total, analog.cycles)))
    }

    #[tactic(auto, using(crate::specs::Laws::analog_length, crate::specs::Laws::capacities_length), unfolding(record::specs::Analog::analog))]
    fn size(analog: Analog) -> usize {
        let lists = 2 * analog.cell_count as usize + 2 * analog.temperature_count as usize;
        6 + lists + capacities::size_of(analog.total)
    }

    fn put(out: &mut [u8], at: usize, analog: Analog) -> usize {
        let at = put_counted::<Signed, 16>(out, at, analog.cell_count, &analog.cells);
        let at = put_counted::<Signed, 8>(out, at, analog.temperature_count, &analog.temperatures);
        let at = put_signed(out, at, analog.current);
        let at = put_word(out, at, analog.voltage);
        Capacities::put(out, at, (analog.remaining, (analog.total, analog.cycles)))
    }
}
