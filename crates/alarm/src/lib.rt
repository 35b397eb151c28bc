// 44H, alarm information of a module: the format of one alarm code, and of the record, without flag and Command.

#![tactic(auto, unfolding(record::specs::Alarm::alarm, record::specs::Alarm::codes, record::specs::Alarm::singles))]

ghost use Rattle.record.specs.Zeros.{zero_byte};
ghost use Rattle.record.specs.Alarm.{code, alarm};
ghost use Rattle.record.specs.Infos.{some_alarm};
ghost use Rattle.alarm.specs.Laws.{some_code};
ghost use Rattle.alarm.specs.Size.{alarm_size};

use fields::Fields;
use parts::bytes::Byte;
use parts::format::Format;
use parts::list::{
    Element, fill, is_fine_all, is_fine_counted, put_all, put_counted, read_counted,
};
use record::Alarm;
use refusal::Refusal;

pub struct AlarmCode;

impl Format for AlarmCode {
    type Value = u8;

    ghost codec = { code };

    ghost some = { some_code };

    ghost long = { λ a. 1 };

    fn read(fields: &mut Fields<'_>) -> Result<u8, Refusal> {
        let value = fields.byte()?;
        if record::is_alarm_code(value) {
            Ok(value)
        } else {
            Err(Refusal::AlarmCodeUnknown)
        }
    }

    fn is_fine(value: u8) -> bool {
        record::is_alarm_code(value)
    }

    fn size(_value: u8) -> usize {
        1
    }

    fn put(out: &mut [u8], at: usize, value: u8) -> usize {
        buffer::put(out, at, value)
    }
}

impl Element for AlarmCode {
    ghost zero = { zero_byte };

    fn zero() -> u8 {
        0
    }

    fn is_zero(value: u8) -> bool {
        value == 0
    }
}

pub struct AlarmInformation;

impl Format for AlarmInformation {
    type Value = Alarm;

    ghost codec = { alarm };

    ghost some = { some_alarm };

    ghost long = { λ a. alarm_size a.cell_count a.temperature_count };

    fn read(fields: &mut Fields<'_>) -> Result<Alarm, Refusal> {
        let (cell_count, cells) = read_counted::<AlarmCode, 16>(fields)?;
        let (temperature_count, temperatures) = read_counted::<AlarmCode, 8>(fields)?;
        let charge_current = AlarmCode::read(fields)?;
        let module_voltage = AlarmCode::read(fields)?;
        let discharge_current = AlarmCode::read(fields)?;
        let mut status = [0u8; 5];
        fill::<Byte>(fields, &mut status)?;
        Ok(Alarm {
            cell_count,
            cells,
            temperature_count,
            temperatures,
            charge_current,
            module_voltage,
            discharge_current,
            status,
        })
    }

    fn is_fine(alarm: Alarm) -> bool {
        is_fine_counted::<AlarmCode, 16>(alarm.cell_count, &alarm.cells)
            && is_fine_counted::<AlarmCode, 8>(alarm.temperature_count, &alarm.temperatures)
            && AlarmCode::is_fine(alarm.charge_current)
            && AlarmCode::is_fine(alarm.module_voltage)
            && AlarmCode::is_fine(alarm.discharge_current)
            && is_fine_all::<Byte>(&alarm.status)
    }

    #[tactic(auto, using(crate::specs::Laws::alarm_length))]
    fn size(alarm: Alarm) -> usize {
        10 + alarm.cell_count as usize + alarm.temperature_count as usize
    }

    fn put(out: &mut [u8], at: usize, alarm: Alarm) -> usize {
        let at = put_counted::<AlarmCode, 16>(out, at, alarm.cell_count, &alarm.cells);
        let at = put_counted::<AlarmCode, 8>(out, at, alarm.temperature_count, &alarm.temperatures);
        let at = AlarmCode::put(out, at, alarm.charge_current);
        let at = AlarmCode::put(out, at, alarm.module_voltage);
        let at = AlarmCode::put(out, at, alarm.discharge_current);
        put_all::<Byte>(out, at, &alarm.status)
    }
}
