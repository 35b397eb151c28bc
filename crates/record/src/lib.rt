// The module record, as 42H, 44H, 47H, 92H, 93H and 96H carry it, and what its numbers mean. Places of a list beyond its count are 0: a count
// beside a list of fixed length, since nothing is kept on a heap and C has the same structs.

#![tactic(auto)]

ghost use Rattle.std.specs.Prelude.{◌≡◌};
ghost use Rattle.std.specs.Int.{w16};
ghost use Rattle.std.proofs.Common.{to_z, of_z};
ghost use Rattle.record.specs.Meanings.{milliamps_of, tenths_celsius_of};
ghost use Rattle.record.specs.Address.{is_address};
ghost use Rattle.record.specs.Alarm.{is_alarm_code};
ghost use Rattle.record.specs.Nothing.{no_analog, no_alarm, no_limits, no_parameters};

// 42H: cells in mV, temperatures as raw words, current in 100 mA (charge positive), module voltage in mV, remaining and total in mAh.
#[repr(C)]
#[derive(Clone, Copy, Default)]
pub struct Analog {
    pub cell_count: u8,
    pub cells: [i16; 16],
    pub temperature_count: u8,
    pub temperatures: [i16; 8],
    pub current: i16,
    pub voltage: u16,
    pub remaining: u32,
    pub total: u32,
    pub cycles: u16,
}

// 44H: alarm codes and the five status bytes.
#[repr(C)]
#[derive(Clone, Copy, Default)]
pub struct Alarm {
    pub cell_count: u8,
    pub cells: [u8; 16],
    pub temperature_count: u8,
    pub temperatures: [u8; 8],
    pub charge_current: u8,
    pub module_voltage: u8,
    pub discharge_current: u8,
    pub status: [u8; 5],
}

// 92H: voltage limits in mV, current limits in 100 mA.
#[repr(C)]
#[derive(Clone, Copy, Default)]
pub struct Limits {
    pub charge_voltage: u16,
    pub discharge_voltage: u16,
    pub charge_current: i16,
    pub discharge_current: i16,
    pub status: u8,
}

// 47H: the limits that a module holds itself to, of a cell, of charge, of the module and of discharge: voltages in mV (low: alarm, under:
// protection), temperatures as raw words, currents in 100 mA.
#[repr(C)]
#[derive(Clone, Copy, Default)]
pub struct Parameters {
    pub cell_high_voltage: i16,
    pub cell_low_voltage: i16,
    pub cell_under_voltage: i16,
    pub charge_high_temperature: i16,
    pub charge_low_temperature: i16,
    pub charge_current: i16,
    pub module_high_voltage: u16,
    pub module_low_voltage: u16,
    pub module_under_voltage: u16,
    pub discharge_high_temperature: i16,
    pub discharge_low_temperature: i16,
    pub discharge_current: i16,
}

// One module: `on` and `link_fault` are 0 or 1.
#[repr(C)]
#[derive(Clone, Copy)]
pub struct Module {
    pub adr: u8,
    pub on: u8,
    pub link_fault: u8,
    pub analog: Analog,
    pub alarm: Alarm,
    pub limits: Limits,
    pub serial: [u8; 16],
    pub version: [u8; 5],
    pub parameters: Parameters,
}

// ---- records of zeros: what the derived `Default` gives, said in a contract

pub fn zero_analog() -> Analog
    ensures { result ≡ no_analog }
{
    Analog::default()
}

pub fn zero_alarm() -> Alarm
    ensures { result ≡ no_alarm }
{
    Alarm::default()
}

pub fn zero_limits() -> Limits
    ensures { result ≡ no_limits }
{
    Limits::default()
}

pub fn zero_parameters() -> Parameters
    ensures { result ≡ no_parameters }
{
    Parameters::default()
}

// ---- what numbers mean; these are public functions with contracts and wrong programs of their own, so they stay, though each is one call of std's

// A word as a signed number.
pub fn signed(word: u16) -> i16
    ensures { result ≡ to_z w16 word }
{
    word.cast_signed()
}

// The word of a signed number.
pub fn word_of(value: i16) -> u16
    ensures { result ≡ of_z w16 value }
{
    value.cast_unsigned()
}

// The two bytes of a current: a signed number of 100 mA.
pub fn current(word: u16) -> i16
    ensures { result ≡ to_z w16 word }
{
    signed(word)
}

// A current in milliamps.
pub fn milliamps(current: i16) -> i32
    ensures { result ≡ milliamps_of current }
{
    i32::from(current) * 100
}

// A temperature in tenths of a degree Celsius.
pub fn tenths_celsius(raw: i16) -> i32
    ensures { result ≡ tenths_celsius_of raw }
{
    i32::from(raw) - 2731
}

// Whether a module can have this address.
#[tactic(auto, unfolding(crate::specs::Address::is_address))]
pub fn is_address(adr: u8) -> bool
    ensures { result ≡ is_address adr }
{
    ((2 <= adr % 16) & (adr % 16 <= 13)) & (adr / 16 <= 7)
}

// Whether a byte is an alarm code.
#[tactic(auto, unfolding(crate::specs::Alarm::is_alarm_code))]
pub fn is_alarm_code(code: u8) -> bool
    ensures { result ≡ is_alarm_code code }
{
    (code <= 2) | (code == 240)
}
