// The parts of a module record that replies carry: which field each format reads and writes. Two functions for each field, since a field can't be
// a parameter.

ghost use Rattle.std.specs.Prelude.{◌≡◌, true, refl};
ghost use Rattle.record.specs.declared.Module.{Module};
ghost use Rattle.table.specs.Rule.{encodable};
ghost use Rattle.table.specs.Changes.{with_analog, with_alarm, with_limits, with_serial, with_version, with_parameters};
ghost use Rattle.table.specs.Laws.{writable_analog, writable_alarm, writable_parameters, writable_limits, writable_serial, writable_version};

use alarm::AlarmInformation;
use analog::AnalogValues;
use fixed::{FirmwareVersion, ManagementLimits, SerialNumber, SystemParameters};
use parts::format::Format;
use record::{Alarm, Analog, Limits, Module, Parameters};

// A format whose value is a field of the module record.
pub trait Part: Format {
    // The field.
    ghost part: { Module → Self.Value };

    // A record with another value in that field.
    ghost with: { Self.Value → Module → Module };

    // The field's value.
    fn part_of(member: &Module) -> Self::Value
        ensures { result ≡ part member.now };

    // The value stored in the field.
    fn put_in(member: &mut Module, value: Self::Value)
        ensures { member.new ≡ with value member.old };

    // The field of a record that keeps the rule can be written.
    ghost writable: { (m : Module) → encodable m ≡ true → Self.codec.ok (part m) ≡ true };

    // What was put into the field stands there.
    ghost stands: { (v : Self.Value) (m : Module) → part (with v m) ≡ v };
}

impl Part for AnalogValues {
    ghost part = { λ m. m.analog };

    ghost with = { with_analog };

    ghost writable = { writable_analog };

    ghost stands = { λ v m. refl };

    fn part_of(member: &Module) -> Analog {
        member.analog
    }

    fn put_in(member: &mut Module, value: Analog) {
        member.analog = value;
    }
}

impl Part for AlarmInformation {
    ghost part = { λ m. m.alarm };

    ghost with = { with_alarm };

    ghost writable = { writable_alarm };

    ghost stands = { λ v m. refl };

    fn part_of(member: &Module) -> Alarm {
        member.alarm
    }

    fn put_in(member: &mut Module, value: Alarm) {
        member.alarm = value;
    }
}

impl Part for SystemParameters {
    ghost part = { λ m. m.parameters };

    ghost with = { with_parameters };

    ghost writable = { writable_parameters };

    ghost stands = { λ v m. refl };

    fn part_of(member: &Module) -> Parameters {
        member.parameters
    }

    fn put_in(member: &mut Module, value: Parameters) {
        member.parameters = value;
    }
}

impl Part for ManagementLimits {
    ghost part = { λ m. m.limits };

    ghost with = { with_limits };

    ghost writable = { writable_limits };

    ghost stands = { λ v m. refl };

    fn part_of(member: &Module) -> Limits {
        member.limits
    }

    fn put_in(member: &mut Module, value: Limits) {
        member.limits = value;
    }
}

impl Part for SerialNumber {
    ghost part = { λ m. m.serial };

    ghost with = { with_serial };

    ghost writable = { writable_serial };

    ghost stands = { λ v m. refl };

    fn part_of(member: &Module) -> [u8; 16] {
        member.serial
    }

    fn put_in(member: &mut Module, value: [u8; 16]) {
        member.serial = value;
    }
}

impl Part for FirmwareVersion {
    ghost part = { λ m. m.version };

    ghost with = { with_version };

    ghost writable = { writable_version };

    ghost stands = { λ v m. refl };

    fn part_of(member: &Module) -> [u8; 5] {
        member.version
    }

    fn put_in(member: &mut Module, value: [u8; 5]) {
        member.version = value;
    }
}
