// Runs worked lines of PROTOCOL's chapters 12 and 14, those that are not proved (specs/Lines.antt has the others) and some that are, and prints what each gives.

#![tactic(auto)]

use analog::AnalogValues;
use fixed::{ManagementLimits, SystemParameters};
use frame::{CR, Fault, Frame, SOI};
use parts::read::{take_flag_alone, take_flagged, take_unflagged};
use receiver::{Event, Receiver};
use refusal::Refusal;
use std::io;

// The printing functions are no `Display`: the types are of other crates, and no other program prints them so.

fn print_frame(rt: &impl Print, frame: Frame) -> io::Result<()> {
    let header = frame.header;
    print!(rt;
        " frame {:02x} {:02x} {:02x} {:02x} LENID {}",
        header.ver, header.adr, header.cid1, header.cid2, frame.lenid
    )
}

fn print_refusal(rt: &impl Print, refusal: Refusal) -> io::Result<()> {
    print!(rt; " refused {}", refusal.number())
}

fn print_fault(rt: &impl Print, fault: Fault) -> io::Result<()> {
    print_refusal(rt, fault.refusal)?;
    match fault.place {
        None => Ok(()),
        Some(place) => print!(rt; " at place {place}"),
    }
}

fn print_event(rt: &impl Print, event: Event) -> io::Result<()> {
    match event {
        None => Ok(()),
        Some(Ok(frame)) => print_frame(rt, frame),
        Some(Err(fault)) => print_fault(rt, fault),
    }
}

// Feeds a stream to a fresh receiver, byte by byte, and prints each event.
fn hear(rt: &impl Print, name: &str, stream: &[u8]) -> io::Result<()> {
    print!(rt; "{name}")?;
    let mut store = [0u8; 4110];
    let mut now = Receiver::new();
    for &byte in stream {
        let stepped = now.step(&mut store, byte);
        print_event(rt, stepped.event)?;
        now = stepped.next;
    }
    println!(rt)
}

// Prints the flag of a record that was read, or its refusal.
fn print_taken(rt: &impl Print, name: &str, taken: Result<u8, Refusal>) -> io::Result<()> {
    print!(rt; "{name}")?;
    match taken {
        Ok(flag) => print!(rt; " flag {flag:02x}"),
        Err(refusal) => print_refusal(rt, refusal),
    }
}

// Prints a list of words, as many as the count says.
fn print_words(rt: &impl Print, key: &str, count: u8, list: &[i16]) -> io::Result<()> {
    print!(rt; " {key} {count}")?;
    for word in list.iter().take(usize::from(count)) {
        print!(rt; " {}", word.cast_unsigned())?;
    }
    Ok(())
}

// Reads the INFO of a 42H reply to ADR 02 and prints its fields.
fn analog(rt: &impl Print, name: &str, info: &[u8]) -> io::Result<()> {
    let found = take_flagged::<AnalogValues>(info, 2);
    print_taken(rt, name, found.map(|(flag, _)| flag))?;
    let analog = found.map_or(record::zero_analog(), |(_, analog)| analog);
    print_words(rt, "cells", analog.cell_count, &analog.cells)?;
    print_words(
        rt,
        "temperatures",
        analog.temperature_count,
        &analog.temperatures,
    )?;
    println!(rt;
        " current {} voltage {} remaining {} total {} cycles {}",
        analog.current.cast_unsigned(),
        analog.voltage,
        analog.remaining,
        analog.total,
        analog.cycles
    )
}

// Reads the INFO of a 92H reply to ADR 02 and prints its fields. It has no flag, and 00 is printed as that.
fn limits(rt: &impl Print, name: &str, info: &[u8]) -> io::Result<()> {
    let found = take_unflagged::<ManagementLimits>(info, 2);
    print_taken(rt, name, found.map(|_| 0))?;
    let limits = found.unwrap_or(record::zero_limits());
    println!(rt;
        " charge voltage {} discharge voltage {} charge current {} discharge current {} status {:02x}",
        limits.charge_voltage,
        limits.discharge_voltage,
        limits.charge_current.cast_unsigned(),
        limits.discharge_current.cast_unsigned(),
        limits.status
    )
}

// Reads the INFO of a 47H reply and prints its twelve words.
fn parameters(rt: &impl Print, name: &str, info: &[u8]) -> io::Result<()> {
    let found = take_flag_alone::<SystemParameters>(info);
    print_taken(rt, name, found.map(|(flag, _)| flag))?;
    let parameters = found.map_or(record::zero_parameters(), |(_, parameters)| parameters);
    println!(rt;
        " cell {} {} {} charge {} {} {} module {} {} {} discharge {} {} {}",
        parameters.cell_high_voltage.cast_unsigned(),
        parameters.cell_low_voltage.cast_unsigned(),
        parameters.cell_under_voltage.cast_unsigned(),
        parameters.charge_high_temperature.cast_unsigned(),
        parameters.charge_low_temperature.cast_unsigned(),
        parameters.charge_current.cast_unsigned(),
        parameters.module_high_voltage,
        parameters.module_low_voltage,
        parameters.module_under_voltage,
        parameters.discharge_high_temperature.cast_unsigned(),
        parameters.discharge_low_temperature.cast_unsigned(),
        parameters.discharge_current.cast_unsigned()
    )
}

// Short frames, and stretches that are none.
fn frames(rt: &impl Print) -> io::Result<()> {
    hear(rt, "check FD32:", b"~21024642E00202FD32\r")?;
    hear(rt, "check FD33:", b"~21024642E00202FD33\r")?;
    hear(rt, "check fd32:", b"~21024642E00202fd32\r")?;
    hear(rt, "check Gd32:", b"~21024642E00202Gd32\r")?;
    hear(rt, "1203400456ABCEFE:", b"~1203400456ABCEFEFC71\r")?;
    hear(
        rt,
        "half a reply, then a good one:",
        b"~210246~2002464F0000FD98\r",
    )
}

// As many characters as a stretch can have, and one more.
fn longest(rt: &impl Print) -> io::Result<()> {
    let mut long = [b'0'; 4113];
    long[0] = SOI;
    long[4111] = CR;
    hear(rt, "4110 characters and CR:", &long[..4112])?;
    long[4111] = b'0';
    long[4112] = CR;
    hear(rt, "4111 characters and CR:", &long)
}

// INFOs of 92H, 47H and 42H.
fn records(rt: &impl Print) -> io::Result<()> {
    limits(rt, "92H:", b"02D002B79800FA00FAC0")?;
    parameters(
        rt,
        "47H:",
        b"000E740BEA0B540C9F0AAB00FAD002B798ADD40D030A47FF06",
    )?;
    parameters(
        rt,
        "47H, a byte short:",
        b"000E740BEA0B540C9F0AAB00FAD002B798ADD40D030A47FF",
    )?;
    parameters(
        rt,
        "47H, a byte more:",
        b"000E740BEA0B540C9F0AAB00FAD002B798ADD40D030A47FF0600",
    )?;
    analog(
        rt,
        "total 65,000:",
        b"0002010D45010BAA0000C350FDE802FDE80007",
    )?;
    analog(
        rt,
        "total 65,001, items 2:",
        b"0002010D45010BAA0000C350FDE802FDE90007",
    )?;
    analog(
        rt,
        "total 65,001:",
        b"0002010D45010BAA0000C350FFFF04FFFF000700FDE800FDE9",
    )?;
    analog(
        rt,
        "items 4 without FFFF:",
        b"0002010D45010BAA0000C350FDE804FFFF000700FDE800FDE9",
    )
}

// The example at the end of V3.3.
fn worked_example(rt: &impl Print) -> io::Result<()> {
    hear(
        rt,
        "V3.3's reply, as printed:",
        b"~20024600F07A11020F0D450D440D450D44A0D4A0D4B0D4A0D4A0D4A050BC30BC30BC30BCD0BCD000C725FFF04FFF000200CA58012110E1A2\r",
    )?;
    hear(
        rt,
        "restored, with the printed check:",
        b"~20024600F07A11020F0D450D440D450D440D450D440D3E0D450D4A0D4A0D4B0D4A0D4A0D4A0D4A050BC30BC30BC30BCD0BCD0000C725FFFF04FFFF000200CA58012110E1A2\r",
    )?;
    hear(
        rt,
        "restored, with the rule's check:",
        b"~20024600F07A11020F0D450D440D450D440D450D440D3E0D450D4A0D4A0D4B0D4A0D4A0D4A0D4A050BC30BC30BC30BCD0BCD0000C725FFFF04FFFF000200CA58012110E27A\r",
    )?;
    analog(
        rt,
        "its record:",
        b"11020F0D450D440D450D440D450D440D3E0D450D4A0D4A0D4B0D4A0D4A0D4A0D4A050BC30BC30BC30BCD0BCD0000C725FFFF04FFFF000200CA58012110",
    )
}

// Lines with a character exchanged, lost or sent twice.
fn damaged(rt: &impl Print) -> io::Result<()> {
    hear(rt, "4FH to ADR 02:", b"~2002464F0000FD98\r")?;
    hear(rt, "two characters exchanged:", b"~0202464F0000FD98\r")?;
    hear(
        rt,
        "a reply with one cell:",
        b"~2102460080260002010D45010BAA00000D45FDE802FDE80007F578\r",
    )?;
    analog(rt, "its record:", b"0002010D45010BAA00000D45FDE802FDE80007")?;
    hear(
        rt,
        "two digits of its cell exchanged:",
        b"~2102460080260002010D54010BAA00000D45FDE802FDE80007F578\r",
    )?;
    analog(rt, "its record:", b"0002010D54010BAA00000D45FDE802FDE80007")?;
    hear(
        rt,
        "its tilde twice:",
        b"~~2102460080260002010D45010BAA00000D45FDE802FDE80007F578\r",
    )?;
    hear(
        rt,
        "its CR twice:",
        b"~2102460080260002010D45010BAA00000D45FDE802FDE80007F578\r\r",
    )?;
    hear(
        rt,
        "one character lost:",
        b"~2102460080260002010D4010BAA00000D45FDE802FDE80007F578\r",
    )?;
    hear(
        rt,
        "one character twice:",
        b"~2102460080260002010D455010BAA00000D45FDE802FDE80007F578\r",
    )
}

fn main(rt: HostRuntime) -> io::Result<()> {
    frames(&rt)?;
    longest(&rt)?;
    records(&rt)?;
    worked_example(&rt)?;
    damaged(&rt)
}
