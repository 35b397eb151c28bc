// The interface of the library: the lent table with its thin functions, and what C calls. A name for each kind, since C has no generic functions.

#![tactic(auto)]

ghost use Rattle.std.specs.Prelude.{◌≡◌, cond, get_or, set};
ghost use Rattle.frame.specs.Judge.{judge};
ghost use Rattle.frame.specs.Write.{framed};
ghost use Rattle.record.specs.Meanings.{milliamps_of, tenths_celsius_of};
ghost use Rattle.record.specs.Infos.{analog_info, alarm_info, limits_info, serial_info, version_info, parameters_info};
ghost use Rattle.parts.specs.Records.{record_writing};
ghost use Rattle.table.specs.Table.{new_module};
ghost use Rattle.table.specs.Rule.{rule};
ghost use Rattle.groups.specs.Groups.{analog_group_writing, alarm_group_writing};
ghost use Rattle.standin.specs.Answer.{off_at};
ghost use Rattle.listing.specs.Piece.{fresh, list, closing};
ghost use Rattle.flat.specs.Flat.{FlatWrites, event_of, flat_receiver};
ghost use Rattle.flat.specs.Calls.{FlatSteps, FlatRuns};
ghost use Rattle.flat.specs.Listing.{flat_listing, listing_back, FlatLists};
ghost use Rattle.hanuzak.specs.Answering.{answering, Leaves};
ghost use Rattle.hanuzak.specs.Reading.{reading, ReplyLeaves};

use alarm::AlarmInformation;
use analog::AnalogValues;
use fixed::{FirmwareVersion, ManagementLimits, SerialNumber, SystemParameters};
use flat::{
    FlatAnswered, FlatEvent, FlatListed, FlatListing, FlatRan, FlatReceiver, FlatReply,
    FlatStepped, FlatWritten,
};
use frame::Header;
use listing::Listing;
use parts::write::{write_flag_alone, write_flagged, write_unflagged};
use receiver::Receiver;
use record::Module;
use reply::gate::Question;
use table::Station;

// ---- one record of the lent table, by its index: after a loan by `get_mut` the check knows a slice's length alone, and a copy by `get` was slower

// A copy of the record at a place; past the end it is the other one.
#[unsafe(no_mangle)]
pub extern "C" fn hanuzak_record(table: &[Module], at: usize, other: Module) -> Module
    ensures { result ≡ get_or table.now at other }
{
    if at < table.len() {
        return table[at];
    }
    other
}

// Puts a record in its place; past the end nothing changes.
#[unsafe(no_mangle)]
pub extern "C" fn hanuzak_replace(table: &mut [Module], at: usize, with: Module)
    ensures { table.new ≡ set table.old at with }
{
    if at < table.len() {
        table[at] = with;
    }
}

// Switches the record at a place off, with every other field as it was; past the end nothing changes.
#[unsafe(no_mangle)]
#[tactic(auto, unfolding(standin::specs::Answer::off_at))]
pub extern "C" fn hanuzak_switch_off(table: &mut [Module], at: usize)
    ensures { table.new ≡ off_at at table.old }
{
    if at < table.len() {
        table[at].on = 0;
    }
}

// ---- a new record, the rule, and the group writers

// A record that keeps the rule by itself, where its ADR does.
#[unsafe(no_mangle)]
pub extern "C" fn hanuzak_module_new(adr: u8) -> Module
    ensures { result ≡ new_module adr }
{
    table::new_module(adr)
}

// 0 for a table that keeps its rule, else 31.
#[unsafe(no_mangle)]
#[tactic(auto, using(crate::proofs::Lent::lent))]
pub extern "C" fn hanuzak_table(table: &[Module]) -> u8
    ensures { result ≡ cond (rule table.now) 0 31 }
{
    match entries::check_rule(lent::load(table)) {
        Ok(()) => 0,
        Err(refusal) => refusal.number(),
    }
}

// INFO of 42H for Command FFH: 31, then 32.
#[unsafe(no_mangle)]
#[tactic(auto, using(crate::proofs::Lent::lent), unfolding(record::specs::Infos::analog_group))]
pub extern "C" fn hanuzak_write_analog_group(
    table: &[Module],
    flag: u8,
    out: &mut [u8],
) -> FlatWritten
    ensures { FlatWrites (analog_group_writing (rule table.now) flag table.now out.old) result out.new }
{
    entries::group::<AnalogValues>(out, flag, lent::load(table))
}

// INFO of 44H for Command FFH: 31, then 32.
#[unsafe(no_mangle)]
#[tactic(auto, using(crate::proofs::Lent::lent), unfolding(record::specs::Infos::alarm_group))]
pub extern "C" fn hanuzak_write_alarm_group(
    table: &[Module],
    flag: u8,
    out: &mut [u8],
) -> FlatWritten
    ensures { FlatWrites (alarm_group_writing (rule table.now) flag table.now out.old) result out.new }
{
    entries::group::<AlarmInformation>(out, flag, lent::load(table))
}

// ---- the stand-in and the reply reader

// The answer to a stretch, the bytes between SOI and CR; an accepted 95H switches its module off in the lent table, of which only that
// record's mark is written.
#[unsafe(no_mangle)]
#[tactic(auto, using(crate::proofs::Lent::lent), unfolding(crate::specs::Answering::answering))]
pub extern "C" fn hanuzak_answer(
    table: &mut [Module],
    station: Station,
    stretch: &[u8],
    out: &mut [u8],
) -> FlatAnswered
    ensures { Leaves (answering station table.old stretch.now out.old) result table.new out.new }
{
    let served = entries::serve(station, lent::load(table), stretch, out);
    hanuzak_switch_off(table, served.off);
    served.answered
}

// Reads the reply to a question from a stretch, the bytes between SOI and CR, into the lent table. Where no record changes, none is stored:
// a refusal changes no lent byte, not even between a record's fields.
#[unsafe(no_mangle)]
pub extern "C" fn hanuzak_read_reply(
    table: &mut [Module],
    question: Question,
    stretch: &[u8],
) -> FlatReply
    ensures { ReplyLeaves (reading table.old question stretch.now) result table.new }
{
    let done = entries::read_flat(lent::load(table), question, stretch);
    lent::store(table, done.table, done.stored);
    done.reply
}

// ---- frames and the receiver

// Judges the bytes between SOI and CR.
#[unsafe(no_mangle)]
pub extern "C" fn hanuzak_judge(stretch: &[u8]) -> FlatEvent
    ensures { result ≡ event_of (judge stretch.now) }
{
    frame::judge(stretch).into()
}

// A fresh receiver, waiting.
#[unsafe(no_mangle)]
pub extern "C" fn hanuzak_receiver_new() -> FlatReceiver
    ensures { result ≡ flat_receiver Receiver.Waiting }
{
    Receiver::new().into()
}

// One byte of the stream.
#[unsafe(no_mangle)]
pub extern "C" fn hanuzak_step(receiver: FlatReceiver, store: &mut [u8], byte: u8) -> FlatStepped
    ensures { FlatSteps receiver store.old byte result store.new }
{
    Receiver::from(receiver).step(store, byte).into()
}

// A piece of the stream, up to and including the byte that gives an event.
#[unsafe(no_mangle)]
pub extern "C" fn hanuzak_run(receiver: FlatReceiver, store: &mut [u8], piece: &[u8]) -> FlatRan
    ensures { FlatRuns receiver store.old piece.now result store.new }
{
    Receiver::from(receiver).run(store, piece).into()
}

// ---- writers

// A frame from SOI to CR, INFO given as bytes: 33, then 32.
#[unsafe(no_mangle)]
pub extern "C" fn hanuzak_write_frame(
    ver: u8,
    adr: u8,
    cid1: u8,
    cid2: u8,
    info: &[u8],
    out: &mut [u8],
) -> FlatWritten
    ensures { FlatWrites (framed (record { ver = ver; adr = adr; cid1 = cid1; cid2 = cid2 }) info.now out.old) result out.new }
{
    let header = Header {
        ver,
        adr,
        cid1,
        cid2,
    };
    frame::write(header, info, out).into()
}

// INFO of 42H for one module: 33, then 32.
#[unsafe(no_mangle)]
#[tactic(auto, unfolding(record::specs::Infos::analog_info))]
pub extern "C" fn hanuzak_write_analog(given: Module, flag: u8, out: &mut [u8]) -> FlatWritten
    ensures { FlatWrites (record_writing given.adr (analog_info given.adr) ((flag, given.adr), given.analog) out.old) result out.new }
{
    write_flagged::<AnalogValues>(out, flag, given.adr, given.analog).into()
}

// INFO of 44H for one module: 33, then 32.
#[unsafe(no_mangle)]
#[tactic(auto, unfolding(record::specs::Infos::alarm_info))]
pub extern "C" fn hanuzak_write_alarm(given: Module, flag: u8, out: &mut [u8]) -> FlatWritten
    ensures { FlatWrites (record_writing given.adr (alarm_info given.adr) ((flag, given.adr), given.alarm) out.old) result out.new }
{
    write_flagged::<AlarmInformation>(out, flag, given.adr, given.alarm).into()
}

// INFO of 47H: 33, then 32.
#[unsafe(no_mangle)]
#[tactic(auto, unfolding(record::specs::Infos::parameters_info))]
pub extern "C" fn hanuzak_write_parameters(given: Module, flag: u8, out: &mut [u8]) -> FlatWritten
    ensures { FlatWrites (record_writing given.adr parameters_info (flag, given.parameters) out.old) result out.new }
{
    write_flag_alone::<SystemParameters>(out, flag, given.adr, given.parameters).into()
}

// INFO of 92H: 33, then 32.
#[unsafe(no_mangle)]
#[tactic(auto, unfolding(record::specs::Infos::limits_info))]
pub extern "C" fn hanuzak_write_limits(given: Module, out: &mut [u8]) -> FlatWritten
    ensures { FlatWrites (record_writing given.adr (limits_info given.adr) (given.adr, given.limits) out.old) result out.new }
{
    write_unflagged::<ManagementLimits>(out, given.adr, given.limits).into()
}

// INFO of 93H: 33, then 32.
#[unsafe(no_mangle)]
#[tactic(auto, unfolding(record::specs::Infos::serial_info))]
pub extern "C" fn hanuzak_write_serial(given: Module, out: &mut [u8]) -> FlatWritten
    ensures { FlatWrites (record_writing given.adr (serial_info given.adr) (given.adr, given.serial) out.old) result out.new }
{
    write_unflagged::<SerialNumber>(out, given.adr, given.serial).into()
}

// INFO of 96H: 33, then 32.
#[unsafe(no_mangle)]
#[tactic(auto, unfolding(record::specs::Infos::version_info))]
pub extern "C" fn hanuzak_write_version(given: Module, out: &mut [u8]) -> FlatWritten
    ensures { FlatWrites (record_writing given.adr (version_info given.adr) (given.adr, given.version) out.old) result out.new }
{
    write_unflagged::<FirmwareVersion>(out, given.adr, given.version).into()
}

// ---- what numbers mean

// A temperature in tenths of a degree Celsius.
#[unsafe(no_mangle)]
pub extern "C" fn hanuzak_tenths_celsius(raw: i16) -> i32
    ensures { result ≡ tenths_celsius_of raw }
{
    record::tenths_celsius(raw)
}

// A current in milliamps.
#[unsafe(no_mangle)]
pub extern "C" fn hanuzak_milliamps(current: i16) -> i32
    ensures { result ≡ milliamps_of current }
{
    record::milliamps(current)
}

// ---- the listing

// A fresh listing.
#[unsafe(no_mangle)]
pub extern "C" fn hanuzak_listing_new() -> FlatListing
    ensures { result ≡ flat_listing fresh }
{
    Listing::new().into()
}

// Lists as much of a piece as the buffer has room for: 32 for a store below 4,110 bytes or a buffer below 4,200, then 35.
#[unsafe(no_mangle)]
pub extern "C" fn hanuzak_list(
    listing: FlatListing,
    store: &mut [u8],
    piece: &[u8],
    out: &mut [u8],
) -> FlatListed
    ensures { FlatLists (list (listing_back listing) store.old piece.now out.old) result store.new out.new }
{
    Listing::from(listing).list(store, piece, out).into()
}

// The two totals, which close a listing: 32 for a buffer below 38 bytes.
#[unsafe(no_mangle)]
pub extern "C" fn hanuzak_list_close(listing: FlatListing, out: &mut [u8]) -> FlatWritten
    ensures { FlatWrites (closing (listing_back listing) out.old) result out.new }
{
    Listing::from(listing).close(out).into()
}
