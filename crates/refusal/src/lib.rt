// The refusals of the box: one name for each number of the paper's table.

#![tactic(auto)]

ghost use Rattle.std.specs.Prelude.{◌≡◌, if◌then◌else◌};
ghost use Rattle.refusal.specs.Number.{number};

#[derive(Clone, Copy, PartialEq, Eq, Debug)]
pub enum Refusal {
    // frames and the receiver
    TooLong,
    SoiInside,
    TooShort,
    LowerCase,
    LchksumDiffers,
    LenidOdd,
    CountDiffers,
    ChksumDiffers,
    NoHexDigit,
    // replies and their records
    AdrDiffers,
    Cid1Differs,
    CodeUnknown,
    InfoBesideCode,
    CountOutOfRange,
    InfoEnds,
    BytesLeftOver,
    ItemsUnknown,
    CapacitiesBreakRule,
    AlarmCodeUnknown,
    CommandDiffers,
    RecordsDiffer,
    AdrNotInTable,
    // calls
    TableBreaksRule,
    BufferTooShort,
    NotEncodable,
    NotServed,
    ReceiverBeyondStore,
}

impl Refusal {
    // The paper's number. As discriminants (`TooLong = 1`) two names with one number would not compile: a wrong program that a contract has to refuse.
    pub fn number(self) -> u8
        ensures { result ≡ number self }
    {
        match self {
            Refusal::TooLong => 1,
            Refusal::SoiInside => 2,
            Refusal::TooShort => 3,
            Refusal::LowerCase => 4,
            Refusal::LchksumDiffers => 5,
            Refusal::LenidOdd => 6,
            Refusal::CountDiffers => 7,
            Refusal::ChksumDiffers => 8,
            Refusal::NoHexDigit => 9,
            Refusal::AdrDiffers => 11,
            Refusal::Cid1Differs => 12,
            Refusal::CodeUnknown => 13,
            Refusal::InfoBesideCode => 14,
            Refusal::CountOutOfRange => 15,
            Refusal::InfoEnds => 16,
            Refusal::BytesLeftOver => 17,
            Refusal::ItemsUnknown => 18,
            Refusal::CapacitiesBreakRule => 19,
            Refusal::AlarmCodeUnknown => 20,
            Refusal::CommandDiffers => 21,
            Refusal::RecordsDiffer => 22,
            Refusal::AdrNotInTable => 23,
            Refusal::TableBreaksRule => 31,
            Refusal::BufferTooShort => 32,
            Refusal::NotEncodable => 33,
            Refusal::NotServed => 34,
            Refusal::ReceiverBeyondStore => 35,
        }
    }
}

// Goes on where a test passes; otherwise this refusal is the answer.
pub fn need(test: bool, refusal: Refusal) -> Result<(), Refusal>
    ensures { result ≡ (if test then Ok tt else Err refusal) }
{
    if test { Ok(()) } else { Err(refusal) }
}
