//! The faults by their numbers.

ghost use Rattle.c25_explain.specs.Explanation.{IsFaultOf};

use crate::fault::AnyFault;
use c25_disk::fault::FileFault;
use c25_hex::hex_fault::HexFault;
use c25_meaning_language::statement::FaultKind;
use c25_meaning_linking::command_fault::CommandFault;
use c25_meaning_linking::link_fault::LinkFault;
use c25_meaning_objects::object::ObjectFault;

/// The fault of this number; `None` where no fault has it.
pub(crate) fn fault_of(number: u8) -> Option<AnyFault>
    ensures { IsFaultOf number result }
{
    match number {
        7 => Some(AnyFault::File(FileFault::CannotWrite)),
        8 => Some(AnyFault::File(FileFault::CannotRead)),
        9 => Some(AnyFault::Memory),
        10 => Some(AnyFault::Source(FaultKind::BadLabel)),
        11 => Some(AnyFault::Source(FaultKind::BadConstant)),
        12 => Some(AnyFault::Source(FaultKind::OpenQuote)),
        13 => Some(AnyFault::Source(FaultKind::StrayText)),
        20 => Some(AnyFault::Source(FaultKind::BadExpression)),
        21 => Some(AnyFault::Source(FaultKind::TooDeep)),
        22 => Some(AnyFault::Source(FaultKind::Undefined)),
        23 => Some(AnyFault::Source(FaultKind::NotAbsolute)),
        24 => Some(AnyFault::Source(FaultKind::DivideByZero)),
        25 => Some(AnyFault::Source(FaultKind::ValueRange)),
        26 => Some(AnyFault::Source(FaultKind::Defined)),
        30 => Some(AnyFault::Source(FaultKind::NoFile)),
        31 => Some(AnyFault::Source(FaultKind::OpenBlock)),
        32 => Some(AnyFault::Source(FaultKind::StrayEnd)),
        33 => Some(AnyFault::Source(FaultKind::Depth)),
        34 => Some(AnyFault::Source(FaultKind::Lines)),
        35 => Some(AnyFault::Source(FaultKind::TooManyParameters)),
        36 => Some(AnyFault::Source(FaultKind::Redefined)),
        37 => Some(AnyFault::File(FileFault::FileTwice)),
        38 => Some(AnyFault::Source(FaultKind::LongLine)),
        40 => Some(AnyFault::Object(ObjectFault::BadMagic)),
        41 => Some(AnyFault::Object(ObjectFault::BadVersion)),
        42 => Some(AnyFault::Object(ObjectFault::Short)),
        43 => Some(AnyFault::Object(ObjectFault::BadTag)),
        44 => Some(AnyFault::Object(ObjectFault::BadField)),
        45 => Some(AnyFault::Object(ObjectFault::Trailing)),
        50 => Some(AnyFault::Source(FaultKind::UnknownMnemonic)),
        51 => Some(AnyFault::Source(FaultKind::OperandCount)),
        52 => Some(AnyFault::Source(FaultKind::OperandForm)),
        53 => Some(AnyFault::Source(FaultKind::FieldRange)),
        54 => Some(AnyFault::Source(FaultKind::TooLarge)),
        55 => Some(AnyFault::Source(FaultKind::NotRelocatable)),
        56 => Some(AnyFault::Source(FaultKind::BadBlock)),
        60 => Some(AnyFault::Command(CommandFault::Syntax)),
        61 => Some(AnyFault::Command(CommandFault::RangeOverlap)),
        62 => Some(AnyFault::Command(CommandFault::RangeSize)),
        63 => Some(AnyFault::Command(CommandFault::Twice)),
        70 => Some(AnyFault::Link(LinkFault::Unresolved)),
        71 => Some(AnyFault::Link(LinkFault::DefinedTwice)),
        72 => Some(AnyFault::Link(LinkFault::NoRange)),
        73 => Some(AnyFault::Link(LinkFault::DoesNotFit)),
        74 => Some(AnyFault::Link(LinkFault::Overlap)),
        75 => Some(AnyFault::Link(LinkFault::RelocRange)),
        76 => Some(AnyFault::Link(LinkFault::NoEntry)),
        77 => Some(AnyFault::Map),
        78 => Some(AnyFault::Link(LinkFault::BadRun)),
        79 => Some(AnyFault::Rom),
        80 => Some(AnyFault::Hex(HexFault::BadStart)),
        81 => Some(AnyFault::Hex(HexFault::BadDigit)),
        82 => Some(AnyFault::Hex(HexFault::BadCount)),
        83 => Some(AnyFault::Hex(HexFault::BadSum)),
        84 => Some(AnyFault::Hex(HexFault::BadKind)),
        85 => Some(AnyFault::Hex(HexFault::OddWord)),
        86 => Some(AnyFault::Hex(HexFault::Twice)),
        87 => Some(AnyFault::Hex(HexFault::NoEnd)),
        88 => Some(AnyFault::Hex(HexFault::AfterEnd)),
        89 => Some(AnyFault::Hex(HexFault::AddressRange)),
        90 => Some(AnyFault::Schedule),
        91 => Some(AnyFault::Samples),
        92 => Some(AnyFault::Hint),
        93 => Some(AnyFault::OddLength),
        94 => Some(AnyFault::LengthsDiffer),
        95 => Some(AnyFault::Script),
        96 => Some(AnyFault::TooLong),
        97 => Some(AnyFault::TooManySections),
        _ => None,
    }
}
