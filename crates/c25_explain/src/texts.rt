//! The explanation of each fault.

ghost use Rattle.c25_explain.specs.Explanation.{IsExplanationOf};
ghost use Rattle.c25_explain.specs.declared.fault.AnyFault.TheVariants.{Source, Object, Command, Link, Hex, File};

use crate::fault::AnyFault;
use crate::parts::Explanation;
use crate::{
    command_file, expansion, files, images, linking, objects, run_files, source_lines,
    written_texts,
};
use c25_disk::fault::FileFault;
use c25_hex::hex_fault::HexFault;
use c25_meaning_language::statement::FaultKind;
use c25_meaning_linking::command_fault::CommandFault;
use c25_meaning_linking::link_fault::LinkFault;
use c25_meaning_objects::object::ObjectFault;

/// The explanation of a fault of a line of a source.
fn source_explanation(kind: FaultKind) -> Explanation
    ensures { IsExplanationOf (Source kind) result }
{
    match kind {
        FaultKind::BadLabel => source_lines::bad_label(),
        FaultKind::BadConstant => source_lines::bad_constant(),
        FaultKind::OpenQuote => source_lines::open_quote(),
        FaultKind::StrayText => source_lines::stray_text(),
        FaultKind::BadExpression => source_lines::bad_expression(),
        FaultKind::TooDeep => source_lines::too_deep(),
        FaultKind::Undefined => source_lines::undefined(),
        FaultKind::NotAbsolute => source_lines::not_absolute(),
        FaultKind::DivideByZero => source_lines::divide_by_zero(),
        FaultKind::ValueRange => source_lines::value_range(),
        FaultKind::Defined => source_lines::defined(),
        FaultKind::NoFile => expansion::no_file(),
        FaultKind::OpenBlock => expansion::open_block(),
        FaultKind::StrayEnd => expansion::stray_end(),
        FaultKind::Depth => expansion::depth(),
        FaultKind::Lines => expansion::lines(),
        FaultKind::TooManyParameters => expansion::too_many_parameters(),
        FaultKind::Redefined => expansion::redefined(),
        FaultKind::LongLine => expansion::long_line(),
        FaultKind::UnknownMnemonic => source_lines::unknown_mnemonic(),
        FaultKind::OperandCount => source_lines::operand_count(),
        FaultKind::OperandForm => source_lines::operand_form(),
        FaultKind::FieldRange => source_lines::field_range(),
        FaultKind::TooLarge => source_lines::too_large(),
        FaultKind::NotRelocatable => source_lines::not_relocatable(),
        FaultKind::BadBlock => source_lines::bad_block(),
    }
}

/// The explanation of a fault of the bytes of an object.
fn object_explanation(fault: ObjectFault) -> Explanation
    ensures { IsExplanationOf (Object fault) result }
{
    match fault {
        ObjectFault::BadMagic => objects::bad_magic(),
        ObjectFault::BadVersion => objects::bad_version(),
        ObjectFault::Short => objects::short(),
        ObjectFault::BadTag => objects::bad_tag(),
        ObjectFault::BadField => objects::bad_field(),
        ObjectFault::Trailing => objects::trailing(),
    }
}

/// The explanation of a fault of a line of the command file.
fn command_explanation(fault: CommandFault) -> Explanation
    ensures { IsExplanationOf (Command fault) result }
{
    match fault {
        CommandFault::Syntax => command_file::syntax(),
        CommandFault::RangeOverlap => command_file::range_overlap(),
        CommandFault::RangeSize => command_file::range_size(),
        CommandFault::Twice => command_file::twice(),
    }
}

/// The explanation of a fault of linking.
fn link_explanation(fault: LinkFault) -> Explanation
    ensures { IsExplanationOf (Link fault) result }
{
    match fault {
        LinkFault::Unresolved => linking::unresolved(),
        LinkFault::DefinedTwice => linking::defined_twice(),
        LinkFault::NoRange => linking::no_range(),
        LinkFault::DoesNotFit => linking::does_not_fit(),
        LinkFault::Overlap => linking::overlap(),
        LinkFault::RelocRange => linking::reloc_range(),
        LinkFault::NoEntry => linking::no_entry(),
        LinkFault::BadRun => linking::bad_run(),
    }
}

/// The explanation of a fault of a line of a hex text.
fn hex_explanation(fault: HexFault) -> Explanation
    ensures { IsExplanationOf (Hex fault) result }
{
    match fault {
        HexFault::BadStart => written_texts::bad_start(),
        HexFault::BadDigit => written_texts::bad_digit(),
        HexFault::BadCount => written_texts::bad_count(),
        HexFault::BadSum => written_texts::bad_sum(),
        HexFault::BadKind => written_texts::bad_kind(),
        HexFault::OddWord => written_texts::odd_word(),
        HexFault::Twice => written_texts::twice(),
        HexFault::NoEnd => written_texts::no_end(),
        HexFault::AfterEnd => written_texts::after_end(),
        HexFault::AddressRange => written_texts::address_range(),
    }
}

/// The explanation of a fault of a file.
fn file_explanation(kind: FileFault) -> Explanation
    ensures { IsExplanationOf (File kind) result }
{
    match kind {
        FileFault::CannotWrite => files::cannot_write(),
        FileFault::CannotRead => files::cannot_read(),
        FileFault::FileTwice => files::file_twice(),
    }
}

/// The explanation of a fault of any kind.
pub(crate) fn explanation_of(fault: AnyFault) -> Explanation
    ensures { IsExplanationOf fault result }
{
    match fault {
        AnyFault::Memory => files::no_memory(),
        AnyFault::Source(kind) => source_explanation(kind),
        AnyFault::Object(fault) => object_explanation(fault),
        AnyFault::Command(fault) => command_explanation(fault),
        AnyFault::Link(fault) => link_explanation(fault),
        AnyFault::Map => written_texts::bad_map(),
        AnyFault::Rom => linking::past_rom(),
        AnyFault::Hex(fault) => hex_explanation(fault),
        AnyFault::Schedule => run_files::bad_schedule(),
        AnyFault::Samples => run_files::bad_samples(),
        AnyFault::Script => run_files::bad_command(),
        AnyFault::Hint => images::bad_hint(),
        AnyFault::OddLength => images::odd_length(),
        AnyFault::LengthsDiffer => images::lengths_differ(),
        AnyFault::TooLong => images::too_long(),
        AnyFault::TooManySections => images::too_many_sections(),
        AnyFault::File(kind) => file_explanation(kind),
    }
}
