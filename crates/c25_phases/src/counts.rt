//! Limits of counts, and the numbers that values stand for as counts and flags.

ghost use Rattle.std.specs.Prelude.{◌≡◌, ◌<◌, ◌^◌, true, IfOk};
ghost use Rattle.c25_meaning_assembly.specs.Sections as meaning;
ghost use Rattle.c25_phases.specs.Sizes.{IsBlockSize};

use c25_meaning_language::statement::FaultKind;
use c25_meaning_language::value::{Base, Value};

/// The most words of a block.
const MOST_BLOCK_WORDS: u32 = 128;

/// The most bytes of the name of a file with instructions.
const LONGEST_FILE_NAME: usize = 65_535;

/// The count that a value stands for; `NotAbsolute` (23) where the value is an address, `ValueRange` (25)
/// where it is negative.
pub(crate) fn count_of(value: Value) -> Result<u32, FaultKind>
    ensures { result ≡ meaning.count_of value }
{
    match value.base {
        Base::Absolute => {
            if value.offset < 0 {
                Err(FaultKind::ValueRange)
            } else {
                Ok(value.offset as u32)
            }
        }
        Base::Section(_) | Base::Loaded(_) | Base::External(_) => Err(FaultKind::NotAbsolute),
    }
}

/// Whether a flag is set: its value is not 0; `NotAbsolute` (23) where the value is an address.
pub(crate) fn flag_of(value: Value) -> Result<bool, FaultKind>
    ensures { result ≡ meaning.flag_of value }
{
    match value.base {
        Base::Absolute => Ok(value.offset != 0),
        Base::Section(_) | Base::Loaded(_) | Base::External(_) => Err(FaultKind::NotAbsolute),
    }
}

/// Checks, where the flag is set, that there are 1 to 128 words; else `BadBlock` (56).
pub(crate) fn block_allowed(flag: bool, words: u32) -> Result<(), FaultKind>
    ensures told { result ≡ meaning.block_allowed flag words }
    ensures size { IfOk result (λ _. IsBlockSize flag words) }
{
    if flag && (words < 1 || words > MOST_BLOCK_WORDS) {
        Err(FaultKind::BadBlock)
    } else {
        Ok(())
    }
}

/// Whether a file's name is short enough for the records of a module.
pub(crate) fn is_file_name(name: &str) -> bool
    ensures { result ≡ meaning.is_file_name name.now }
{
    name.len() <= LONGEST_FILE_NAME
}

/// Whether the records of a module can hold a line's number: 1 to 4,294,967,295.
pub(crate) fn is_line_number(line: usize) -> bool
    ensures told { result ≡ meaning.is_line_number line }
    ensures small { result ≡ true → line < 2 ^ 32 }
{
    line >= 1 && line <= u32::MAX as usize
}
