//! The payloads of marks, relocations, lines and blocks, read; each item is checked against the items before
//! it.

ghost use Rattle.std.specs.Prelude.{◌≡◌};
ghost use Rattle.c25_meaning_objects.specs.Module as spec;
ghost use Rattle.c25_meaning_objects.specs.RecordReading as reading;
ghost use Rattle.c25_meaning_common.specs.Results.{Meets};
ghost use Rattle.c25_module.specs.View.{sections_data, symbols_data, files_data};

use crate::codes::{base_of, field_of};
use crate::fields::{long_at, short_at, signed_at};
use c25_meaning_common::failure::Failure;
use c25_meaning_objects::object::{Block, LineMark, ModuleMark, ObjectFault, Relocation, Version};
use c25_module::{Section, Symbol, block_fits, line_fits, mark_fits, relocation_fits};

#[tactic(auto, unfolding(c25_meaning_objects::specs::RecordReading::mark_of))]
fn mark_of(bytes: &[u8]) -> Option<ModuleMark>
    ensures { result ≡ reading.mark_of bytes.now }
{
    if bytes.len() != 5 {
        return None;
    }
    Some(ModuleMark {
        section: short_at(bytes, 0),
        offset: short_at(bytes, 2),
        size: bytes[4],
    })
}

/// The mark of a payload; `BadField` where it has another form or may not follow the marks before it.
pub(crate) fn mark_after(
    sections: &[Section],
    before: &[ModuleMark],
    bytes: &[u8],
) -> Result<ModuleMark, Failure<ObjectFault>>
    ensures { Meets (λ m. m) (reading.checked (spec.mark_fits (sections_data sections.now) before.now) (reading.mark_of bytes.now)) result }
{
    let Some(mark) = mark_of(bytes) else {
        return Err(Failure::Fault(ObjectFault::BadField));
    };
    if !mark_fits(sections, before, &mark) {
        return Err(Failure::Fault(ObjectFault::BadField));
    }
    Ok(mark)
}

#[tactic(auto, unfolding(c25_meaning_objects::specs::RecordReading::relocation_of))]
fn relocation_of(bytes: &[u8]) -> Option<Relocation>
    ensures { result ≡ reading.relocation_of bytes.now }
{
    if bytes.len() != 12 {
        return None;
    }
    let kind = field_of(bytes[4])?;
    let base = base_of(bytes[5], short_at(bytes, 6))?;
    let (section, offset) = (short_at(bytes, 0), short_at(bytes, 2));
    Some(Relocation {
        section,
        offset,
        kind,
        base,
        addend: signed_at(bytes, 8),
    })
}

/// The relocation of a payload; `BadField` where it has another form or may not follow the relocations before
/// it.
pub(crate) fn relocation_after(
    version: Version,
    sections: &[Section],
    symbols: &[Symbol],
    before: &[Relocation],
    bytes: &[u8],
) -> Result<Relocation, Failure<ObjectFault>>
    ensures { Meets (λ r. r)
        (reading.checked (spec.relocation_fits version (sections_data sections.now) (symbols_data symbols.now) before.now) (reading.relocation_of bytes.now)) result }
{
    let Some(relocation) = relocation_of(bytes) else {
        return Err(Failure::Fault(ObjectFault::BadField));
    };
    if !relocation_fits(version, sections, symbols, before, &relocation) {
        return Err(Failure::Fault(ObjectFault::BadField));
    }
    Ok(relocation)
}

#[tactic(auto, unfolding(c25_meaning_objects::specs::RecordReading::line_of))]
fn line_of(bytes: &[u8]) -> Option<LineMark>
    ensures { result ≡ reading.line_of bytes.now }
{
    if bytes.len() != 6 {
        return None;
    }
    Some(LineMark {
        file: short_at(bytes, 0),
        line: long_at(bytes, 2),
    })
}

/// The line of a payload, where the lines before it use `used` files; `BadField` where it has another form or
/// may not follow them.
pub(crate) fn line_after(
    marks: &[ModuleMark],
    files: &[String],
    before: &[LineMark],
    used: u32,
    bytes: &[u8],
) -> Result<LineMark, Failure<ObjectFault>>
    requires { used ≡ spec.used before.now }
    ensures { Meets (λ l. l) (reading.checked (spec.line_fits marks.now (files_data files.now) before.now) (reading.line_of bytes.now)) result }
{
    let Some(line) = line_of(bytes) else {
        return Err(Failure::Fault(ObjectFault::BadField));
    };
    if !line_fits(marks, files, before, used, &line) {
        return Err(Failure::Fault(ObjectFault::BadField));
    }
    Ok(line)
}

#[tactic(auto, unfolding(c25_meaning_objects::specs::RecordReading::block_of))]
fn block_of(bytes: &[u8]) -> Option<Block>
    ensures { result ≡ reading.block_of bytes.now }
{
    if bytes.len() != 5 {
        return None;
    }
    Some(Block {
        section: short_at(bytes, 0),
        offset: short_at(bytes, 2),
        size: bytes[4],
    })
}

/// The block of a payload; `BadField` where it has another form or may not follow the blocks before it.
pub(crate) fn block_after(
    sections: &[Section],
    before: &[Block],
    bytes: &[u8],
) -> Result<Block, Failure<ObjectFault>>
    ensures { Meets (λ b. b) (reading.checked (spec.block_fits (sections_data sections.now) before.now) (reading.block_of bytes.now)) result }
{
    let Some(block) = block_of(bytes) else {
        return Err(Failure::Fault(ObjectFault::BadField));
    };
    if !block_fits(sections, before, &block) {
        return Err(Failure::Fault(ObjectFault::BadField));
    }
    Ok(block)
}
