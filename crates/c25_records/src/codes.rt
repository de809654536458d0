//! The numbers in a record, written and read: the tags of records, and the codes of kinds, scopes,
//! fields, bases and versions.

ghost use Rattle.std.specs.Prelude.{◌≡◌};
ghost use Rattle.c25_meaning_objects.specs.Records as bytes;
ghost use Rattle.c25_meaning_objects.specs.RecordReading as reading;
ghost use Rattle.c25_module.specs.View.{body_data};

use c25_meaning_common::relocation::RelocationKind;
use c25_meaning_objects::object::{ObjectFault, RelocationBase, Scope, SymbolKind, Version};
use c25_module::Body;

/// The tag of a section's record.
pub(crate) const SECTION_TAG: u8 = 1;

/// The tag of a mark's record.
pub(crate) const MARK_TAG: u8 = 2;

/// The tag of a symbol's record.
pub(crate) const SYMBOL_TAG: u8 = 3;

/// The tag of a relocation's record.
pub(crate) const RELOCATION_TAG: u8 = 4;

/// The tag of a file's record.
pub(crate) const FILE_TAG: u8 = 5;

/// The tag of a line's record.
pub(crate) const LINE_TAG: u8 = 6;

/// The tag of a block's record.
pub(crate) const BLOCK_TAG: u8 = 7;

/// The tag of the last record, which has no payload.
pub(crate) const LAST_TAG: u8 = 255;

/// The flag of a section: 0 where it is uninitialised, 1 where it has words.
pub(crate) fn body_flag(body: &Body) -> u8
    ensures { result ≡ bytes.body_flag (body_data body.now) }
{
    match body {
        Body::Uninitialised(_) => 0,
        Body::Initialised(_) => 1,
    }
}

/// The code of a symbol's kind.
pub(crate) fn kind_code(kind: SymbolKind) -> u8
    ensures { result ≡ bytes.kind_code kind }
{
    match kind {
        SymbolKind::Absolute => 0,
        SymbolKind::InSection(_) => 1,
        SymbolKind::External => 2,
        SymbolKind::Loaded(_) => 3,
    }
}

/// The number of the section that a symbol's kind names, 0 where it names none.
pub(crate) fn kind_section(kind: SymbolKind) -> u16
    ensures { result ≡ bytes.kind_section kind }
{
    match kind {
        SymbolKind::InSection(number) | SymbolKind::Loaded(number) => number,
        SymbolKind::Absolute | SymbolKind::External => 0,
    }
}

/// The kind of a symbol by its code and the number of its section; `None` for another code, and where
/// a kind without a section has a number.
pub(crate) fn kind_of(code: u8, section: u16) -> Option<SymbolKind>
    ensures { result ≡ reading.kind_of code section }
{
    match code {
        1 => Some(SymbolKind::InSection(section)),
        0 if section == 0 => Some(SymbolKind::Absolute),
        2 if section == 0 => Some(SymbolKind::External),
        3 => Some(SymbolKind::Loaded(section)),
        _ => None,
    }
}

/// The code of a scope.
pub(crate) fn scope_code(scope: Scope) -> u8
    ensures { result ≡ bytes.scope_code scope }
{
    match scope {
        Scope::Local => 0,
        Scope::Global => 1,
    }
}

/// The scope of a code; `None` for another code.
pub(crate) fn scope_of(code: u8) -> Option<Scope>
    ensures { result ≡ reading.scope_of code }
{
    match code {
        0 => Some(Scope::Local),
        1 => Some(Scope::Global),
        _ => None,
    }
}

/// The code of the field that a relocation fills.
pub(crate) fn field_code(kind: RelocationKind) -> u8
    ensures { result ≡ bytes.field_code kind }
{
    match kind {
        RelocationKind::Word16 => 1,
        RelocationKind::Low7 => 2,
        RelocationKind::Page9 => 3,
    }
}

/// The field of a code; `None` for another code.
pub(crate) fn field_of(code: u8) -> Option<RelocationKind>
    ensures { result ≡ reading.field_of code }
{
    match code {
        1 => Some(RelocationKind::Word16),
        2 => Some(RelocationKind::Low7),
        3 => Some(RelocationKind::Page9),
        _ => None,
    }
}

/// The code of a relocation's base.
pub(crate) fn base_code(base: RelocationBase) -> u8
    ensures { result ≡ bytes.base_code base }
{
    match base {
        RelocationBase::Section(_) => 0,
        RelocationBase::External(_) => 1,
        RelocationBase::Loaded(_) => 2,
    }
}

/// The number of the section or symbol that a relocation counts from.
pub(crate) fn base_index(base: RelocationBase) -> u16
    ensures { result ≡ bytes.base_index base }
{
    match base {
        RelocationBase::Section(number) => number,
        RelocationBase::External(number) => number,
        RelocationBase::Loaded(number) => number,
    }
}

/// The base of a relocation by its code and the number of its section or symbol; `None` for another
/// code.
pub(crate) fn base_of(code: u8, index: u16) -> Option<RelocationBase>
    ensures { result ≡ reading.base_of code index }
{
    match code {
        0 => Some(RelocationBase::Section(index)),
        1 => Some(RelocationBase::External(index)),
        2 => Some(RelocationBase::Loaded(index)),
        _ => None,
    }
}

/// The byte of a version.
pub(crate) fn version_code(version: Version) -> u8
    ensures { result ≡ bytes.version_code version }
{
    match version {
        Version::One => 1,
        Version::Two => 2,
    }
}

/// The version of a byte; `BadVersion` for another byte.
pub(crate) fn version_of(byte: u8) -> Result<Version, ObjectFault>
    ensures { result ≡ reading.version_of byte }
{
    match byte {
        1 => Ok(Version::One),
        2 => Ok(Version::Two),
        _ => Err(ObjectFault::BadVersion),
    }
}
