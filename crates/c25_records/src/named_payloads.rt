//! The payloads of sections, symbols and files, read; each item is checked against the items before it.

ghost use Rattle.std.specs.Prelude.{◌≡◌, ◌&&◌, not, nat_lt, true, length, ◌++◌, [], ◌∷◌, Some, IfOk, IfErr, string_bytes};
ghost use Rattle.std.specs.Option.{ok_or, option_map};
ghost use Rattle.std.specs.Str.{IsUtf8};
ghost use Rattle.c25_meaning_objects.specs.Module as spec;
ghost use Rattle.c25_meaning_objects.specs.RecordReading as reading;
ghost use Rattle.c25_records.specs.Names.{HasNames, HasFiles};
ghost use Rattle.c25_meaning_common.specs.Results.{IsNoMemory, Meets};
ghost use Rattle.c25_module.specs.View.{body_data, contents, section_data, symbol_data, sections_data, symbols_data, files_data};

use crate::codes::{kind_of, scope_of};
use crate::fields::{long_at, short_at, signed_at};
use c25_meaning_common::failure::Failure;
use c25_meaning_objects::object::{ObjectFault, Scope, SymbolKind};
use c25_module::{
    Body, MAX_SYMBOLS, Parts, Section, Symbol, is_section_name, is_symbol_name, section_fits,
    symbol_stands,
};
use std::alloc::Global;
use std::collections::HashSet;

fn text_of(bytes: &[u8]) -> &str
    requires { IsUtf8 bytes.now }
    ensures { result.now ≡ bytes.now }
{
    match str::from_utf8(bytes) {
        Ok(text) => text,
        Err(_) => unreachable!(),
    }
}

/// The fields of a symbol's payload; the name is still bytes.
#[derive(Clone, Copy)]
struct SymbolRecord<'a> {
    kind: SymbolKind,
    scope: Scope,
    value: i32,
    name: &'a [u8],
}

#[tactic(auto, unfolding(c25_meaning_objects::specs::RecordReading::symbol_of))]
fn symbol_of(bytes: &[u8]) -> Option<SymbolRecord<'_>>
    ensures { option_map (λ r. record { kind = r.kind; scope = r.scope; value = r.value; name = r.name.now }) result ≡ reading.symbol_of bytes.now }
{
    if bytes.len() < 9 {
        return None;
    }
    let name = &bytes[9..];
    if bytes[8] as usize != name.len() {
        return None;
    }
    let kind = kind_of(bytes[0], short_at(bytes, 2))?;
    let scope = scope_of(bytes[1])?;
    Some(SymbolRecord {
        kind,
        scope,
        value: signed_at(bytes, 4),
        name,
    })
}

/// Whether a symbol of a name may follow these symbols; the name joins `names`, the set of their names.
fn takes_name<'a>(
    before: &[Symbol],
    names: &mut HashSet<&'a str>,
    name: &'a str,
) -> Result<bool, Failure<ObjectFault>>
    requires { HasNames (λ k. k.now) names.old (symbols_data before.now) }
    ensures answer { IfOk result (λ takes. takes ≡ (not (spec.has_symbol (symbols_data before.now) name.now) && nat_lt (length before.now) 65535)) }
    ensures named { IfOk result (λ takes. takes ≡ true → (y : spec.SymbolData) → y.name ≡ name.now → HasNames (λ k. k.now) names.new (symbols_data before.now ++ y ∷ [])) }
    ensures error { IfErr result IsNoMemory }
{
    Ok(before.len() < MAX_SYMBOLS && names.insert(name)?)
}

/// The symbol of a payload; `BadField` where it has another form or may not follow the sections and symbols
/// before it. Its name joins `names`.
pub(crate) fn symbol_after<'a>(
    alloc: Global,
    before: &Parts,
    names: &mut HashSet<&'a str>,
    bytes: &'a [u8],
) -> Result<Symbol, Failure<ObjectFault>>
    requires { HasNames (λ k. k.now) names.old (contents before.now).symbols }
    ensures given { Meets symbol_data
        (reading.checked (spec.symbol_fits before.now.version (contents before.now).sections (contents before.now).symbols) (reading.symbol_of bytes.now)) result }
    ensures named { IfOk result (λ y. HasNames (λ k. k.now) names.new ((contents before.now).symbols ++ symbol_data y ∷ [])) }
{
    let Some(found) = symbol_of(bytes) else {
        return Err(Failure::Fault(ObjectFault::BadField));
    };
    if !is_symbol_name(found.name) {
        return Err(Failure::Fault(ObjectFault::BadField));
    }
    let name = text_of(found.name);
    let symbol = Symbol {
        kind: found.kind,
        scope: found.scope,
        value: found.value,
        name: String::from_str(alloc, name)?,
    };
    if !symbol_stands(before.version, &before.sections, &symbol) {
        return Err(Failure::Fault(ObjectFault::BadField));
    }
    if !takes_name(&before.symbols, names, name)? {
        return Err(Failure::Fault(ObjectFault::BadField));
    }
    Ok(symbol)
}

#[tactic(auto, unfolding(c25_meaning_objects::specs::RecordReading::words_in))]
fn words_in(alloc: Global, bytes: &[u8]) -> Result<Vec<u16>, Failure<ObjectFault>>
    ensures { Meets (λ words. words.items) (ok_or (reading.words_in bytes.now) ObjectFault.BadField) result }
{
    let mut words = Vec::new(alloc);
    let mut rest = bytes;
    while let [high, low, after @ ..] = rest {
        words.push(u16::from_be_bytes([*high, *low]))?;
        rest = after;
    }
    if !rest.is_empty() {
        return Err(Failure::Fault(ObjectFault::BadField));
    }
    Ok(words)
}

fn body_of(alloc: Global, flag: u8, bytes: &[u8]) -> Result<Body, Failure<ObjectFault>>
    ensures { Meets body_data (ok_or (reading.body_of flag bytes.now) ObjectFault.BadField) result }
{
    if bytes.len() < 4 {
        return Err(Failure::Fault(ObjectFault::BadField));
    }
    let size = long_at(bytes, 0);
    match flag {
        0 if bytes.len() == 4 => Ok(Body::Uninitialised(size)),
        1 => {
            let words = words_in(alloc, &bytes[4..])?;
            if words.len() != size as usize {
                return Err(Failure::Fault(ObjectFault::BadField));
            }
            Ok(Body::Initialised(words))
        }
        _ => Err(Failure::Fault(ObjectFault::BadField)),
    }
}

/// The bytes of the name and the body in a section's payload.
#[tactic(auto, unfolding(c25_meaning_objects::specs::RecordReading::section_of))]
fn section_of(alloc: Global, bytes: &[u8]) -> Result<(&[u8], Body), Failure<ObjectFault>>
    ensures { Meets (λ s. record { name = s.0.now; body = body_data s.1 }) (ok_or (reading.section_of bytes.now) ObjectFault.BadField) result }
{
    if bytes.len() < 2 {
        return Err(Failure::Fault(ObjectFault::BadField));
    }
    let rest = &bytes[2..];
    let len = bytes[1] as usize;
    if rest.len() < len {
        return Err(Failure::Fault(ObjectFault::BadField));
    }
    let (name, rest) = rest.split_at(len);
    let body = body_of(alloc, bytes[0], rest)?;
    Ok((name, body))
}

/// The section of a payload; `BadField` where it has another form or may not follow the sections before it.
pub(crate) fn section_after(
    alloc: Global,
    before: &[Section],
    bytes: &[u8],
) -> Result<Section, Failure<ObjectFault>>
    ensures { Meets section_data
        (reading.checked (spec.section_fits (sections_data before.now)) (reading.section_of bytes.now)) result }
{
    let (name, body) = section_of(alloc, bytes)?;
    if !is_section_name(name) {
        return Err(Failure::Fault(ObjectFault::BadField));
    }
    let name = String::from_str(alloc, text_of(name))?;
    let section = Section { name, body };
    if !section_fits(before, &section) {
        return Err(Failure::Fault(ObjectFault::BadField));
    }
    Ok(section)
}

/// The name of a file that a payload is; `BadField` where it is not UTF-8, too long, or the name of a file
/// before it. The name joins `names`.
pub(crate) fn file_after<'a>(
    alloc: Global,
    before: &[String],
    names: &mut HashSet<&'a str>,
    bytes: &'a [u8],
) -> Result<String, Failure<ObjectFault>>
    requires { HasFiles (λ k. k.now) names.old (files_data before.now) }
    ensures given { Meets string_bytes (reading.checked (spec.file_fits (files_data before.now)) (Some bytes.now)) result }
    ensures named { IfOk result (λ f. HasFiles (λ k. k.now) names.new (files_data before.now ++ string_bytes f ∷ [])) }
{
    let name = match str::from_utf8(bytes) {
        Ok(name) => name,
        Err(_) => return Err(Failure::Fault(ObjectFault::BadField)),
    };
    if bytes.len() >= 1 << 32 {
        return Err(Failure::Fault(ObjectFault::BadField));
    }
    if !names.insert(name)? {
        return Err(Failure::Fault(ObjectFault::BadField));
    }
    Ok(String::from_str(alloc, name)?)
}
