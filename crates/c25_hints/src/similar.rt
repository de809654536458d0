//! Names that are spelled like a word that stands for nothing (22, 50).

ghost use Rattle.std.specs.Prelude.{◌≡◌, ◌++◌, IfOk, OnOk, map, string_bytes};
ghost use Rattle.std.specs.Option.{option_map, option_or};
ghost use Rattle.c25_hints.specs.Remark as remark;
ghost use Rattle.c25_hints.specs.Similar as similar;

use crate::cause::Cause;
use crate::hint::Hint;
use crate::tables::directive_names;
use crate::values::{self, defined_names, refused_name};
use c25_expr::Symbols;
use c25_meaning_common::bytes::byte_at;
use c25_meaning_common::no_memory::NoMemory;
use c25_meaning_language::statement::FaultKind;
use c25_text::line::first_word;
use std::alloc::Global;
use strsim::osa_distance;

/// The mnemonics, in the order of the opcode table.
static MNEMONICS: [&str; 133] = [
    "MPY", "SQRA", "MPYA", "MPYS", "LT", "LTA", "LTP", "LTD", "ZALH", "ZALS", "LACT", "ADDC",
    "SUBH", "SUBS", "SUBT", "SUBC", "ADDH", "ADDS", "ADDT", "RPT", "XOR", "OR", "AND", "SUBB",
    "LST", "LST1", "LDP", "LPH", "PSHD", "MAR", "DMOV", "BITT", "TBLR", "TBLW", "SQRS", "LTS",
    "SST", "SST1", "POPD", "ZALR", "SPL", "SPH", "MPYU", "ADD", "SUB", "LAC", "SACL", "SACH",
    "LAR", "SAR", "IN", "OUT", "BIT", "ADRK", "SBRK", "LARK", "LACK", "RPTK", "ADDK", "SUBK",
    "LDPK", "MPYK", "LRLK", "LALK", "ADLK", "SBLK", "ANDK", "ORK", "XORK", "MACD", "MAC", "BLKP",
    "BLKD", "BC", "BNC", "BV", "BGZ", "BLEZ", "BLZ", "BGEZ", "BNZ", "BZ", "BNV", "BBZ", "BBNZ",
    "BIOZ", "BANZ", "CALL", "B", "EINT", "DINT", "ROVM", "SOVM", "CNFD", "CNFP", "RSXM", "SSXM",
    "RXF", "SXF", "PAC", "APAC", "SPAC", "SFL", "SFR", "ABS", "PUSH", "POP", "TRAP", "IDLE",
    "RTXM", "STXM", "NEG", "CALA", "BACC", "RET", "CMPL", "RC", "SC", "RTC", "STC", "ROL", "ROR",
    "RFSM", "SFSM", "RHM", "SHM", "SPM", "FORT", "CMPR", "NORM", "ZAC", "NOP", "LARP",
];

/// Whether so many steps lead from a word to a name, and are at most half as many as the word has bytes.
fn is_near(alloc: Global, count: usize, word: &str, name: &str) -> Result<bool, NoMemory>
    ensures { IfOk result (λ b. b ≡ similar.is_near count word.now name.now) }
{
    let letters = word.to_ascii_lowercase(alloc)?;
    let others = name.to_ascii_lowercase(alloc)?;
    let steps = osa_distance(alloc, letters.as_str(), others.as_str())?;
    Ok(steps == count && count <= word.len() / 2)
}

/// Appends the names to which so many steps lead.
fn push_near<'a>(
    found: &mut Vec<&'a str>,
    alloc: Global,
    count: usize,
    word: &str,
    names: &[&'a str],
) -> Result<(), NoMemory>
    ensures { OnOk result (map (λ n. n.now) found.new.items ≡ map (λ n. n.now) found.old.items ++ similar.near count word.now (map (λ n. n.now) names.now)) }
{
    for name in names {
        if is_near(alloc, count, word, name)? {
            found.push(*name)?;
        }
    }
    Ok(())
}

/// Up to three names to which one step or two lead.
fn similar_to<'a>(alloc: Global, word: &str, names: &[&'a str]) -> Result<Vec<&'a str>, NoMemory>
    ensures { IfOk result (λ v. map (λ n. n.now) v.items ≡ similar.similar word.now (map (λ n. n.now) names.now)) }
{
    let mut found = Vec::new(alloc);
    push_near(&mut found, alloc, 1, word, names)?;
    push_near(&mut found, alloc, 2, word, names)?;
    found.truncate(3);
    Ok(found)
}

/// The text of the remark that lists these names.
#[tactic(auto, using(crate::proofs::Joined::joined_names))]
fn listed(alloc: Global, names: &[&str]) -> Result<String, NoMemory>
    ensures { IfOk result (λ text. string_bytes text ≡ remark.text_of (similar.of_joined (map (λ n. n.now) names.now))) }
{
    let more = names.join(alloc, ", ")?;
    let hint = Hint {
        cause: Cause::Similar,
        word: "",
        more: more.as_str(),
    };
    hint.text(alloc)
}

/// The text of the remark that lists these names, if there are any.
fn list(alloc: Global, names: &[&str]) -> Result<Option<String>, NoMemory>
    ensures { IfOk result (λ o. option_map string_bytes o ≡ option_map remark.text_of (similar.of_names (map (λ n. n.now) names.now))) }
{
    match names {
        [] => Ok(None),
        _ => Ok(Some(listed(alloc, names)?)),
    }
}

/// The text of the remark that lists names like a word, if there are any.
fn text_of(alloc: Global, word: &str, names: &[&str]) -> Result<Option<String>, NoMemory>
    ensures { IfOk result (λ o. option_map string_bytes o ≡ option_map remark.text_of (similar.of_names (similar.similar word.now (map (λ n. n.now) names.now)))) }
{
    let found = similar_to(alloc, word, names)?;
    list(alloc, found.as_slice())
}

/// The mnemonics, in the order of the opcode table.
#[tactic(auto, unfolding(crate::specs::Similar::mnemonics, c25_meaning_instructions::specs::Spellings::spellings))]
fn mnemonics() -> &'static [&'static str]
    ensures { map (λ n. n.now) result.now ≡ similar.mnemonics }
{
    &MNEMONICS
}

/// These macros, and the mnemonics.
fn with_mnemonics<'a>(alloc: Global, macros: &[&'a str]) -> Result<Vec<&'a str>, NoMemory>
    ensures { IfOk result (λ v. map (λ n. n.now) v.items ≡ map (λ n. n.now) macros.now ++ similar.mnemonics) }
{
    let mut names = macros.to_vec(alloc)?;
    names.extend_from_slice(mnemonics())?;
    Ok(names)
}

/// The text of the remark that lists directives for a word with a dot, else these macros and mnemonics.
fn text_of_operations(
    alloc: Global,
    word: &str,
    macros: &[&str],
) -> Result<Option<String>, NoMemory>
    ensures { IfOk result (λ o. option_map string_bytes o ≡ option_map remark.text_of (similar.of_names (similar.similar word.now (similar.operations (map (λ n. n.now) macros.now) word.now)))) }
{
    if byte_at(word.as_bytes(), 0) == b'.' {
        let directives = directive_names(alloc)?;
        text_of(alloc, word, directives.as_slice())
    } else {
        let names = with_mnemonics(alloc, macros)?;
        text_of(alloc, word, names.as_slice())
    }
}

/// The text of the remark on the first word of a line, where there are these macros.
fn on_word(alloc: Global, text: &str, macros: &[&str]) -> Result<Option<String>, NoMemory>
    ensures { IfOk result (λ o. option_map string_bytes o ≡ option_map remark.text_of (similar.of_first_word text.now (map (λ n. n.now) macros.now))) }
{
    match first_word(text) {
        Some(word) => text_of_operations(alloc, word, macros),
        None => Ok(None),
    }
}

/// The text of the remark that lists symbols like the name of a line that stands for nothing.
fn like_name(alloc: Global, text: &str, symbols: &Symbols) -> Result<Option<String>, NoMemory>
    ensures { IfOk result (λ o. option_map string_bytes o ≡ option_map remark.text_of (similar.of_refused_name text.now symbols.now)) }
{
    let names = defined_names(alloc, symbols)?;
    match refused_name(alloc, text, symbols)? {
        Some(name) => text_of(alloc, name, names.as_slice()),
        None => Ok(None),
    }
}

/// The remark on the name of a line that stands for nothing: its value is needed at once, or nothing defines it.
fn of_no_value<'a>(
    alloc: Global,
    text: &'a str,
    symbols: &Symbols,
) -> Result<Option<Hint<'a>>, NoMemory>
    ensures { IfOk result (λ o. option_map remark.remark_of o ≡ similar.of_no_value text.now symbols.now) }
{
    match values::needed_at_once(alloc, text, symbols)? {
        Some(hint) => Ok(Some(hint)),
        None => values::nowhere_defined(alloc, text, symbols),
    }
}

/// The text of that remark.
fn no_value(alloc: Global, text: &str, symbols: &Symbols) -> Result<Option<String>, NoMemory>
    ensures { IfOk result (λ o. option_map string_bytes o ≡ option_map remark.text_of (similar.of_no_value text.now symbols.now)) }
{
    match of_no_value(alloc, text, symbols)? {
        Some(hint) => Ok(Some(hint.text(alloc)?)),
        None => Ok(None),
    }
}

/// The text of the remark on a name of a line that stands for nothing.
fn on_name(alloc: Global, text: &str, symbols: &Symbols) -> Result<Option<String>, NoMemory>
    ensures { IfOk result (λ o. option_map string_bytes o ≡ option_map remark.text_of (option_or (similar.of_refused_name text.now symbols.now) (similar.of_no_value text.now symbols.now))) }
{
    match like_name(alloc, text, symbols)? {
        Some(remark) => Ok(Some(remark)),
        None => no_value(alloc, text, symbols),
    }
}

/// The text of the remark on a line with this fault that lists names like the word that is refused, these macros
/// among them, or says why it has no value.
pub(crate) fn on_line(
    alloc: Global,
    text: &str,
    kind: FaultKind,
    symbols: &Symbols,
    macros: &[&str],
) -> Result<Option<String>, NoMemory>
    ensures { IfOk result (λ o. option_map string_bytes o ≡ option_map remark.text_of (similar.of_similar text.now kind symbols.now (map (λ n. n.now) macros.now))) }
{
    match kind {
        FaultKind::UnknownMnemonic => on_word(alloc, text, macros),
        FaultKind::Undefined => on_name(alloc, text, symbols),
        _ => Ok(None),
    }
}
