//! Words with what belongs to them: what to write in place of a word, the operands of a directive.

ghost use Rattle.std.specs.Prelude.{◌≡◌, IfOk, map};
ghost use Rattle.std.specs.Option.{option_map};
ghost use Rattle.c25_hints.specs.Tables as tables;

use c25_meaning_common::bytes::byte_at;
use c25_meaning_common::no_memory::NoMemory;
use std::alloc::Global;

/// A word and its text.
type Row = (&'static str, &'static str);

/// Words of other assemblers, and what is written here in their place.
static INSTEAD: [Row; 44] = [
    ("DATA", ".word"),
    ("TEXT", ".string"),
    ("BES", ".space, and after it a .set of $-1"),
    ("AORG", ".sect, and an address in the command file"),
    ("DORG", ".usect, and an address in the command file"),
    ("ORG", ".sect, and an address in the command file"),
    ("PSEG", ".text"),
    ("RORG", ".text"),
    ("DSEG", ".data"),
    ("CSEG", ".sect"),
    ("PEND", ".text"),
    ("DEND", ".text"),
    ("CEND", ".text"),
    ("SREF", ".ref"),
    ("MLIB", ".copy of a file of macros"),
    ("ASMIF", ".if"),
    ("ASMELS", ".else"),
    ("ASMEND", ".endif"),
    ("$MACRO", ".macro"),
    ("$END", ".endm"),
    ("$EXIT", ".mexit"),
    ("IDT", ".title"),
    ("TITL", ".title"),
    ("UNL", ".nolist"),
    (
        ".long",
        ".word n&0FFFFh,n>>16: TI's .long has the low half first",
    ),
    (".float", ".word with the words, worked out beforehand"),
    (".bfloat", ".word with the words, worked out beforehand"),
    (".field", ".word with the fields, shifted and joined by |"),
    (".asect", ".sect, and an address in the command file"),
    (".org", ".sect, and an address in the command file"),
    (".align", ".sect, and an address in the command file"),
    (".even", "nothing: each place is a word"),
    (".bes", ".space, and after it a .set of $-1"),
    (".newblock", "nothing, and names for local labels"),
    (".mlib", ".copy of a file of macros"),
    (".var", "one more parameter, which callers leave out"),
    (".emsg", "nothing: it has no effect on words"),
    (".mmsg", "nothing: it has no effect on words"),
    (".wmsg", "nothing: it has no effect on words"),
    (".tab", "nothing: it has no effect on words"),
    (".port", "nothing: it has no effect on words"),
    (".version", "nothing: it has no effect on words"),
    (".drlist", "nothing: it has no effect on words"),
    (".drnolist", "nothing: it has no effect on words"),
];

/// The directives with their operands.
static DIRECTIVE_FORMS: [Row; 45] = [
    (".text", ""),
    (".data", ""),
    (".sect", "section"),
    (".bss", "name,words[,flag]"),
    (".usect", "section,words"),
    (".word", "value[,value]"),
    (".int", "value[,value]"),
    (".byte", "value[,value]"),
    (".string", "\"text\"[,\"text\"]"),
    (".space", "bits"),
    (".set", "value"),
    (".equ", "value"),
    (".global", "name[,name]"),
    (".ref", "name[,name]"),
    (".def", "name[,name]"),
    (".label", "name"),
    (".mmregs", ""),
    (".title", "\"text\""),
    (".list", ""),
    (".nolist", ""),
    (".page", ""),
    (".width", "columns"),
    (".length", "lines"),
    (".option", "letter[,letter]"),
    (".mlist", ""),
    (".mnolist", ""),
    (".fclist", ""),
    (".fcnolist", ""),
    (".sslist", ""),
    (".ssnolist", ""),
    (".if", "value"),
    (".elseif", "value"),
    (".else", ""),
    (".endif", ""),
    (".macro", "[parameter,..]"),
    (".endm", ""),
    (".mexit", ""),
    (".loop", "[count]"),
    (".break", "[value]"),
    (".endloop", ""),
    (".asg", "text,name"),
    (".eval", "value,name"),
    (".copy", "\"file\""),
    (".include", "\"file\""),
    (".end", ""),
];

/// What takes a longer number.
static LONGER: [Row; 5] = [
    ("LACK", "LALK"),
    ("LARK", "LRLK"),
    ("ADDK", "ADLK"),
    ("SUBK", "SBLK"),
    (".byte", ".word"),
];

/// Whether two words have the same letters, in either case.
#[tactic(auto, unfolding(crate::specs::Tables::is_spelled))]
pub(crate) fn is_spelled(word: &[u8], name: &[u8]) -> bool
    ensures { result ≡ tables.is_spelled word.now name.now }
{
    word.eq_ignore_ascii_case(name)
}

/// The text of a word, letters in either case.
#[tactic(auto, unfolding(crate::specs::Tables::text_in))]
fn text_in(rows: &[Row], word: &str) -> Option<&'static str>
    ensures { option_map (λ t. t.now) result ≡ tables.text_in (tables.rows_of rows.now) word.now }
{
    for (name, text) in rows {
        if is_spelled(word.as_bytes(), name.as_bytes()) {
            return Some(text);
        }
    }
    None
}

/// What is written here in place of a word of another assembler.
pub(crate) fn instead_of(word: &str) -> Option<&'static str>
    ensures { option_map (λ t. t.now) result ≡ tables.text_in tables.instead word.now }
{
    text_in(&INSTEAD, word)
}

/// The operands of a directive.
pub(crate) fn form_of(directive: &str) -> Option<&'static str>
    ensures { option_map (λ t. t.now) result ≡ tables.text_in tables.directive_forms directive.now }
{
    text_in(&DIRECTIVE_FORMS, directive)
}

/// What takes a longer number than this.
pub(crate) fn longer_than(word: &str) -> Option<&'static str>
    ensures { option_map (λ t. t.now) result ≡ tables.text_in tables.longer word.now }
{
    text_in(&LONGER, word)
}

/// Whether a name is a dot and this word after it, letters in either case.
fn lacks_dot(word: &str, name: &str) -> bool
    ensures { result ≡ tables.lacks_dot word.now name.now }
{
    let name = name.as_bytes();
    byte_at(name, 0) == b'.' && is_spelled(&name[1..], word.as_bytes())
}

/// Whether a directive that has this text for its operands may be meant, where a line has operands or has none.
fn may_have(operands: bool, form: &str) -> bool
    ensures { result ≡ tables.may_have operands form.now }
{
    operands || form.is_empty()
}

/// Whether a word is a directive of these rows without its dot.
fn any_without_dot(rows: &[Row], operands: bool, word: &str) -> bool
    ensures { result ≡ tables.is_without_dot (tables.rows_of rows.now) operands word.now }
{
    for (name, form) in rows {
        if lacks_dot(word, name) && may_have(operands, form) {
            return true;
        }
    }
    false
}

/// Whether a word is a directive without its dot, by whether operands follow it.
pub(crate) fn is_without_dot(operands: bool, word: &str) -> bool
    ensures { result ≡ tables.is_without_dot tables.directive_forms operands word.now }
{
    any_without_dot(&DIRECTIVE_FORMS, operands, word)
}

/// The names of rows.
fn names_of(alloc: Global, rows: &[Row]) -> Result<Vec<&'static str>, NoMemory>
    ensures { IfOk result (λ v. map (λ n. n.now) v.items ≡ map (λ r. r.0) (tables.rows_of rows.now)) }
{
    let mut names = Vec::new(alloc);
    for (name, _) in rows {
        names.push(*name)?;
    }
    Ok(names)
}

/// The names of the directives.
pub(crate) fn directive_names(alloc: Global) -> Result<Vec<&'static str>, NoMemory>
    ensures { IfOk result (λ v. map (λ n. n.now) v.items ≡ map (λ r. r.0) tables.directive_forms) }
{
    names_of(alloc, &DIRECTIVE_FORMS)
}
