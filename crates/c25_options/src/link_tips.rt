//! Tips on command lines of which an argument is missing: of `link` where an object is named in place of the command file,
//! and of other subcommands where no source is named.

ghost use Rattle.std.specs.Option.{option_map};
ghost use Rattle.std.specs.Prelude.{◌≡◌, false, is_some, map, string_bytes};
ghost use Rattle.c25_options.specs.LinkTips.{is_object, is_option, is_output, missing_tip, object_tip, operand_in, subcommand_tip, words_tip};

use crate::source_tips::source_tip;
use c25_meaning_common::bytes::byte_at;

/// Whether a word begins with `-`.
fn is_option(word: &str) -> bool
    ensures { result ≡ is_option word.now }
{
    byte_at(word.as_bytes(), 0) == b'-'
}

/// Whether a word is the option of `link` that has its value in the next word.
fn is_output(word: &str) -> bool
    ensures { result ≡ is_output word.now }
{
    word == "-o" || word == "--out"
}

/// The first of these words that is neither an option nor the value of `--out`, and the words after it.
#[tactic(auto, unfolding(crate::specs::LinkTips::operand_in))]
pub(crate) fn operand_in(words: &[String]) -> Option<(&str, &[String])>
    ensures { option_map (λ operand. (operand.0.now, map string_bytes operand.1.now)) result ≡ operand_in false (map string_bytes words.now) }
{
    let mut is_value = false;
    for (at, word) in words.iter().enumerate() {
        if is_value {
            is_value = false;
        } else if is_output(word.as_str()) {
            is_value = true;
        } else if !is_option(word.as_str()) {
            return Some((word.as_str(), &words[at + 1..]));
        }
    }
    None
}

/// Whether a word is the name of an object, by its end.
fn is_object(word: &str) -> bool
    ensures { result ≡ is_object word.now }
{
    let bytes = word.as_bytes();
    let end = &bytes[bytes.len().saturating_sub(4)..];
    end.eq_ignore_ascii_case(".obj".as_bytes())
}

/// The tip where this is the first operand of `link`.
fn object_tip(first: &str) -> &'static str
    ensures { result.now ≡ object_tip first.now }
{
    if is_object(first) {
        "\n  tip: link takes the command file first, an empty one will do: 'c25 link FILE.cmd a.obj -o a'\n"
    } else {
        ""
    }
}

/// The tip where these words stand after `link`.
fn words_tip(words: &[String]) -> &'static str
    ensures { result.now ≡ words_tip (operand_in false (map string_bytes words.now)) }
{
    match operand_in(words) {
        Some((first, _)) => object_tip(first),
        None => "",
    }
}

/// The tip where this is the subcommand and these words stand after it.
fn subcommand_tip(name: &str, words: &[String]) -> &'static str
    ensures { result.now ≡ subcommand_tip name.now (map string_bytes words.now) }
{
    if name == "link" {
        words_tip(words)
    } else {
        source_tip(name, operand_in(words).is_some())
    }
}

/// The tip for arguments of which one is missing.
pub(crate) fn missing_tip(arguments: &[String]) -> &'static str
    ensures { result.now ≡ missing_tip (map string_bytes arguments.now) }
{
    match operand_in(arguments) {
        Some((name, words)) => subcommand_tip(name, words),
        None => "",
    }
}
