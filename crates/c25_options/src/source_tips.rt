//! Tips on command lines that name a file in place of the subcommand, or no source after it.

ghost use Rattle.std.specs.List.{list_any};
ghost use Rattle.std.specs.Prelude.{◌≡◌, ◌==◌};
ghost use Rattle.c25_options.specs.SourceTips.{is_file, named_tip, source_tip, takes_sources};

/// Whether a word is the name of a file and of no subcommand: it has a dot.
fn is_file(word: &[u8]) -> bool
    ensures { result ≡ is_file word.now }
{
    word.iter().any(|byte| *byte == b'.')
}

/// The tip where this stands in place of the subcommand.
pub(crate) fn named_tip(name: &str) -> &'static str
    ensures { result.now ≡ named_tip name.now }
{
    if is_file(name.as_bytes()) {
        "\n  tip: the subcommand comes first: 'c25 run a.asm' runs the source a.asm\n"
    } else {
        ""
    }
}

/// Whether a subcommand takes sources.
fn takes_sources(name: &str) -> bool
    ensures { result ≡ takes_sources name.now }
{
    name == "run" || name == "asm" || name == "build" || name == "debug" || name == "check"
}

/// The tip where this is the subcommand, an argument is missing, and an operand stands there or not.
pub(crate) fn source_tip(name: &str, has_operand: bool) -> &'static str
    ensures { result.now ≡ source_tip name.now has_operand }
{
    if takes_sources(name) && !has_operand {
        "\n  tip: name the source after the subcommand, as in 'c25 run a.asm'\n"
    } else {
        ""
    }
}
