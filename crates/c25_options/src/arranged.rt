//! The order in which the words of a command line are read.

ghost use Rattle.std.specs.Prelude.{◌≡◌, ◌≤◌, ◌<◌, ◌++◌, ◌∷◌, [], IfErr, IfOk, OnOk, codes, length, map, min, string_bytes};
ghost use Rattle.c25_options.specs.Arranged.{IsArranged, AreArranged, asking_help, moved, flags_in_front, is_fault_flag};

use c25_meaning_common::no_memory::NoMemory;
use std::alloc::Global;

/// Whether a word is one of the flags that may stand before the subcommand.
fn is_fault_flag(word: &str) -> bool
    ensures { result ≡ is_fault_flag word.now }
{
    word == "--explain" || word == "--all"
}

/// How many of these flags stand before the subcommand.
fn flags_in_front(arguments: &[String]) -> usize
    ensures count { result ≡ flags_in_front (map string_bytes arguments.now) }
    ensures bound { result ≤ length arguments.now }
{
    let mut count = 0;
    for argument in arguments {
        if !is_fault_flag(argument.as_str()) {
            return count;
        }
        count += 1;
    }
    count
}

/// Appends copies of words.
fn push_words(alloc: Global, words: &mut Vec<String>, more: &[String]) -> Result<(), NoMemory>
    ensures { OnOk result (map string_bytes words.new.items ≡ map string_bytes words.old.items ++ map string_bytes more.now) }
{
    for word in more {
        words.push(String::from_str(alloc, word.as_str())?)?;
    }
    Ok(())
}

/// Copies of the words of lists, one list after the other.
fn joined(
    alloc: Global,
    first: &[String],
    second: &[String],
    third: &[String],
    fourth: &[String],
) -> Result<Vec<String>, NoMemory>
    ensures { IfOk result (λ words. map string_bytes words.items ≡ map string_bytes first.now ++ map string_bytes second.now ++ map string_bytes third.now ++ map string_bytes fourth.now) }
{
    let mut words = Vec::new(alloc);
    push_words(alloc, &mut words, first)?;
    push_words(alloc, &mut words, second)?;
    push_words(alloc, &mut words, third)?;
    push_words(alloc, &mut words, fourth)?;
    Ok(words)
}

/// The program's name, and then the arguments with the first `count` of them after the one that follows them.
fn moved(
    alloc: Global,
    name: &[String],
    arguments: &[String],
    count: usize,
) -> Result<Vec<String>, NoMemory>
    requires { count < length arguments.now }
    ensures { IfOk result (λ words. map string_bytes words.items ≡ map string_bytes name.now ++ moved count (map string_bytes arguments.now)) }
{
    let (flags, rest) = arguments.split_at(count);
    let (subcommand, rest) = rest.split_at(1);
    joined(alloc, name, subcommand, flags, rest)
}

/// The number of subcommands in the words after `help`: one, or none where there are no words.
fn topics(topic: &[String]) -> usize
    ensures { result ≡ min (length topic.now) 1 }
{
    if topic.is_empty() { 0 } else { 1 }
}

/// The word `--help` alone.
fn help_word(alloc: Global) -> Result<Vec<String>, NoMemory>
    ensures { IfOk result (λ words. map string_bytes words.items ≡ codes "--help" ∷ []) }
{
    let mut words = Vec::new(alloc);
    words.push(String::from_str(alloc, "--help")?)?;
    Ok(words)
}

/// The program's name, and then the request for the help of a subcommand, or of the program.
fn asking_help(alloc: Global, name: &[String], topic: &[String]) -> Result<Vec<String>, NoMemory>
    ensures { IfOk result (λ words. map string_bytes words.items ≡ map string_bytes name.now ++ asking_help (map string_bytes topic.now)) }
{
    let help = help_word(alloc)?;
    let (subcommand, rest) = topic.split_at(topics(topic));
    joined(alloc, name, subcommand, &help, rest)
}

/// The words in the order in which they are read, of the program's name and the arguments after it. `None`
/// where the arguments are read as they stand.
fn arranged_words(
    alloc: Global,
    name: &[String],
    arguments: &[String],
) -> Result<Option<Vec<String>>, NoMemory>
    ensures { IfOk result (AreArranged (map string_bytes name.now) (map string_bytes arguments.now)) }
{
    let Some((first, rest)) = arguments.split_first() else {
        return Ok(None);
    };
    if first.as_str() == "help" {
        return Ok(Some(asking_help(alloc, name, rest)?));
    }
    let flags = flags_in_front(arguments);
    if flags == 0 || flags == arguments.len() {
        return Ok(None);
    }
    Ok(Some(moved(alloc, name, arguments, flags)?))
}

/// The words of a command line in the order in which they are read, the program's name first: `help` with a
/// subcommand as that subcommand with `--help`, and `--explain` and `--all` before a subcommand as if they
/// stood after it. `None` where the words are read as they stand.
pub fn arranged(alloc: Global, words: &[String]) -> Result<Option<Vec<String>>, NoMemory>
    ensures arranged { IfOk result (IsArranged (map string_bytes words.now)) }
    ensures short { IfErr result (λ _. 2 ≤ length words.now) }
{
    if words.len() < 2 {
        return Ok(None);
    }
    let (name, arguments) = words.split_at(1);
    arranged_words(alloc, name, arguments)
}
