//! Tests of sources of images: FF80 is `B` and CE26 `RET` (SPRU014, "Instruction Set Summary").

use c25_layout::read_hints;
use c25_meaning_common::failure::Failure;
use c25_meaning_common::no_memory::NoMemory;
use c25_meaning_image::word_map::WordMap;
use c25_source::source::Asked;
use c25_source::{NotMade, source_of_words};
use std::alloc::Global;
use std::process::Abort;
use std::test::Fail;

/// What is made of an image.
#[derive(Clone, Copy, Debug, PartialEq)]
enum Sourced {
    /// A source of so many parts.
    Parts(usize),
    /// Too many parts, of which the first one too many begins at this address.
    TooMany(u16),
    /// The name of its file is too long.
    LongName,
    /// The hints are refused in this line.
    Hints(usize),
}

/// The source of words under a name and hints, with no words left out.
fn source_of(alloc: Global, words: &WordMap, name: &str, text: &str) -> Result<Sourced, Fail> {
    let hints = match read_hints(alloc, text) {
        Ok(hints) => hints,
        Err(Failure::Fault(fault)) => return Ok(Sourced::Hints(fault.place)),
        Err(Failure::NoMemory(error)) => return Err(Fail::from(error)),
    };
    let asked = Asked {
        name,
        hints: &hints,
        blank: 0,
    };
    match source_of_words(alloc, words, asked) {
        Ok(made) => Ok(Sourced::Parts(made.parts.len())),
        Err(Failure::Fault(NotMade::TooManySections(address))) => Ok(Sourced::TooMany(address)),
        Err(Failure::Fault(NotMade::LongName)) => Ok(Sourced::LongName),
        Err(Failure::NoMemory(error)) => Err(Fail::from(error)),
    }
}

/// Words from address 0 on.
fn image(alloc: Global, list: &[u16]) -> Result<WordMap, NoMemory> {
    let mut words = WordMap::new(alloc);
    let mut address = 0;
    for word in list {
        words.insert(address, *word)?;
        address = address.saturating_add(1);
    }
    Ok(words)
}

/// Words at so many addresses, with one address between any two.
fn apart(alloc: Global, count: u16) -> Result<WordMap, NoMemory> {
    let mut words = WordMap::new(alloc);
    for index in 0..count {
        words.insert(index.saturating_mul(2), 0xCE26)?;
    }
    Ok(words)
}

/// Checks what is made of words from address 0 on under hints.
fn expect_source(
    rt: &impl Abort,
    alloc: Global,
    list: &[u16],
    hints: &str,
    wanted: Sourced,
) -> Result<(), Fail> {
    let words = image(alloc, list)?;
    let found = source_of(alloc, &words, "old.asm", hints)?;
    assert_eq!(rt; found, wanted);
    Ok(())
}

/// Checks what is made of words at so many addresses, with one address between any two.
fn expect_source_apart(
    rt: &impl Abort,
    alloc: Global,
    count: u16,
    wanted: Sourced,
) -> Result<(), Fail> {
    let words = apart(alloc, count)?;
    let found = source_of(alloc, &words, "old.asm", "")?;
    assert_eq!(rt; found, wanted);
    Ok(())
}

/// A branch to the word after it, a `RET`.
const BRANCH: [u16; 3] = [0xFF80, 0x0002, 0xCE26];

#[test]
fn images_have_sources(rt: HostRuntime) -> Result<(), Fail> {
    let alloc = rt.alloc();
    expect_source(&rt, alloc, &BRANCH, "", Sourced::Parts(1))?;
    expect_source(&rt, alloc, &[0xFF80, 0x0001], "", Sourced::Parts(1))?;
    expect_source(&rt, alloc, &[], "", Sourced::Parts(0))
}

#[test]
fn a_name_has_one_address(rt: HostRuntime) -> Result<(), Fail> {
    let alloc = rt.alloc();
    expect_source(
        &rt,
        alloc,
        &BRANCH,
        "label 0 START\nlabel 2 END",
        Sourced::Parts(1),
    )?;
    expect_source(
        &rt,
        alloc,
        &BRANCH,
        "label 0 START\nlabel 2 START",
        Sourced::Hints(2),
    )?;
    expect_source(
        &rt,
        alloc,
        &BRANCH,
        "label 2 START\nlabel 2 START",
        Sourced::Parts(1),
    )?;
    expect_source(&rt, alloc, &BRANCH, "label 2 LAC", Sourced::Parts(1))?;
    expect_source(&rt, alloc, &BRANCH, "label 2 AR1", Sourced::Hints(1))
}

#[test]
fn a_name_may_be_one_that_is_made(rt: HostRuntime) -> Result<(), Fail> {
    let alloc = rt.alloc();
    expect_source(&rt, alloc, &BRANCH, "label 0 L0002", Sourced::Parts(1))?;
    expect_source(
        &rt,
        alloc,
        &BRANCH,
        "label 0 L0002\nlabel 1 L0002_",
        Sourced::Parts(1),
    )
}

#[test]
fn words_run_at_one_place(rt: HostRuntime) -> Result<(), Fail> {
    let alloc = rt.alloc();
    expect_source(
        &rt,
        alloc,
        &BRANCH,
        "run 0 2 FF00\nrun 2 1 FF02",
        Sourced::Parts(1),
    )?;
    expect_source(
        &rt,
        alloc,
        &BRANCH,
        "run 0 2 FF00\nrun 2 1 FF10",
        Sourced::Parts(2),
    )?;
    expect_source(
        &rt,
        alloc,
        &BRANCH,
        "run 0 2 FF00\nrun 1 1 FF01",
        Sourced::Parts(2),
    )?;
    expect_source(
        &rt,
        alloc,
        &BRANCH,
        "run 0 2 FF00\nrun 2 1 FF01",
        Sourced::Hints(2),
    )?;
    expect_source(
        &rt,
        alloc,
        &BRANCH,
        "run 0 2 FF00\nrun 1 1 FF10",
        Sourced::Hints(2),
    )
}

#[test]
fn a_module_has_254_sections(rt: HostRuntime) -> Result<(), Fail> {
    let alloc = rt.alloc();
    expect_source_apart(&rt, alloc, 254, Sourced::Parts(254))?;
    expect_source_apart(&rt, alloc, 255, Sourced::TooMany(508))
}

/// Checks what is made of words in a file whose name has so many bytes.
fn sourced_under(
    rt: &impl Abort,
    alloc: Global,
    bytes: usize,
    wanted: Sourced,
) -> Result<(), Fail> {
    let words = image(alloc, &BRANCH)?;
    let name = "a".repeat(alloc, bytes)?;
    let found = source_of(alloc, &words, name.as_str(), "")?;
    assert_eq!(rt; found, wanted);
    Ok(())
}

#[test]
fn the_name_of_a_file_has_65535_bytes(rt: HostRuntime) -> Result<(), Fail> {
    let alloc = rt.alloc();
    sourced_under(&rt, alloc, 65_535, Sourced::Parts(1))?;
    sourced_under(&rt, alloc, 65_536, Sourced::LongName)
}
