//! Tests of images that are hard to take apart: their sources were worked out by hand. FF80 is `B`, D001 `LALK`, CE00 `EINT`
//! and CE26 `RET` (SPRU014, "Instruction Set Summary"); FFFFh, which erased EPROMs have, is `B` with a change and a register.

use crate::values::equal;
use c25_layout::{command_text, parts_of_words, read_hints, source_text};
use c25_meaning_common::no_memory::NoMemory;
use c25_meaning_image::word_map::WordMap;
use std::alloc::Global;
use std::process::Abort;
use std::test::Fail;

/// The map of words from an address on.
fn words_from(alloc: Global, address: u16, list: &[u16]) -> Result<WordMap, NoMemory> {
    let mut words = WordMap::new(alloc);
    let mut place = address;
    for word in list {
        words.insert(place, *word)?;
        place = place.saturating_add(1);
    }
    Ok(words)
}

/// The source of words under hints, where runs of 16 erased words are left out.
fn source(alloc: Global, words: &WordMap, hints: &str) -> Result<String, Fail> {
    let hints = read_hints(alloc, hints).ok().ok_or("no hints")?;
    let parts = parts_of_words(alloc, words, &hints, 16)?;
    Ok(source_text(alloc, &parts)?)
}

/// Checks the source of words from an address on, under hints.
fn is_source(
    rt: &impl Abort,
    alloc: Global,
    image: (u16, &[u16]),
    hints: &str,
    wanted: &str,
) -> Result<(), Fail> {
    let words = words_from(alloc, image.0, image.1)?;
    let found = source(alloc, &words, hints)?;
    equal(rt, found.as_str(), wanted);
    Ok(())
}

#[test]
fn an_instruction_does_not_go_on_past_the_last_address(rt: HostRuntime) -> Result<(), Fail> {
    let wanted = "\t.sect \"pFFFF\"\nLFFFF\t.word 0FF80h\t; FFFF\n";
    is_source(&rt, rt.alloc(), (0xFFFF, &[0xFF80]), "code FFFF", wanted)
}

#[test]
fn a_second_word_stays_in_its_instruction(rt: HostRuntime) -> Result<(), Fail> {
    let jump = "\t.sect \"p0000\"\nL0000\tB L0000+1,*\t; 0000\n";
    is_source(&rt, rt.alloc(), (0, &[0xFF80, 0x0001]), "", jump)?;
    let vector = "\t.sect \"p0000\"\nL0000\tEINT\t; 0000\n\tLALK 0FF80h,0\t; 0001\n\tRET\t; 0003\n";
    is_source(
        &rt,
        rt.alloc(),
        (0, &[0xCE00, 0xD001, 0xFF80, 0xCE26]),
        "",
        vector,
    )
}

#[test]
fn of_two_hints_at_an_address_one_holds(rt: HostRuntime) -> Result<(), Fail> {
    let data = "\t.sect \"p0000\"\nL0000\t.word 0CE26h\t; 0000\n";
    is_source(&rt, rt.alloc(), (0, &[0xCE26]), "code 0\ndata 0 1", data)?;
    let last = "\t.sect \"p0000\"\nTWO\tRET\t; 0000\n";
    is_source(
        &rt,
        rt.alloc(),
        (0, &[0xCE26]),
        "label 0 ONE\nlabel 0 TWO",
        last,
    )
}

#[test]
fn half_an_instruction_is_data_where_the_rest_runs_elsewhere(rt: HostRuntime) -> Result<(), Fail> {
    let wanted =
        "\t.sect \"p0000\"\nL0000\t.word 0FF80h\t; 0000\n\t.sect \"p0001\"\n\t.word 00000h\t; 0001\n";
    is_source(
        &rt,
        rt.alloc(),
        (0, &[0xFF80, 0x0000]),
        "run 1 1 FF00",
        wanted,
    )
}

#[test]
fn a_name_may_be_a_mnemonic(rt: HostRuntime) -> Result<(), Fail> {
    let wanted = "\t.sect \"p0000\"\nLAC\tRET\t; 0000\n";
    is_source(&rt, rt.alloc(), (0, &[0xCE26]), "label 0 LAC", wanted)
}

/// Words of an erased EPROM.
const ERASED: [u16; 18] = [0xFFFF; 18];

#[test]
fn an_erased_image_has_no_words(rt: HostRuntime) -> Result<(), Fail> {
    is_source(&rt, rt.alloc(), (0, &ERASED), "", "")
}

#[test]
fn an_erased_image_keeps_the_words_that_a_hint_comes_to(rt: HostRuntime) -> Result<(), Fail> {
    let reached = "\t.sect \"p0000\"\nL0000\tB 0FFFFh,*BR0+,AR7\t; 0000\n";
    is_source(&rt, rt.alloc(), (0, &ERASED), "code 0", reached)
}

#[test]
fn an_image_without_words_has_no_parts(rt: HostRuntime) -> Result<(), Fail> {
    let alloc = rt.alloc();
    is_source(&rt, alloc, (0, &[]), "", "")?;
    let command = command_text(alloc, &[])?;
    equal(&rt, command.as_str(), "SECTIONS\n{\n}\n");
    Ok(())
}
