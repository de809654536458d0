//! Old sources, moved: the new text of each, and what is reported of its lines. The words of the command line are their
//! names; `early` and `coff` say how the sources after them are written. The status is 0.
#![tactic(auto)]

use anyhow::Result;
use c25_move::{MovedLine, OldSource, move_source, new_text};
use c25_move_lines::{Progress, Style};
use std::alloc::Global;
use std::{env, fs};

/// The macros that the sources define.
const MACROS: [&str; 4] = ["DELAY", "MOVE", "CLEAR", "SAVE"];

/// Prints what is reported of a line.
fn show_notes(rt: &HostRuntime, name: &str, number: usize, line: &MovedLine<'_>) -> Result<()> {
    for rule in line.change.done.iter() {
        println!(rt; "{name}:{number}: done: {}", rule.done_text())?;
    }
    for rule in line.change.left.iter() {
        println!(rt; "{name}:{number}: left: {}", rule.left_text())?;
    }
    for fault in line.refused.iter() {
        println!(rt;
            "{name}:{number}: left: {} {}",
            fault.number(),
            fault.name()
        )?;
    }
    Ok(())
}

/// Prints a source that is moved.
fn show(rt: &HostRuntime, alloc: Global, name: &str, style: Style) -> Result<()> {
    let text = fs::read_to_string(rt, name)?;
    let source = OldSource {
        style,
        long_order: None,
        macros: &MACROS,
        text: text.as_str(),
    };
    let mut progress = Progress::new(alloc);
    let lines = move_source(alloc, &source, &mut progress)?;
    let new = new_text(alloc, lines.as_slice())?;
    print!(rt; "== {name}\n{new}")?;
    for (place, line) in lines.iter().enumerate() {
        show_notes(rt, name, place + 1, line)?;
    }
    for address in progress.addresses.iter() {
        println!(rt;
            "{name}: {} : load = {}",
            address.section.as_str(),
            address.address.as_str()
        )?;
    }
    Ok(())
}

/// The style that a word of the command line says, if it says one.
fn style_named(word: &str) -> Option<Style> {
    match word {
        "early" => Some(Style::Early),
        "coff" => Some(Style::Coff),
        _ => None,
    }
}

fn main(rt: HostRuntime) -> Result<()> {
    let mut style = Style::Coff;
    for word in env::args(&rt)?.skip(1) {
        match style_named(word.as_str()) {
            Some(named) => style = named,
            None => show(&rt, rt.alloc(), word.as_str(), style)?,
        }
    }
    Ok(())
}
