//! The names that a line gives values to.

ghost use Rattle.std.specs.Option.{option_map};
ghost use Rattle.std.specs.Prelude.{◌≡◌, [], ◌∷◌, ◌++◌, IfOk, OnOk};
ghost use Rattle.c25_statements.specs.View.{act_of, texts_of};
ghost use Rattle.c25_earlier.specs.Names as meaning;

use c25_meaning_common::failure::Failure;
use c25_meaning_common::no_memory::NoMemory;
use c25_statements::read_statement;
use c25_statements::statement::{AssemblyAct, Statement};
use std::alloc::Global;

/// Appends the names of the memory-mapped registers.
fn push_registers(names: &mut Vec<&str>) -> Result<(), NoMemory>
    ensures { OnOk result (texts_of names.new.items ≡ texts_of names.old.items ++ meaning.names_of_registers) }
{
    names.push("DRR")?;
    names.push("DXR")?;
    names.push("TIM")?;
    names.push("PRD")?;
    names.push("IMR")?;
    names.push("GREG")?;
    Ok(())
}

/// Appends a name.
fn push_name<'a>(names: &mut Vec<&'a str>, name: &'a str) -> Result<(), NoMemory>
    ensures { OnOk result (texts_of names.new.items ≡ texts_of names.old.items ++ name.entry.now ∷ []) }
{
    names.push(name)?;
    Ok(())
}

/// Appends the names to which a line gives values by its directive.
fn push_act<'a>(names: &mut Vec<&'a str>, act: &AssemblyAct<'a>) -> Result<(), NoMemory>
    ensures { OnOk result (texts_of names.new.items ≡ texts_of names.old.items ++ meaning.names_of_act (act_of act.now)) }
{
    match act {
        AssemblyAct::Reserve { name, .. } => push_name(names, name),
        AssemblyAct::Equate { name, .. } => push_name(names, name),
        AssemblyAct::Label(name) => push_name(names, name),
        AssemblyAct::Registers => push_registers(names),
        _ => Ok(()),
    }
}

/// A list of the label alone, if there is one.
fn label_alone(alloc: Global, label: Option<&str>) -> Result<Vec<&str>, NoMemory>
    ensures { IfOk result (λ names. texts_of names.items ≡ meaning.names_of_label (option_map (λ t. t.now) label.entry)) }
{
    let mut names = Vec::new(alloc);
    match label {
        Some(label) => {
            names.push(label)?;
            Ok(names)
        }
        None => Ok(names),
    }
}

/// The names that a line gives values to: its label, and then those of its directive. A line that is no statement
/// has none.
#[tactic(auto, unfolding(crate::specs::Names::names_in))]
pub(crate) fn names_in(alloc: Global, text: &str) -> Result<Vec<&str>, NoMemory>
    ensures { IfOk result (λ names. texts_of names.items ≡ meaning.names_in text.now) }
{
    match read_statement(alloc, text) {
        Ok(Statement { label, act }) => {
            let mut names = label_alone(alloc, label)?;
            push_act(&mut names, &act)?;
            Ok(names)
        }
        Err(Failure::Fault(_)) => Ok(Vec::new(alloc)),
        Err(Failure::NoMemory(error)) => Err(error),
    }
}
