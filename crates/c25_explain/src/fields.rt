//! The text about a field that does not take its value (75).

ghost use Rattle.std.specs.Prelude.{◌≡◌, ◌++◌, IfOk, OnOk, string_bytes};
ghost use Rattle.c25_explain.specs.Details.{addend_text, address_text, at_text, base_text, field_text, misfit_text, place_text, untaken_text, value_text};
ghost use Rattle.c25_link.specs.Misfits.{misfit_data};

use c25_link::Misfit;
use c25_meaning_common::no_memory::NoMemory;
use c25_meaning_objects::object::RelocationBase;
use c25_texts::digits::four;
use std::alloc::Global;

/// Appends an addend with its sign, if it is not 0.
fn push_addend(text: &mut String, addend: i32) -> Result<(), NoMemory>
    ensures { OnOk result (string_bytes text.new ≡ string_bytes text.old ++ addend_text addend) }
{
    if addend == 0 {
        Ok(())
    } else if addend > 0 {
        write!(text, "+{addend}").map_err(NoMemory::from)
    } else {
        write!(text, "{addend}").map_err(NoMemory::from)
    }
}

/// Appends the name of what an addend is added to.
fn push_base(text: &mut String, base: RelocationBase, name: &str) -> Result<(), NoMemory>
    ensures { OnOk result (string_bytes text.new ≡ string_bytes text.old ++ base_text base name.now) }
{
    match base {
        RelocationBase::Section(_) | RelocationBase::External(_) => text
            .push_str(name)
            .map_err(NoMemory::from),
        RelocationBase::Loaded(_) => write!(text, "load of {name}").map_err(NoMemory::from),
    }
}

/// Appends the text before the address of a field.
#[tactic(auto, unfolding(crate::specs::Details::at_text))]
fn push_at(text: &mut String) -> Result<(), NoMemory>
    ensures { OnOk result (string_bytes text.new ≡ string_bytes text.old ++ at_text) }
{
    text.push_str("the field at ").map_err(NoMemory::from)
}

/// Appends an address in four hexadecimal digits.
#[tactic(auto, unfolding(crate::specs::Details::address_text))]
pub(crate) fn push_address(text: &mut String, address: u16) -> Result<(), NoMemory>
    ensures { OnOk result (string_bytes text.new ≡ string_bytes text.old ++ address_text address) }
{
    text.push_str(four(address).as_str())
        .map_err(NoMemory::from)
}

/// Appends the section after an address.
#[tactic(auto, unfolding(crate::specs::Details::place_text))]
fn push_place(text: &mut String, section: &str) -> Result<(), NoMemory>
    ensures { OnOk result (string_bytes text.new ≡ string_bytes text.old ++ place_text section.now) }
{
    write!(text, " in {section}").map_err(NoMemory::from)
}

/// Appends the address and the section of a field.
#[tactic(auto, unfolding(crate::specs::Details::field_text))]
fn push_field(text: &mut String, misfit: &Misfit<'_>) -> Result<(), NoMemory>
    ensures { OnOk result (string_bytes text.new ≡ string_bytes text.old ++ field_text (misfit_data misfit.now)) }
{
    push_at(text)?;
    push_address(text, misfit.address)?;
    push_place(text, misfit.section)
}

/// Appends the value that the field does not take.
#[tactic(auto, unfolding(crate::specs::Details::untaken_text))]
fn push_untaken(text: &mut String, value: i64) -> Result<(), NoMemory>
    ensures { OnOk result (string_bytes text.new ≡ string_bytes text.old ++ untaken_text value) }
{
    write!(text, " does not take {value}, which is ").map_err(NoMemory::from)
}

/// Appends the value, and the base and addend that it is the sum of.
#[tactic(auto, unfolding(crate::specs::Details::value_text))]
fn push_value(text: &mut String, misfit: &Misfit<'_>) -> Result<(), NoMemory>
    ensures { OnOk result (string_bytes text.new ≡ string_bytes text.old ++ value_text (misfit_data misfit.now)) }
{
    push_untaken(text, misfit.value)?;
    push_base(text, misfit.base, misfit.base_name)?;
    push_addend(text, misfit.addend)
}

/// One line of text: the name of the module's file, the module's number, the address of the field, and the
/// value that it does not take.
pub fn misfit_text(alloc: Global, file: &str, misfit: &Misfit<'_>) -> Result<String, NoMemory>
    ensures { IfOk result (λ text. string_bytes text ≡ misfit_text file.now (misfit_data misfit.now)) }
{
    let number = misfit.number;
    let mut text = format!(in alloc; "{file}: module {number}: ")?;
    push_field(&mut text, misfit)?;
    push_value(&mut text, misfit)?;
    text.push_str("\n")?;
    Ok(text)
}
