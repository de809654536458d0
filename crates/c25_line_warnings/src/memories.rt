//! Operands that are addresses of the other memory.

ghost use Rattle.std.specs.Prelude.{◌≡◌, option_map, slice_get};
ghost use Rattle.c25_expr.specs.Pieces.{pieces_of};
ghost use Rattle.c25_meaning_linking.specs.Place.{place_named};
ghost use Rattle.c25_module.specs.View.{body_data, section_data};
ghost use Rattle.c25_place.specs.View.{place_view, places_view};
ghost use Rattle.c25_line_warnings.specs.Memories as meaning;
ghost use Rattle.c25_line_warnings.specs.View.{memories_of, pair_of};

use crate::marks::{Memory, memory_of};
use crate::said::only_name;
use crate::warning_kind::WarningKind;
use c25_expr::Symbols;
use c25_meaning_instructions::mnemonic::Spelling;
use c25_meaning_language::value::Base;
use c25_module::{Body, Section};
use c25_place::Place;
use c25_text::tokens::Token;

/// What says in which memory a symbol lies: the values of symbols, the module's sections, and where sections
/// are placed, as far as that is known.
#[derive(Clone, Copy)]
pub struct Memories<'a> {
    pub symbols: &'a Symbols,
    pub sections: &'a [Section],
    pub places: &'a [Place<'a>],
}

/// The memory of a page: page 0 is program memory.
fn memory_at(page: u8) -> Memory
    ensures { result ≡ meaning.memory_at page }
{
    if page == 0 {
        Memory::Program
    } else {
        Memory::Data
    }
}

/// The memory in which a section lies that no command places: data memory, if the section is uninitialised.
fn usual_memory(body: &Body) -> Memory
    ensures { result ≡ meaning.usual_memory (body_data body.now) }
{
    match body {
        Body::Uninitialised(_) => Memory::Data,
        Body::Initialised(_) => Memory::Program,
    }
}

/// Where the section of a name is placed, if that is known.
fn place_of<'b, 'a>(places: &'b [Place<'a>], name: &str) -> Option<&'b Place<'a>>
    ensures { option_map (λ p. place_view p.now) result ≡ place_named name.now (places_view places.now) }
{
    places.iter().find(|place| name == place.name)
}

/// The memory in which a section lies: where it is placed, or else where it usually is.
#[tactic(auto, unfolding(crate::specs::Memories::memory_of_section))]
fn memory_of_section(places: &[Place<'_>], section: &Section) -> Memory
    ensures { result ≡ meaning.memory_of_section (places_view places.now) (section_data section.now) }
{
    match place_of(places, section.name.as_str()) {
        Some(place) => memory_at(place.page),
        None => usual_memory(&section.body),
    }
}

/// The memory of the section of this number, if the module has one.
fn memory_numbered(memories: Memories<'_>, number: u16) -> Option<Memory>
    ensures { result ≡ meaning.memory_found (memories_of memories.entry).places (slice_get (memories_of memories.entry).sections number) }
{
    match memories.sections.get(usize::from(number)) {
        Some(section) => Some(memory_of_section(memories.places, section)),
        None => None,
    }
}

/// The memory of the section from which a value counts, if it counts from one.
fn memory_from(memories: Memories<'_>, base: Base) -> Option<Memory>
    ensures { result ≡ meaning.memory_from (memories_of memories.entry) base }
{
    match base {
        Base::Section(number) => memory_numbered(memories, number),
        Base::Loaded(number) => memory_numbered(memories, number),
        Base::Absolute => None,
        Base::External(_) => None,
    }
}

/// The memory in which a symbol lies, if its value is an address of this module.
#[tactic(auto, unfolding(crate::specs::Memories::memory_named))]
fn memory_named(memories: Memories<'_>, name: &str) -> Option<Memory>
    ensures { result ≡ meaning.memory_named (memories_of memories.entry) name.now }
{
    match memories.symbols.get(name) {
        Some(value) => memory_from(memories, value.base),
        None => None,
    }
}

/// The warning of an address that lies in one memory, and is used as an address of another one.
fn misplaced(used_in: Memory, lies_in: Memory) -> Option<WarningKind>
    ensures { result ≡ meaning.misplaced used_in lies_in }
{
    match (used_in, lies_in) {
        (Memory::Data, Memory::Program) => Some(WarningKind::ProgramAddress),
        (Memory::Program, Memory::Data) => Some(WarningKind::DataAddress),
        (Memory::Program, Memory::Program) | (Memory::Data, Memory::Data) => None,
    }
}

/// The warning of a name that is used as an address of a memory, if it lies in the other one.
fn misplaced_in<'b>(
    memories: Memories<'_>,
    used_in: Memory,
    name: &'b str,
) -> Option<(WarningKind, &'b str)>
    ensures { option_map pair_of result ≡ meaning.misplaced_in used_in name.now (meaning.memory_named (memories_of memories.entry) name.now) }
{
    match memory_named(memories, name) {
        Some(lies_in) => match misplaced(used_in, lies_in) {
            Some(kind) => Some((kind, name)),
            None => None,
        },
        None => None,
    }
}

/// The warning of an operand, with the symbol that is the operand's only name and lies in the other memory.
#[tactic(auto, unfolding(crate::specs::Memories::misplaced_name))]
pub fn misplaced_name<'b>(
    memories: Memories<'_>,
    spelling: Spelling,
    number: usize,
    operand: &[Token<'b>],
) -> Option<(WarningKind, &'b str)>
    ensures { option_map pair_of result ≡ meaning.misplaced_name (memories_of memories.entry) spelling number (pieces_of operand.now) }
{
    let used_in = memory_of(spelling, number)?;
    let name = only_name(operand)?;
    misplaced_in(memories, used_in, name)
}
