//! The blocks of a section of a program.

ghost use Rattle.std.specs.List.{sum_by};
ghost use Rattle.std.specs.Prelude.{◌≡◌, ◌≤◌, ◌+◌, ◌++◌, All, IfOk, OnOk};
ghost use Rattle.c25_meaning_linking.specs.Place.{blocks_behind, blocks_of, is_block_named, size_for, size_of_parts};
ghost use Rattle.c25_meaning_objects.specs.Module.{body_size};
ghost use Rattle.c25_module.specs.View.{body_data, contents, section_data, sections_data};
ghost use Rattle.c25_rooms.specs.Blocks.{one_block};
ghost use Rattle.c25_rooms.specs.Crossings.{blocks_data};

use c25_meaning_objects::object::Block;
use c25_module::{Module, Parts, Section};
use c25_place::body_size;
use std::alloc::{AllocError, Global};

/// A block of a section of a program: how many words of the section stand before it, and how many words it has.
#[derive(Clone, Copy)]
pub struct SectionBlock {
    pub offset: u32,
    pub size: u8,
}

/// Whether a block of a module is in its section of a name.
fn is_block_named(owner: &Parts, block: &Block, name: &str) -> bool
    ensures { result ≡ is_block_named name.now (contents owner.now) block.now }
{
    match owner.sections.get(block.section as usize) {
        Some(section) => name == section.name.as_str(),
        None => false,
    }
}

/// Appends a block of a part that has so many words of its section before it, if it is in the section of a name.
fn push_block(
    owner: &Parts,
    block: &Block,
    name: &str,
    words: u32,
    list: &mut Vec<SectionBlock>,
) -> Result<(), AllocError>
    requires { words ≤ 65536 }
    ensures { OnOk result (blocks_data list.new.items ≡ blocks_data list.old.items ++ one_block name.now words (contents owner.now) block.now) }
{
    if is_block_named(owner, block, name) {
        list.push(SectionBlock {
            offset: words + u32::from(block.offset),
            size: block.size,
        })?;
    }
    Ok(())
}

/// Appends the blocks that a module adds to the section of a name, where its part has so many words before it.
fn push_blocks(
    owner: &Parts,
    name: &str,
    words: u32,
    list: &mut Vec<SectionBlock>,
) -> Result<(), AllocError>
    requires { words ≤ 65536 }
    ensures { OnOk result (blocks_data list.new.items ≡ blocks_data list.old.items ++ blocks_behind name.now words (contents owner.now)) }
{
    for block in &owner.blocks {
        push_block(owner, block, name, words, list)?;
    }
    Ok(())
}

/// How many words a section adds to the section of a name.
fn size_for(name: &str, section: &Section) -> u32
    requires { body_size (body_data section.now.body) ≤ 65536 }
    ensures { result ≡ size_for name.now (section_data section.now) }
{
    if name == section.name.as_str() {
        body_size(&section.body)
    } else {
        0
    }
}

/// The words with those that the sections of a module add to the section of a name.
fn words_with(words: u32, name: &str, sections: &[Section]) -> u32
    requires small { All (λ s. body_size (body_data s.body) ≤ 65536) sections.now }
    requires sum { words + sum_by (size_for name.now) (sections_data sections.now) ≤ 65536 }
    ensures { result ≡ words + sum_by (size_for name.now) (sections_data sections.now) }
{
    let mut words = words;
    for section in sections {
        words += size_for(name, section);
    }
    words
}

/// The blocks of the section of a name, by modules.
pub(crate) fn blocks_of(
    alloc: Global,
    modules: &[Module],
    name: &str,
) -> Result<Vec<SectionBlock>, AllocError>
    requires { size_of_parts name.now modules.now ≤ 65536 }
    ensures { IfOk result (λ list. blocks_data list.items ≡ blocks_of name.now modules.now) }
{
    let mut list = Vec::new(alloc);
    let mut words = 0;
    for module in modules {
        push_blocks(module.parts(), name, words, &mut list)?;
        words = words_with(words, name, &module.parts().sections);
    }
    Ok(list)
}
