//! Tests of what reads and writes files besides sources: items of a line each (`c25_texts`), object records (`c25_module`,
//! `c25_records`), Intel hex texts (`c25_hex`), ROMs (`c25_rom`), binary images (`c25_binary`) and their texts as sources
//! (`c25_layout`), and the words and marks of images (`c25_meaning_image`).
#![tactic(auto)]

#[cfg(test)]
mod hex;
#[cfg(test)]
mod hostile_images;
#[cfg(test)]
mod images;
#[cfg(test)]
mod items;
#[cfg(test)]
mod marks;
#[cfg(test)]
mod module_lists;
#[cfg(test)]
mod objects;
#[cfg(test)]
mod refusals;
#[cfg(test)]
mod rom;
#[cfg(test)]
mod values;
#[cfg(test)]
mod words;
