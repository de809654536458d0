//! A linked program.

ghost use Rattle.std.specs.Prelude.{◌≡◌, ◌≤◌, IfOk, map, string_bytes, true, if◌then◌else◌, ◌==◌};
ghost use Rattle.std.specs.Option.{option_map};
ghost use Rattle.c25_map.specs.View.{map_data, symbol_data};
ghost use Rattle.c25_meaning_image.specs.Marks.{fit_from};
ghost use Rattle.c25_meaning_linking.specs.Linking.{line_at};
ghost use Rattle.c25_meaning_linking.specs.MapText.{IsMapOf, IsPrinted};
ghost use Rattle.c25_link.specs.Lines.{lines_view};

use crate::lines::SourceLines;
use crate::loading::Pages;
use c25_map::{GlobalSymbol, Map, write_map};
use c25_meaning_common::no_memory::NoMemory;
use c25_meaning_image::mark::{Mark, RunMark};
use c25_meaning_image::word_map::WordMap;
use std::alloc::Global;
use std::marker::Model;

/// A linked program: its words, its instructions, the lines where they stand, and its map.
#[derive(Drop)]
pub struct Image {
    program: WordMap,
    store: WordMap,
    marks: Vec<Mark>,
    run_marks: Vec<RunMark>,
    lines: SourceLines,
    described: Map,
}

impl Model for Image {
    ghost use Rattle.std.specs.Coded.{codes, coded_ℕ};
    ghost use Rattle.std.specs.FinMap as finite;
    ghost use Rattle.std.specs.Ordering.{nat_cmp};
    ghost use Rattle.c25_map.specs.View.{map_data};
    ghost use Rattle.c25_meaning_linking.specs.Linking.{ImageData};
    ghost use Rattle.c25_link.specs.Sound.{IsSound};
    ghost use Rattle.c25_link.specs.Lines.{lines_view};

    ghost Value = { ImageData };

    ghost coded = { Prim.hlevel (codes, finite.code {R = nat_cmp} coded_ℕ coded_ℕ) };

    ghost view = { λ i. record { program = i.program; store = i.store; marks = i.marks.items; run_marks = i.run_marks.items; lines = lines_view i.lines; described = map_data i.described } };

    ghost invariant = { λ i. IsSound (lines_view i.lines) (map_data i.described) };
}

impl Image {
    /// The image of these words, marks, lines and this map.
    pub(crate) fn new(
        pages: Pages,
        marks: Vec<Mark>,
        run_marks: Vec<RunMark>,
        lines: SourceLines,
        described: Map,
    ) -> Self
        requires lines { fit_from 0 (map (λ l. l.mark) (lines_view lines)) ≡ true }
        requires printed { IsPrinted (map_data described) }
        ensures { result ≡ record { program = pages.program; store = pages.store; marks = marks.items; run_marks = run_marks.items; lines = lines_view lines; described = map_data described } }
    {
        Image {
            program: pages.program,
            store: pages.store,
            marks,
            run_marks,
            lines,
            described,
        }
    }

    /// The words of page 0, program memory, or of page 1, data memory.
    pub fn words(&self, page: u8) -> &WordMap
        requires { page ≤ 1 }
        ensures { result.now ≡ (if page == 0 then self.now.program else self.now.store) }
    {
        if page == 0 {
            &self.program
        } else {
            &self.store
        }
    }

    /// The instructions on page 0 of sections without a run address, by their addresses.
    pub fn marks(&self) -> &[Mark]
        ensures { result.now ≡ self.now.marks }
    {
        &self.marks
    }

    /// The instructions on page 0 of sections with a run address, in block B0, by the addresses where they
    /// run.
    pub fn run_marks(&self) -> &[RunMark]
        ensures { result.now ≡ self.now.run_marks }
    {
        &self.run_marks
    }

    /// The name of the file and the number of the line, counted from 1, of the instruction that is loaded at
    /// an address of page 0. It is `None` where no instruction begins there, and where its module comes from
    /// an object without lines (version 1). It takes no memory.
    pub fn line_of(&self, address: u16) -> Option<(&str, u32)>
        ensures { option_map (λ r. (r.0.now, r.1)) result ≡ line_at address self.now.lines }
    {
        self.lines.get(address)
    }

    /// The global symbols that modules define, by modules and symbols, with the low 32 bits of their
    /// values.
    pub fn symbols(&self) -> &[GlobalSymbol]
        ensures { map symbol_data result.now ≡ self.now.described.symbols }
    {
        &self.described.symbols
    }

    /// The map of the program.
    pub fn map(&self) -> &Map
        ensures { map_data result.now ≡ self.now.described }
    {
        &self.described
    }

    /// The text of the map, which [`read_map`](crate::read_map) reads as this map.
    #[tactic(auto, using(crate::proofs::Printed::have_digits, crate::proofs::Printed::is_map_of))]
    pub fn write_map(&self, alloc: Global) -> Result<String, NoMemory>
        ensures { IfOk result (λ text. IsMapOf (string_bytes text) self.now.described) }
    {
        write_map(alloc, &self.described)
    }
}
