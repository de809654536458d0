//! Laws of assembling, each the contract of a function with an empty body.

ghost use Rattle.std.specs.Prelude.{◌≡◌, ◌<◌, ◌≤◌, List, ℕ, Ok, Some};
ghost use Rattle.c25_meaning_expansion.specs.Expansion.{Config};
ghost use Rattle.c25_meaning_expansion.specs.ExpansionRuns.{start_of};
ghost use Rattle.c25_meaning_expansion.specs.Files.{Files};
ghost use Rattle.c25_meaning_objects.specs.Module.{IsModule};
ghost use Rattle.c25_meaning_assembly.specs.ModuleOfSource.{Assembled, LinesSoFar, assembled, no_lines, passed};

/// What assembling a source gives is a module: its sections, marks, symbols, relocations, files, lines and
/// blocks are in order and in their ranges.
pub fn sources_make_modules()
    ensures { (files : Files) (name : List ℕ) (a : Assembled) → assembled files name ≡ Ok a → IsModule a.contents }
{}

/// The counts in the definition of assembling never cut a source short: from the first line of a source on,
/// any count of at least 200,001 gives the same result; from any lines still to come, so do any two counts
/// that are greater than the number of lines that may still be read.
pub fn calls_of_the_definition_never_end_a_source()
    ensures source { (files : Files) (name : List ℕ) (c : Config) (n : ℕ) → start_of files name ≡ Some c → 200001 ≤ n
        → passed files n c no_lines ≡ passed files 200001 c no_lines }
    ensures lines { (files : Files) (n m : ℕ) (c : Config) (a : LinesSoFar) → c.left < n → c.left < m → passed files n c a ≡ passed files m c a }
{}
