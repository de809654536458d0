//! Laws of expansion, each the contract of a function with an empty body.

ghost use Rattle.std.specs.Prelude.{◌≡◌, ℕ, ◌<◌, ◌≤◌, List, length, ◌-◌, ◌++◌, ◌∷◌, map, true, false};
ghost use Rattle.c25_meaning_expansion.specs.Expansion.{Config, Rewriting, Gives, depth, LineOrEnd, Read, Reading, Finishes};
ghost use Rattle.c25_meaning_expansion.specs.ExpansionBounds.{IsLast, Gave};
ghost use Rattle.c25_print_laws.specs.ExpansionLaws.{IsPlain, ArePlain, are_taken, are_closed};
ghost use Rattle.c25_meaning_expansion.specs.ExpansionRules.{takes_lines};
ghost use Rattle.c25_meaning_expansion.specs.ExpansionRuns.{ComesTo, Leads, first, start};
ghost use Rattle.c25_meaning_expansion.specs.Files.{Files};
ghost use Rattle.c25_meaning_expansion.specs.Rows.{Row, rows_of};
ghost use Rattle.c25_meaning_language.specs.Value.{Table};
ghost use Rattle.c25_meaning_expansion.specs.declared.expansion.Branch.{Branch};

/// Expansion ends, in one way only: under any symbols, from any lines still to come, there is exactly one
/// result of rewriting that does not merely go on, and `first` computes it.
pub fn expansion_comes_to_one_rewriting()
    ensures ends { (files : Files) (s : Table) (c : Config) → ComesTo files s c (first files s c) × IsLast (first files s c) }
    ensures one { (files : Files) (s : Table) (c : Config) (r : Rewriting) → ComesTo files s c r → IsLast r → first files s c ≡ r }
{}

/// Expansion gives at most 200,000 lines, whatever the symbols are at each: for each line that it gives, also
/// for a label, it reads one of the lines that may still be read.
pub fn expansion_gives_at_most_200_000_lines()
    ensures falls { (files : Files) (s : Table) (c d : Config) (row : Row) → first files s c ≡ Gives row d → d.left < c.left }
    ensures all { (files : Files) (file : ℕ) (text : List ℕ) (rows : List Row) (c : Config) →
        Gave files (start file text) rows c → length rows ≤ 200000 }
{}

/// After any number of rewritings from the first line of a file on, whatever the symbols are at
/// each, at most 32 expansions, copied files, loops and `.if`s are open.
pub fn expansion_opens_at_most_32_blocks()
    ensures { (files : Files) (file : ℕ) (text : List ℕ) (rows : List Row) (c : Config) →
        Gave files (start file text) rows c → depth c ≤ 32 }
{}

/// Plain lines expand to themselves. Where lines are taken, a line of at most 1,024 bytes without a directive
/// of expansion or a call of a macro, and in which nothing is replaced, is given as it is, and only the
/// number of lines that may still be read changes. So a source of at most 200,000 such lines gives all of
/// them and then ends.
pub fn plain_lines_expand_to_themselves()
    ensures line { (files : Files) (s : Table) (row : Row) (rest : List LineOrEnd) (c : Config) → c.mode ≡ Reading → c.lines ≡ Read row ∷ rest
        → are_taken c.frame.branches ≡ true → 0 < c.left → IsPlain c.names row.text
        → first files s c ≡ Gives row (record c { lines = rest; left = c.left - 1 }) }
    ensures source { (files : Files) (s : Table) (file : ℕ) (text : List ℕ) → ArePlain (rows_of file text) → length (rows_of file text) ≤ 200000
        → (c : Config) × Gave files (start file text) (rows_of file text) c × (first files s c ≡ Finishes c) }
{}

/// The lines of a false `.if` are skipped: up to its `.elseif`, `.else` or `.endif`, whatever they are and
/// whatever the symbols are, only the number of lines that may still be read changes, as long as there are
/// such.
pub fn lines_of_a_false_if_are_skipped()
    ensures { (files : Files) (s : Table) (rows : List Row) (rest : List LineOrEnd) (c : Config) (b : Branch) (bs : List Branch) → c.mode ≡ Reading
        → c.lines ≡ map Read rows ++ rest → c.frame.branches ≡ b ∷ bs → takes_lines b.phase ≡ false → b.nested ≡ 0 → are_closed 0 rows ≡ true
        → length rows ≤ c.left → Leads files s (length rows) c (record c { lines = rest; left = c.left - length rows }) }
{}
