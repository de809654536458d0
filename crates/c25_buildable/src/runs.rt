//! Whether parts may run where they do.

ghost use Rattle.std.specs.Prelude.{◌≡◌, ◌≤◌, true, length};
ghost use Rattle.std.specs.List.{AllByRecursion};
ghost use Rattle.c25_buildable.specs.Places.{AreShort};
ghost use Rattle.c25_layout.specs.Buildable.{RunApart, RunsFit, RunsInB0};
ghost use Rattle.c25_layout.specs.Layout.{rows_words};

use c25_layout::layout::{Part, Row};
use c25_layout::words_in;

/// How many words rows have.
fn size_of(rows: &[Row]) -> usize
    requires { length (rows_words rows.now) ≤ 65536 }
    ensures { result ≡ length (rows_words rows.now) }
{
    let mut size = 0;
    for row in rows {
        size += words_in(&row.item);
    }
    size
}

/// Whether a part runs in block B0, if it runs elsewhere than it is loaded.
fn runs_in_b0(part: &Part) -> bool
    requires { length (rows_words part.now.rows.items) ≤ 65536 }
    ensures { result ≡ true → RunsInB0 part.now }
{
    match part.run {
        None => true,
        Some(run) => run >= 0xFF00 && usize::from(run) + size_of(&part.rows) <= 65_536,
    }
}

/// Whether two parts do not run at the same words, if both run elsewhere than they are loaded.
fn run_apart(one: &Part, other: &Part) -> bool
    requires one { length (rows_words one.now.rows.items) ≤ 65536 }
    requires other { length (rows_words other.now.rows.items) ≤ 65536 }
    ensures { result ≡ true → RunApart one.now other.now }
{
    match one.run {
        None => true,
        Some(run) => match other.run {
            None => true,
            Some(start) => {
                usize::from(run) + size_of(&one.rows) <= usize::from(start)
                    || usize::from(start) + size_of(&other.rows) <= usize::from(run)
            }
        },
    }
}

/// Whether a part runs at the words of none of some others.
fn runs_alone(part: &Part, others: &[Part]) -> bool
    requires part { length (rows_words part.now.rows.items) ≤ 65536 }
    requires others { AreShort others.now }
    ensures { result ≡ true → AllByRecursion (RunApart part.now) others.now }
{
    for other in others {
        if !run_apart(part, other) {
            return false;
        }
    }
    true
}

/// Whether a part may run where it does: in block B0, at words where none of some others runs.
fn is_well(part: &Part, others: &[Part]) -> bool
    requires part { length (rows_words part.now.rows.items) ≤ 65536 }
    requires others { AreShort others.now }
    ensures b0 { result ≡ true → RunsInB0 part.now }
    ensures apart { result ≡ true → AllByRecursion (RunApart part.now) others.now }
{
    if runs_in_b0(part) {
        runs_alone(part, others)
    } else {
        false
    }
}

/// Whether parts may run where they do: in block B0, each at words where no other one runs.
pub(crate) fn run_well(parts: &[Part]) -> bool
    requires { AreShort parts.now }
    ensures { result ≡ true → RunsFit parts.now }
{
    match parts {
        [] => true,
        [part, later @ ..] => {
            if is_well(part, later) {
                run_well(later)
            } else {
                false
            }
        }
    }
}
