//! Whether the label and the operands of a line say the same after its local labels got names.

ghost use Rattle.std.specs.Prelude.{◌≡◌, ◌||◌, ◌++◌, ◌∷◌, [], not, true, false, IfOk, map, string_bytes};
ghost use Rattle.std.specs.List.{list_all};
ghost use Rattle.c25_move_lines.specs.Changes.{KeepsUnreported, lines_of};
ghost use Rattle.c25_move_lines.specs.LocalLabels.{AreNewNames};
ghost use Rattle.c25_move_lines.specs.declared.rule.Rule.TheVariants.{LocalLabel};
ghost use Rattle.c25_move_lines.specs.Values.{IsCommented, KeepsAllValues, KeepsLabels, KeepsNamedLine, is_by_labels, keeps_operands, name_none, names_labels, order_of, rewrite_none, takes_comment};

use crate::around::{Around, local_name};
use crate::change::Change;
use crate::rule::Rule;
use crate::style::Style;
use crate::values::{keeps_operands, order_of, rewrite_none};
use c25_meaning_common::no_memory::NoMemory;
use c25_old_expressions::lines::{has_no_operands, keep_operands, keeps_label};
use std::alloc::Global;

/// Whether a rule gives local labels their names.
fn names_labels(rule: Rule) -> bool
    ensures { result ≡ names_labels rule }
{
    match rule {
        Rule::LocalLabel => true,
        _ => false,
    }
}

/// Whether no rule gives local labels their names.
fn name_none(rules: &[Rule]) -> bool
    ensures { result ≡ name_none rules.now }
{
    rules.iter().all(|rule| !names_labels(*rule))
}

/// Whether each rule gives local labels their names, rewrites values, or leaves the operands as they are.
fn all_keep_or_name(rules: &[Rule]) -> bool
    ensures { result ≡ list_all (λ r. names_labels r || keeps_operands r) rules.now }
{
    rules
        .iter()
        .all(|rule| names_labels(*rule) || keeps_operands(*rule))
}

/// Whether local labels of a line got names, and nothing else of it was rewritten but values and its directive, and neither a
/// value nor a local label is left.
fn is_by_labels(done: &[Rule], left: &[Rule]) -> bool
    ensures { result ≡ is_by_labels done.now left.now }
{
    !name_none(done) && all_keep_or_name(done) && rewrite_none(left) && name_none(left)
}

/// The names of the local labels `$0` to `$9` in a block outside of macros.
#[tactic(auto, using(crate::proofs::Names::no_names, crate::proofs::Names::one_name_more, crate::proofs::Names::all_names))]
fn new_names(alloc: Global, around: &Around<'_>, block: usize) -> Result<Vec<String>, NoMemory>
    requires { around.now.in_body ≡ false }
    ensures { IfOk result (λ names. AreNewNames (record { source = around.now.source.now; blocks = block }) (map string_bytes names.items)) }
{
    let mut names = Vec::new(alloc);
    for digit in 0..10 {
        names.push(local_name(alloc, around, block, digit)?)?;
    }
    Ok(names)
}

/// Whether a rule takes what follows as a comment.
fn takes_comment(rule: Rule) -> bool
    ensures { result ≡ takes_comment rule }
{
    match rule {
        Rule::Comment => true,
        _ => false,
    }
}

/// Whether none of the rules takes what follows as a comment.
fn take_no_comment(rules: &[Rule]) -> bool
    ensures { result ≡ list_all (λ r. not (takes_comment r)) rules.now }
{
    rules.iter().all(|rule| !takes_comment(*rule))
}

/// Whether a line has no operands, since all that followed its word was taken as its comment.
fn is_commented(alloc: Global, done: &[Rule], new: &str) -> Result<bool, NoMemory>
    ensures { IfOk result (λ b. b ≡ true → IsCommented done.now new.now) }
{
    if take_no_comment(done) {
        Ok(false)
    } else {
        has_no_operands(alloc, new)
    }
}

/// Whether one line takes the place of a line, and its label and its operands surely say the same, where local labels get these
/// names.
fn keeps_named_line(
    alloc: Global,
    style: Style,
    labels: &[String],
    old: &str,
    change: &Change,
) -> Result<bool, NoMemory>
    ensures { IfOk result (λ b. b ≡ true → KeepsNamedLine (order_of style) (map string_bytes labels.now) old.now (lines_of change.now) change.now.done.items) }
{
    match change.lines.as_slice() {
        [new] if keeps_label(labels, old, new.as_str()) => {
            if is_commented(alloc, change.done.as_slice(), new.as_str())? {
                Ok(true)
            } else {
                keep_operands(alloc, order_of(style), labels, old, new.as_str())
            }
        }
        _ => Ok(false),
    }
}

/// Whether the label and the operands of a line outside of macros surely say the same, where its local labels got names.
fn keeps_labels(
    alloc: Global,
    around: &Around<'_>,
    block: usize,
    line: &str,
    change: &Change,
) -> Result<bool, NoMemory>
    requires { around.now.in_body ≡ false }
    ensures { IfOk result (λ b. b ≡ true → KeepsLabels around.now.style (record { source = around.now.source.now; blocks = block }) line.now (lines_of change.now) change.now.done.items change.now.left.items) }
{
    if is_by_labels(change.done.as_slice(), change.left.as_slice()) {
        let names = new_names(alloc, around, block)?;
        keeps_named_line(alloc, around.style, names.as_slice(), line, change)
    } else {
        Ok(true)
    }
}

/// A change by which a line may say something else: the local label is left.
fn with_label_left(change: Change) -> Result<Change, NoMemory>
    ensures left { IfOk result (λ c. c.left.items ≡ change.left.items ++ LocalLabel ∷ []) }
    ensures done { IfOk result (λ c. c.done.items ≡ change.done.items) }
    ensures lines { IfOk result (λ c. lines_of c ≡ lines_of change) }
{
    let mut change = change;
    change.left.push(Rule::LocalLabel)?;
    Ok(change)
}

/// The change of a line outside of macros that calls none; a local label is left where the line may say something else.
#[tactic(auto, using(crate::proofs::Lefts::labels_by_left, crate::proofs::Lefts::values_by_left, crate::proofs::Lefts::unreported_by_left))]
fn checked(
    alloc: Global,
    around: &Around<'_>,
    block: usize,
    line: &str,
    change: Change,
) -> Result<Change, NoMemory>
    requires outside { around.now.in_body ≡ false }
    requires unreported { KeepsUnreported line.now change }
    requires values { KeepsAllValues around.now.style line.now (lines_of change) change.done.items change.left.items }
    ensures unreported { IfOk result (KeepsUnreported line.now) }
    ensures values { IfOk result (λ c. KeepsAllValues around.now.style line.now (lines_of c) c.done.items c.left.items) }
    ensures labels { IfOk result (λ c. KeepsLabels around.now.style (record { source = around.now.source.now; blocks = block }) line.now (lines_of c) c.done.items c.left.items) }
{
    if keeps_labels(alloc, around, block, line, &change)? {
        Ok(change)
    } else {
        with_label_left(change)
    }
}

/// The change that rules made of a line in the block of this number; where local labels got names and the line may say something
/// else, a local label is left, unless the line calls a macro or is in the body of one.
pub(crate) fn labelled(
    alloc: Global,
    around: &Around<'_>,
    block: usize,
    line: &str,
    change: Change,
) -> Result<Change, NoMemory>
    requires unreported { KeepsUnreported line.now change }
    requires values { around.now.is_call ≡ false → KeepsAllValues around.now.style line.now (lines_of change) change.done.items change.left.items }
    ensures unreported { IfOk result (KeepsUnreported line.now) }
    ensures values { IfOk result (λ c. around.now.is_call ≡ false → KeepsAllValues around.now.style line.now (lines_of c) c.done.items c.left.items) }
    ensures labels { IfOk result (λ c. around.now.is_call ≡ false → around.now.in_body ≡ false → KeepsLabels around.now.style (record { source = around.now.source.now; blocks = block }) line.now (lines_of c) c.done.items c.left.items) }
{
    if around.is_call {
        Ok(change)
    } else if around.in_body {
        Ok(change)
    } else {
        checked(alloc, around, block, line, change)
    }
}
