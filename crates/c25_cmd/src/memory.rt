//! `MEMORY`: the ranges of the pages.

ghost use Rattle.std.specs.Prelude.{◌≡◌, ◌≤◌, ◌<◌, ◌+◌, length, [], ◌∷◌, ◌++◌, IfOk, OnOk};
ghost use Rattle.c25_meaning_linking.specs.CommandGrammar.{repeated};
ghost use Rattle.c25_meaning_linking.specs.CommandMemory.{page_at, attributes_at, extent_at, range_at, more_ranges, memory_at};
ghost use Rattle.c25_meaning_linking.specs.declared.command_token.Want.TheVariants as want;
ghost use Rattle.c25_meaning_linking.specs.declared.command_token.Sign.TheVariants as sign;
ghost use Rattle.c25_cmd.specs.Known.{HasRangeNames, KnowsWords};
ghost use Rattle.c25_meaning_common.specs.Results.{Meets};
ghost use Rattle.c25_cmd.specs.View.{tokens_of, range_of, ranges_of};

use crate::command::MemoryRange;
use crate::grammar::{
    CommandFailure, after, begins, number_at, page_number_at, past, refusal, setting_at, wanted,
};
use crate::ranges::{PAGE_WORDS, RangesSoFar, no_ranges, shares_word, take_name, take_range};
use crate::token::Token;
use c25_meaning_linking::command_fault::CommandFault;
use c25_meaning_linking::command_token::{Keyword, Sign, Want};
use std::alloc::Global;

/// The page of the ranges that follow, and the tokens after `PAGE n :`; the page so far and all tokens where
/// that does not stand here.
#[tactic(auto, unfolding(c25_meaning_linking::specs::CommandMemory::page_at))]
fn page_at(page: u8, tokens: &[Token]) -> Result<(u8, &[Token]), CommandFailure>
    requires { page ≤ 1 }
    ensures given { Meets (λ x. (x.0, tokens_of x.1.now)) (page_at page (tokens_of tokens.now)) result }
    ensures low { IfOk result (λ x. x.0 ≤ 1) }
{
    if !begins(Want::Keyword(Keyword::Page), tokens) {
        return Ok((page, tokens));
    }
    let (number, tokens) = page_number_at(past(Want::Keyword(Keyword::Page), tokens))?;
    let tokens = after(Want::Sign(Sign::Colon), tokens)?;
    Ok((number, tokens))
}

/// The tokens after one word in parentheses, which has no meaning here, if that stands at the front.
#[tactic(auto, unfolding(c25_meaning_linking::specs::CommandMemory::attributes_at))]
fn attributes_at(tokens: &[Token]) -> Result<&[Token], CommandFailure>
    ensures { Meets (λ x. tokens_of x.now) (attributes_at (tokens_of tokens.now)) result }
{
    if !begins(Want::Sign(Sign::OpenParenthesis), tokens) {
        return Ok(tokens);
    }
    let tokens = past(Want::Sign(Sign::OpenParenthesis), tokens);
    let tokens = after(Want::AnyWord, tokens)?;
    after(Want::Sign(Sign::CloseParenthesis), tokens)
}

/// The origin and the length of a range of this page, and the tokens after them; `RangeSize` or
/// `RangeOverlap` where it may not follow the ranges before it.
#[tactic(auto, unfolding(c25_meaning_linking::specs::CommandMemory::extent_at))]
fn extent_at<'t>(
    page: u8,
    ranges: &RangesSoFar<'_>,
    tokens: &'t [Token],
) -> Result<((u32, u32), &'t [Token]), CommandFailure>
    requires page { page ≤ 1 }
    requires known { KnowsWords ranges.now.taken.items (ranges_of ranges.now.list.items) }
    ensures given { Meets (λ x. (x.0, tokens_of x.1.now)) (extent_at page (ranges_of ranges.now.list.items) (tokens_of tokens.now)) result }
    ensures words { IfOk result (λ x. 0 < x.0.1) }
    ensures within { IfOk result (λ x. x.0.0 + x.0.1 ≤ 65536) }
{
    let tokens = setting_at(Keyword::Origin, tokens)?;
    let (origin, tokens) = number_at(tokens)?;
    let tokens = setting_at(Keyword::Length, past(Want::Sign(Sign::Comma), tokens))?;
    let (length, rest) = number_at(tokens)?;
    if length == 0 || u64::from(origin) + u64::from(length) > u64::from(PAGE_WORDS) {
        return Err(refusal(CommandFault::RangeSize, tokens));
    }
    if shares_word(ranges, page, origin, length) {
        return Err(refusal(CommandFault::RangeOverlap, tokens));
    }
    Ok(((origin, length), rest))
}

/// A range of this page, which may follow those that were read, and the tokens after it. Its name joins
/// theirs.
#[tactic(auto, unfolding(c25_meaning_linking::specs::CommandMemory::range_at))]
fn range_at<'a>(
    alloc: Global,
    page: u8,
    ranges: &mut RangesSoFar<'a>,
    tokens: &'a [Token],
) -> Result<(MemoryRange, &'a [Token]), CommandFailure>
    requires page { page ≤ 1 }
    requires named { HasRangeNames (λ k. k.0) (λ k. k.1.now) ranges.old.names (ranges_of ranges.old.list.items) }
    requires known { KnowsWords ranges.old.taken.items (ranges_of ranges.old.list.items) }
    ensures given { Meets (λ x. (range_of x.0, tokens_of x.1.now)) (range_at page (ranges_of ranges.old.list.items) (tokens_of tokens.now)) result }
    ensures named { IfOk result (λ x. HasRangeNames (λ k. k.0) (λ k. k.1.now) ranges.new.names (ranges_of ranges.old.list.items ++ range_of x.0 ∷ [])) }
    ensures list { ranges.new.list ≡ ranges.old.list }
    ensures taken { ranges.new.taken ≡ ranges.old.taken }
    ensures page { IfOk result (λ x. x.0.page ≡ page) }
    ensures words { IfOk result (λ x. 0 < x.0.length) }
    ensures within { IfOk result (λ x. x.0.origin + x.0.length ≤ 65536) }
{
    let (name, rest) = wanted(Want::Name, tokens)?;
    let is_fresh = take_name(ranges, page, name.text.as_str())?;
    if !is_fresh {
        return Err(refusal(CommandFault::Twice, tokens));
    }
    let rest = attributes_at(rest)?;
    let rest = after(Want::Sign(Sign::Colon), rest)?;
    let ((origin, length), rest) = extent_at(page, ranges, rest)?;
    let name = String::from_str(alloc, name.text.as_str())?;
    let range = MemoryRange {
        page,
        name,
        origin,
        length,
    };
    Ok((range, rest))
}

/// Reads a range more, and returns its page and the tokens after it.
#[tactic(auto, unfolding(c25_meaning_linking::specs::CommandMemory::more_ranges))]
fn add_range<'a>(
    alloc: Global,
    page: u8,
    ranges: &mut RangesSoFar<'a>,
    tokens: &'a [Token],
) -> Result<(u8, &'a [Token]), CommandFailure>
    requires page { page ≤ 1 }
    requires named { HasRangeNames (λ k. k.0) (λ k. k.1.now) ranges.old.names (ranges_of ranges.old.list.items) }
    requires known { KnowsWords ranges.old.taken.items (ranges_of ranges.old.list.items) }
    ensures given { Meets (λ x. ((x.0, ranges_of ranges.new.list.items), tokens_of x.1.now))
        (more_ranges (page, ranges_of ranges.old.list.items) (tokens_of tokens.now)) result }
    ensures page { IfOk result (λ x. x.0 ≤ 1) }
    ensures named { OnOk result (HasRangeNames (λ k. k.0) (λ k. k.1.now) ranges.new.names (ranges_of ranges.new.list.items)) }
    ensures known { OnOk result (KnowsWords ranges.new.taken.items (ranges_of ranges.new.list.items)) }
{
    let (page, rest) = page_at(page, tokens)?;
    let (range, rest) = range_at(alloc, page, ranges, rest)?;
    take_range(ranges, page, range.origin, range.length);
    ranges.list.push(range)?;
    Ok((page, rest))
}

/// The ranges up to the brace that closes them.
fn ranges_at(
    alloc: Global,
    tokens: &[Token],
) -> Result<((u8, Vec<MemoryRange>), &[Token]), CommandFailure>
    ensures { Meets (λ x. ((x.0.0, ranges_of x.0.1.items), tokens_of x.1.now))
        (repeated (want.Sign sign.CloseBrace) more_ranges (length tokens.now) (0, []) (tokens_of tokens.now)) result }
{
    let mut ranges = no_ranges(alloc)?;
    let mut page = 0;
    let mut rest = tokens;
    for _ in 0..tokens.len() {
        if begins(Want::Sign(Sign::CloseBrace), rest) {
            return Ok(((page, ranges.list), rest));
        }
        let (next, after) = add_range(alloc, page, &mut ranges, rest)?;
        page = next;
        rest = after;
    }
    Ok(((page, ranges.list), rest))
}

/// The ranges after the word `MEMORY`.
#[tactic(auto, unfolding(c25_meaning_linking::specs::CommandMemory::memory_at))]
pub(crate) fn memory_at(
    alloc: Global,
    tokens: &[Token],
) -> Result<(Vec<MemoryRange>, &[Token]), CommandFailure>
    ensures { Meets (λ x. (ranges_of x.0.items, tokens_of x.1.now)) (memory_at (tokens_of tokens.now)) result }
{
    let tokens = after(Want::Sign(Sign::OpenBrace), tokens)?;
    let ((_, ranges), tokens) = ranges_at(alloc, tokens)?;
    let tokens = after(Want::Sign(Sign::CloseBrace), tokens)?;
    Ok((ranges, tokens))
}
