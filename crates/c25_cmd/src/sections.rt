//! `SECTIONS`: where sections are to stand.

ghost use Rattle.std.specs.Prelude.{◌≡◌, length, [], ◌∷◌, ◌++◌, true, not, IfOk, OnOk, string_bytes};
ghost use Rattle.std.specs.List.{list_any};
ghost use Rattle.c25_meaning_linking.specs.Command.{PlacingData};
ghost use Rattle.c25_meaning_linking.specs.CommandGrammar.{repeated};
ghost use Rattle.c25_meaning_linking.specs.CommandSections.{input_at, contents_at, place_at, target_at, section_page_at, run_at, is_placing, placing_at, more_placings, sections_at};
ghost use Rattle.c25_meaning_linking.specs.declared.command_token.Want.TheVariants as want;
ghost use Rattle.c25_meaning_linking.specs.declared.command_token.Sign.TheVariants as sign;
ghost use Rattle.c25_cmd.specs.Known.{HasNames};
ghost use Rattle.c25_meaning_common.specs.Results.{Meets};
ghost use Rattle.c25_cmd.specs.View.{tokens_of, target_of, placing_of, placings_of};

use crate::command::{Placing, Target};
use crate::grammar::{
    CommandFailure, after, begins, number_at, page_number_at, past, refusal, wanted,
};
use crate::token::Token;
use c25_meaning_linking::command_fault::CommandFault;
use c25_meaning_linking::command_token::{Keyword, Sign, Want};
use std::alloc::{AllocError, Global};
use std::collections::BTreeSet;

/// Reads `*(name)` or nothing, and returns the tokens after it.
#[tactic(auto, unfolding(c25_meaning_linking::specs::CommandSections::input_at))]
fn input_at<'a>(name: &str, tokens: &'a [Token]) -> Result<&'a [Token], CommandFailure>
    ensures { Meets (λ x. tokens_of x.now) (input_at name.now (tokens_of tokens.now)) result }
{
    if !begins(Want::Sign(Sign::Star), tokens) {
        return Ok(tokens);
    }
    let tokens = past(Want::Sign(Sign::Star), tokens);
    let tokens = after(Want::Sign(Sign::OpenParenthesis), tokens)?;
    let (word, rest) = wanted(Want::Name, tokens)?;
    if word.text.as_str() != name {
        return Err(refusal(CommandFault::Syntax, tokens));
    }
    after(Want::Sign(Sign::CloseParenthesis), rest)
}

/// Reads the braces and what is in them, if they are there, and returns the tokens after them.
#[tactic(auto, unfolding(c25_meaning_linking::specs::CommandSections::contents_at))]
fn contents_at<'a>(name: &str, tokens: &'a [Token]) -> Result<&'a [Token], CommandFailure>
    ensures { Meets (λ x. tokens_of x.now) (contents_at name.now (tokens_of tokens.now)) result }
{
    if !begins(Want::Sign(Sign::OpenBrace), tokens) {
        return Ok(tokens);
    }
    let tokens = input_at(name, past(Want::Sign(Sign::OpenBrace), tokens))?;
    after(Want::Sign(Sign::CloseBrace), tokens)
}

/// A range's name or an address.
#[tactic(auto, unfolding(c25_meaning_linking::specs::CommandSections::place_at))]
fn place_at(alloc: Global, tokens: &[Token]) -> Result<(Target, &[Token]), CommandFailure>
    ensures { Meets (λ x. (target_of x.0, tokens_of x.1.now)) (place_at (tokens_of tokens.now)) result }
{
    if begins(Want::Name, tokens) {
        let (name, rest) = wanted(Want::Name, tokens)?;
        return Ok((
            Target::InRange(String::from_str(alloc, name.text.as_str())?),
            rest,
        ));
    }
    let (number, rest) = number_at(tokens)?;
    Ok((Target::At(number), rest))
}

/// `> T`, `load = T`, `load > T` or nothing.
#[tactic(auto, unfolding(c25_meaning_linking::specs::CommandSections::target_at))]
fn target_at(alloc: Global, tokens: &[Token]) -> Result<(Target, &[Token]), CommandFailure>
    ensures { Meets (λ x. (target_of x.0, tokens_of x.1.now)) (target_at (tokens_of tokens.now)) result }
{
    if begins(Want::Sign(Sign::Greater), tokens) {
        return place_at(alloc, past(Want::Sign(Sign::Greater), tokens));
    }
    if begins(Want::Keyword(Keyword::Load), tokens) {
        let tokens = past(Want::Keyword(Keyword::Load), tokens);
        let tokens = after(Want::LoadSign, tokens)?;
        return place_at(alloc, tokens);
    }
    Ok((Target::Anywhere, tokens))
}

/// `PAGE n` or nothing.
#[tactic(auto, unfolding(c25_meaning_linking::specs::CommandSections::section_page_at))]
fn page_at(tokens: &[Token]) -> Result<(Option<u8>, &[Token]), CommandFailure>
    ensures { Meets (λ x. (x.0, tokens_of x.1.now)) (section_page_at (tokens_of tokens.now)) result }
{
    if !begins(Want::Keyword(Keyword::Page), tokens) {
        return Ok((None, tokens));
    }
    let (number, tokens) = page_number_at(past(Want::Keyword(Keyword::Page), tokens))?;
    Ok((Some(number), tokens))
}

/// `run = number` and a comma that may be left out, or nothing.
#[tactic(auto, unfolding(c25_meaning_linking::specs::CommandSections::run_at))]
fn run_at(tokens: &[Token]) -> Result<(Option<u32>, &[Token]), CommandFailure>
    ensures { Meets (λ x. (x.0, tokens_of x.1.now)) (run_at (tokens_of tokens.now)) result }
{
    if !begins(Want::Keyword(Keyword::Run), tokens) {
        return Ok((None, tokens));
    }
    let tokens = past(Want::Keyword(Keyword::Run), tokens);
    let tokens = after(Want::Sign(Sign::Equals), tokens)?;
    let (number, tokens) = number_at(tokens)?;
    Ok((Some(number), past(Want::Sign(Sign::Comma), tokens)))
}

/// What a command says of a section after the colon.
#[tactic(auto, unfolding(c25_meaning_linking::specs::CommandSections::placing_at))]
fn placing_at<'a>(
    alloc: Global,
    name: &str,
    tokens: &'a [Token],
) -> Result<(Placing, &'a [Token]), CommandFailure>
    ensures given { Meets (λ x. (placing_of x.0, tokens_of x.1.now)) (placing_at name.now (tokens_of tokens.now)) result }
    ensures name { IfOk result (λ x. string_bytes x.0.name ≡ name.now) }
{
    let tokens = contents_at(name, tokens)?;
    let (target, tokens) = target_at(alloc, tokens)?;
    let (page, tokens) = page_at(tokens)?;
    let (run, tokens) = run_at(past(Want::Sign(Sign::Comma), tokens))?;
    let name = String::from_str(alloc, name)?;
    let placing = Placing {
        name,
        target,
        page,
        run,
    };
    Ok((placing, tokens))
}

/// The sections that have been read, and the set of their names, which finds one that comes twice without a
/// look at each of them.
#[derive(Drop)]
struct Sections<'a> {
    list: Vec<Placing>,
    names: BTreeSet<&'a str>,
}

/// Adds a name to those of the sections, and returns whether it is new.
fn take_name<'a>(sections: &mut Sections<'a>, name: &'a str) -> Result<bool, AllocError>
    requires { HasNames (λ k. k.now) sections.old.names (placings_of sections.old.list.items) }
    ensures fresh { IfOk result (λ fresh. fresh ≡ not (list_any (is_placing name.now) (placings_of sections.old.list.items))) }
    ensures named { IfOk result (λ fresh. fresh ≡ true → (p : PlacingData) → p.name ≡ name.now
        → HasNames (λ k. k.now) sections.new.names (placings_of sections.old.list.items ++ p ∷ [])) }
    ensures list { sections.new.list ≡ sections.old.list }
{
    Ok(sections.names.insert(name)?)
}

/// Reads a section more, and returns the tokens after it.
#[tactic(auto, unfolding(c25_meaning_linking::specs::CommandSections::more_placings, c25_meaning_linking::specs::CommandSections::placing_at))]
fn add_placing<'a>(
    alloc: Global,
    sections: &mut Sections<'a>,
    tokens: &'a [Token],
) -> Result<&'a [Token], CommandFailure>
    requires { HasNames (λ k. k.now) sections.old.names (placings_of sections.old.list.items) }
    ensures given { Meets (λ x. (placings_of sections.new.list.items, tokens_of x.now))
        (more_placings (placings_of sections.old.list.items) (tokens_of tokens.now)) result }
    ensures named { OnOk result (HasNames (λ k. k.now) sections.new.names (placings_of sections.new.list.items)) }
{
    let (name, rest) = wanted(Want::Name, tokens)?;
    let is_fresh = take_name(sections, name.text.as_str())?;
    if !is_fresh {
        return Err(refusal(CommandFault::Twice, tokens));
    }
    let rest = after(Want::Sign(Sign::Colon), rest)?;
    let (placing, rest) = placing_at(alloc, name.text.as_str(), rest)?;
    sections.list.push(placing)?;
    Ok(rest)
}

/// The sections up to the brace that closes them.
fn placings_at(alloc: Global, tokens: &[Token]) -> Result<(Vec<Placing>, &[Token]), CommandFailure>
    ensures { Meets (λ x. (placings_of x.0.items, tokens_of x.1.now))
        (repeated (want.Sign sign.CloseBrace) more_placings (length tokens.now) [] (tokens_of tokens.now)) result }
{
    let mut sections = Sections {
        list: Vec::new(alloc),
        names: BTreeSet::new(alloc),
    };
    let mut rest = tokens;
    for _ in 0..tokens.len() {
        if begins(Want::Sign(Sign::CloseBrace), rest) {
            return Ok((sections.list, rest));
        }
        let after = add_placing(alloc, &mut sections, rest)?;
        rest = after;
    }
    Ok((sections.list, rest))
}

/// The sections after the word `SECTIONS`.
#[tactic(auto, unfolding(c25_meaning_linking::specs::CommandSections::sections_at))]
pub(crate) fn sections_at(
    alloc: Global,
    tokens: &[Token],
) -> Result<(Vec<Placing>, &[Token]), CommandFailure>
    ensures { Meets (λ x. (placings_of x.0.items, tokens_of x.1.now)) (sections_at (tokens_of tokens.now)) result }
{
    let tokens = after(Want::Sign(Sign::OpenBrace), tokens)?;
    let (placings, tokens) = placings_at(alloc, tokens)?;
    let tokens = after(Want::Sign(Sign::CloseBrace), tokens)?;
    Ok((placings, tokens))
}
