//! Two sections at addresses that a command gives, where they share a word.

ghost use Rattle.std.specs.Option.{option_map};
ghost use Rattle.std.specs.Prelude.{◌≡◌, ◌<◌, ◌^◌, IfOk, find, map};
ghost use Rattle.std.specs.Str.{bytes_eq};
ghost use Rattle.c25_cmd.specs.View.{command_data};
ghost use Rattle.c25_link_faults.specs.Overlaps.{is_in_way, overlap_among, overlap_data, overlap_of, share, span_data};

use crate::lacking::placings_of;
use crate::spans::{Span, spans};
use c25_cmd::Command;
use c25_module::Module;
use std::alloc::{AllocError, Global};

/// A section, and another one that shares a word with it.
#[derive(Clone, Copy)]
pub struct Overlap<'a> {
    pub section: Span<'a>,
    pub other: Span<'a>,
}

/// Whether two sections share a word.
fn share(a: &Span<'_>, b: &Span<'_>) -> bool
    ensures { result ≡ share (span_data a.now) (span_data b.now) }
{
    a.page == b.page && a.first.max(b.first) <= a.last.min(b.last)
}

/// Whether a section is another one and shares a word.
fn is_in_way(section: &Span<'_>, other: &Span<'_>) -> bool
    ensures { result ≡ is_in_way (span_data section.now) (span_data other.now) }
{
    section.name != other.name && share(section, other)
}

/// Whether a section has a name.
fn is_called(span: &Span<'_>, name: &str) -> bool
    ensures { result ≡ bytes_eq name.now (span_data span.now).name }
{
    name == span.name
}

/// The section of a name.
fn named<'a>(list: &[Span<'a>], name: &str) -> Option<Span<'a>>
    ensures { option_map span_data result ≡ find (λ s. bytes_eq name.now s.name) (map span_data list.now) }
{
    for span in list {
        if is_called(span, name) {
            return Some(*span);
        }
    }
    None
}

/// The first other section that shares a word with a section.
fn in_way<'a>(list: &[Span<'a>], section: &Span<'_>) -> Option<Span<'a>>
    ensures { option_map span_data result ≡ find (is_in_way (span_data section.now)) (map span_data list.now) }
{
    for span in list {
        if is_in_way(section, span) {
            return Some(*span);
        }
    }
    None
}

/// The section of a name, and the first other one that shares a word with it.
fn overlap_among<'a>(list: &[Span<'a>], name: &str) -> Option<Overlap<'a>>
    ensures { option_map overlap_data result ≡ overlap_among (map span_data list.now) name.now }
{
    let section = named(list, name)?;
    let other = in_way(list, &section)?;
    Some(Overlap { section, other })
}

/// The section of a name at its address under a command, and the first other section with an address that
/// shares a word with it, where [`link`](c25_link::link) refuses the section with `Overlap` (74). `None` where
/// there is none; `AllocError` where memory runs out.
pub fn overlap_of<'a>(
    alloc: Global,
    modules: &[Module],
    command: &'a Command,
    name: &str,
) -> Result<Option<Overlap<'a>>, AllocError>
    ensures { IfOk result (λ overlap. option_map overlap_data overlap ≡ overlap_of modules.now (command_data command.now) name.now) }
{
    let list = spans(alloc, modules, placings_of(command))?;
    Ok(overlap_among(&list, name))
}
