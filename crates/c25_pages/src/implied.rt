//! Whether what is known includes what is known elsewhere.

ghost use Rattle.std.specs.Prelude.{◌≡◌, ℕ, Some, IsTrue};
ghost use Rattle.c25_meaning_pages.specs.Known.{Implies};
ghost use Rattle.c25_meaning_pages.specs.declared.known.Saved.{Saved};

use c25_meaning_pages::known::{Known, Saved};

/// Whether a page is known to be another one, where that is known.
fn page_implies(page: Option<u16>, weaker: Option<u16>) -> bool
    ensures { IsTrue result → (p : ℕ) → weaker ≡ Some p → page ≡ Some p }
{
    match weaker {
        None => true,
        Some(wanted) => match page {
            None => false,
            Some(page) => page == wanted,
        },
    }
}

/// Whether an ST0 is known to be saved in a word, with its DP, where that is known.
fn saved_implies(saved: Option<Saved>, weaker: Option<Saved>) -> bool
    ensures { IsTrue result → (v : Saved) → weaker ≡ Some v → saved ≡ Some v }
{
    match weaker {
        None => true,
        Some(wanted) => match saved {
            None => false,
            Some(saved) => saved.address == wanted.address && saved.page == wanted.page,
        },
    }
}

/// Whether all is known that is known elsewhere, and as many words are pushed.
pub(crate) fn implies(known: &Known, weaker: &Known) -> bool
    ensures { IsTrue result → Implies known.now weaker.now }
{
    page_implies(known.page, weaker.page)
        && saved_implies(known.saved, weaker.saved)
        && (known.masked || !weaker.masked)
        && (known.shadowed || !weaker.shadowed)
        && (known.once || !weaker.once)
        && (known.asleep || !weaker.asleep)
        && known.pushed == weaker.pushed
}
