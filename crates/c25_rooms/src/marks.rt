//! Which words of a page sections have.

ghost use Rattle.std.specs.Prelude.{◌≡◌, ◌∷◌, [], ◌++◌, All, List, IfOk, length};
ghost use Rattle.c25_meaning_linking.specs.Place as place;
ghost use Rattle.c25_place.specs.Placement.{IsWithin};
ghost use Rattle.c25_place.specs.Room.{KnowsTaken};
ghost use Rattle.c25_place.specs.View.{place_view, places_view};
ghost use Rattle.c25_rooms.specs.Marks.{KnowsMarks};

use c25_cmd::taken::{free_words, take};
use c25_place::Place;
use std::alloc::{AllocError, Global};

/// For each word of a page whether a section has it.
#[derive(Drop)]
pub(crate) struct Marks {
    page: u8,
    pub taken: Vec<bool>,
}

/// Marks the words of a section, if it is on a page.
#[tactic(auto, using(c25_place::proofs::Fits::taken_more, c25_place::proofs::Fits::taken_same))]
fn take_place(taken: &mut [bool], section: &Place<'_>, page: u8)
    requires within { IsWithin section.now }
    requires sized { length taken.old ≡ 65536 }
    ensures sized { length taken.new ≡ 65536 }
    ensures taken { (places : List place.Place) → KnowsTaken taken.old page places → KnowsTaken taken.new page (places ++ place_view section.now ∷ []) }
{
    if section.page == page {
        let start = section.base as usize;
        take(taken, start, start + section.size as usize);
    }
}

/// Marks the words of these sections on a page of which no word is marked.
fn take_places(taken: &mut [bool], places: &[Place<'_>], page: u8)
    requires within { All IsWithin places.now }
    requires none { KnowsTaken taken.old page [] }
    ensures { KnowsTaken taken.new page (places_view places.now) }
{
    for section in places {
        take_place(taken, section, page);
    }
}

/// For each word of a page whether one of these sections has it.
#[tactic(auto, using(c25_place::proofs::Fits::taken_none))]
fn taken_on(alloc: Global, places: &[Place<'_>], page: u8) -> Result<Vec<bool>, AllocError>
    requires { All IsWithin places.now }
    ensures { IfOk result (λ taken. KnowsTaken taken.items page (places_view places.now)) }
{
    let mut taken = free_words(alloc, 65_536)?;
    take_places(&mut taken, places, page);
    Ok(taken)
}

impl Marks {
    /// The words of a page that these sections have.
    pub(crate) fn new(alloc: Global, places: &[Place<'_>], page: u8) -> Result<Marks, AllocError>
        requires { All IsWithin places.now }
        ensures marks { IfOk result (λ marks. KnowsMarks marks (places_view places.now)) }
        ensures page { IfOk result (λ marks. marks.page ≡ page) }
    {
        let taken = taken_on(alloc, places, page)?;
        Ok(Marks { page, taken })
    }

    /// The same of a page, which are these where they are of that page.
    pub(crate) fn on_page(
        self,
        alloc: Global,
        places: &[Place<'_>],
        page: u8,
    ) -> Result<Marks, AllocError>
        requires within { All IsWithin places.now }
        requires marks { KnowsMarks self (places_view places.now) }
        ensures marks { IfOk result (λ marks. KnowsMarks marks (places_view places.now)) }
        ensures page { IfOk result (λ marks. marks.page ≡ page) }
    {
        if self.page == page {
            Ok(self)
        } else {
            Marks::new(alloc, places, page)
        }
    }
}
