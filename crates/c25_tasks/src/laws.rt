//! A law of explanations.

ghost use Rattle.c25_chain.specs.Refusal.{Fault};
ghost use Rattle.c25_tasks.specs.Lines.{EndsWithHeading};

/// The line of each fault of the chain ends with the first line of its explanation, after its place.
pub fn lines_end_with_headings()
    ensures { (fault : Fault) → EndsWithHeading fault }
{}
