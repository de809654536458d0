//! A linked program with the inputs of its run.

ghost use Rattle.std.specs.Prelude.{◌≡◌, true};
ghost use Rattle.c25_meaning_image.specs.Marks.{fit_from, run_fit};

use crate::built::Built;
use c25_board::samples::Samples;
use c25_board::schedule::Schedule;

/// A program with its texts and listings, and the samples and the schedule of its run.
#[derive(Drop)]
pub struct Ready {
    pub built: Built,
    pub samples: Samples,
    pub schedule: Schedule,
    ghost marks_fit: { fit_from 0 built.linked.image.marks ≡ true },
    ghost run_marks_fit: { run_fit built.linked.image.marks built.linked.image.run_marks ≡ true },
}
