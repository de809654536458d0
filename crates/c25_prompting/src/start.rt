//! Where a session at the prompt over a linked program begins.

ghost use Rattle.std.specs.Prelude.{◌≡◌, is_ok, true};
ghost use Rattle.c25_chain.specs.Chain.{inputs_of};
ghost use Rattle.c25_meaning_image.specs.Marks.{fit_from, run_fit};

use crate::inputs::inputs_in;
use c25_chain::board_of;
use c25_chain::linked::Linked;
use c25_meaning_common::failure::Failure;
use c25_meaning_common::no_memory::NoMemory;
use c25_prompt::going::PromptBoard;
use c25_prompt::start::Start;
use std::alloc::Global;

/// A linked program after a reset, with the samples and the schedule of two texts.
#[derive(Drop)]
pub(crate) struct AfterReset<'a> {
    pub(crate) alloc: Global,
    pub(crate) linked: &'a Linked,
    pub(crate) samples: &'a str,
    pub(crate) schedule: &'a str,
    ghost marks_fit: { fit_from 0 linked.now.image.marks ≡ true },
    ghost run_marks_fit: { run_fit linked.now.image.marks linked.now.image.run_marks ≡ true },
    ghost readable: { is_ok (inputs_of samples.now schedule.now) ≡ true },
}

impl Start for AfterReset<'_> {
    ghost use Rattle.c25_meaning_processor.specs.FirstState.{first_of_pages};
    ghost use Rattle.c25_meaning_processor.specs.Samples.{samples_at};
    ghost use Rattle.c25_prompting.specs.Debugged.{first_of, inputs_read};

    ghost first = { λ s. first_of s.linked.now (inputs_read s.samples.now s.schedule.now) };

    ghost schedule = { λ s. (inputs_read s.samples.now s.schedule.now).entries };

    fn board(&self) -> Result<PromptBoard, NoMemory> {
        match inputs_in(self.alloc, self.samples, self.schedule) {
            Ok((samples, schedule)) => board_of(self.alloc, self.linked, samples, schedule),
            Err(Failure::NoMemory(error)) => Err(error),
            Err(Failure::Fault(_)) => unreachable!(),
        }
    }
}
