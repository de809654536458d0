//! A linked program with its modules and the texts of its files.

ghost use Rattle.std.specs.Prelude.{◌≡◌, true};
ghost use Rattle.c25_meaning_image.specs.Marks.{fit_from, run_fit};

use c25_chain::linked::Linked;
use c25_module::Module;
use c25_prompt_lines::program::SourceText;

/// A linked program with its modules, whose symbols a session names, and the texts of the files that its sources are
/// read from.
#[derive(Drop)]
pub struct Debugged {
    pub(crate) modules: Vec<Module>,
    pub(crate) linked: Linked,
    pub(crate) texts: Vec<SourceText>,
    ghost marks_fit: { fit_from 0 linked.image.marks ≡ true },
    ghost run_marks_fit: { run_fit linked.image.marks linked.image.run_marks ≡ true },
}
