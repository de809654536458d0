//! The state between two lines of a source that is gone over for all its faults.

use c25_phases::Progress;
use c25_phases::fault::AsmFault;

/// What the lines so far have made, and the faults of those that were left out.
#[derive(Drop)]
pub(crate) struct LinesGoneOver<'a> {
    pub(crate) progress: Box<Progress<'a>>,
    pub(crate) faults: Vec<AsmFault<'a>>,
}
