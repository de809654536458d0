//! What is known where two ways meet.

use c25_meaning_pages::known::Known;

/// What is known on both of two ways. Where they pushed another number of words, that of the first counts, and the table
/// does not verify.
pub(crate) fn joined(first: &Known, second: &Known) -> Known {
    Known {
        page: if first.page == second.page {
            first.page
        } else {
            None
        },
        saved: if first.saved == second.saved {
            first.saved
        } else {
            None
        },
        masked: first.masked && second.masked,
        shadowed: first.shadowed && second.shadowed,
        once: first.once && second.once,
        asleep: first.asleep && second.asleep,
        pushed: first.pushed,
    }
}
