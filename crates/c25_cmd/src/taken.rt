//! Which words of a page, or of both, are taken: a `bool` a word.

ghost use Rattle.std.specs.Prelude.{◌≡◌, ◌<◌, ◌≤◌, ◌&&◌, ◌||◌, ℕ, true, false, nat_lt, nat_le, length, slice_index_or, IfOk, replicate};

use std::alloc::{AllocError, Global};

/// A list of so many free words; `AllocError` where memory runs out.
pub fn free_words(alloc: Global, count: usize) -> Result<Vec<bool>, AllocError>
    ensures { IfOk result (λ v. v.items ≡ replicate count false) }
{
    vec![in alloc; false; count]
}

/// Whether one of the words from `start` up to `end` is taken.
pub fn any_taken(taken: &[bool], start: usize, end: usize) -> bool
    requires { end ≤ length taken.now }
    ensures found { result ≡ true → (k : ℕ) × (start ≤ k) × (k < end) × (slice_index_or taken.now k false ≡ true) }
    ensures none { result ≡ false → (k : ℕ) → start ≤ k → k < end → slice_index_or taken.now k false ≡ false }
{
    for k in start..end {
        if taken[k] {
            return true;
        }
    }
    false
}

/// Takes the words from `start` up to `end`.
pub fn take(taken: &mut [bool], start: usize, end: usize)
    requires ordered { start ≤ end }
    requires within { end ≤ length taken.old }
    ensures sized { length taken.new ≡ length taken.old }
    ensures taken { (k : ℕ) → slice_index_or taken.new k false ≡ (slice_index_or taken.old k false || (nat_le start k && nat_lt k end)) }
{
    for k in start..end {
        taken[k] = true;
    }
}
