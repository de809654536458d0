//! Memories that are shown.

ghost use Rattle.std.specs.Prelude.{◌≡◌, ℕ};

/// A memory whose words can be read one by one: 65,536 of them.
pub(crate) trait Memory {
    /// The word at an address.
    ghost word_at: { Self → ℕ → ℕ };

    /// The word at an address.
    fn word(&self, address: u16) -> u16
        ensures { result ≡ word_at self.now address };
}
