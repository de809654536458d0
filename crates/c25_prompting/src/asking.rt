//! A reader that asks for what it reads.

use std::io;
use std::io::{Read, Write};

/// What is written before commands are read from a terminal.
const PROMPT: &[u8] = b"(c25) ";

/// Writes the prompt, and lets the writer pass it on. One that cannot be written is left out.
fn ask<E: Write>(prompts: &mut E) {
    if prompts.write_all(PROMPT).is_ok() {
        let _passed_on = prompts.flush();
    }
}

/// A reader that gives what another does. Where it asks, it writes a prompt before each read, so that whoever types
/// sees when the next command is waited for.
#[derive(Drop)]
pub struct Asking<R, E> {
    pub input: R,
    pub prompts: E,
    pub asks: bool,
}

impl<R: Read, E: Write> Read for Asking<R, E> {
    ghost remaining = { λ a. R.remaining a.input };

    fn read(&mut self, buf: &mut [u8]) -> io::Result<usize> {
        if self.asks {
            ask(&mut self.prompts);
        }
        self.input.read(buf)
    }
}
