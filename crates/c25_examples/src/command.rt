//! The commands of a session: calls of the program `c25`, and lines of a file.

/// What a program reads from standard input.
#[derive(Clone, Copy)]
pub(crate) enum Input<'a> {
    Nothing,
    /// This text and a line feed.
    Line(&'a str),
    /// The file of this name.
    File(&'a str),
}

/// A call of the program `c25`.
#[derive(Clone, Copy)]
pub(crate) struct Call<'a> {
    /// The command line, with the program's name first.
    pub(crate) words: &'a str,
    pub(crate) input: Input<'a>,
    /// Whether standard error is shown.
    pub(crate) shows_errors: bool,
}

/// A range of lines of a file, as `sed` is asked for it.
#[derive(Clone, Copy)]
pub(crate) struct SessionLines<'a> {
    pub(crate) first: usize,
    pub(crate) last: usize,
    pub(crate) file: &'a str,
}

/// The text in quotes of either kind that `echo` is given, and the call that reads it.
fn piped(line: &str) -> Option<(&str, &str)> {
    let line = line.strip_prefix("echo ")?;
    match line.strip_prefix('\'') {
        Some(line) => line.split_once("' | "),
        None => line.strip_prefix('"')?.split_once("\" | "),
    }
}

/// The command line and the input of a call, without the redirection of standard error.
fn words_and_input(line: &str) -> (&str, Input<'_>) {
    if let Some((text, words)) = piped(line) {
        return (words, Input::Line(text));
    }
    match line.split_once(" < ") {
        Some((words, file)) => (words, Input::File(file)),
        None => (line, Input::Nothing),
    }
}

/// A call of the program `c25`: `c25 ARGUMENTS..`, after `echo 'TEXT' |` or before `< FILE` where it reads
/// standard input, and before `2>/dev/null` where standard error is not shown.
pub(crate) fn call_of(line: &str) -> Option<Call<'_>> {
    let (line, shows_errors) = match line.strip_suffix(" 2>/dev/null") {
        Some(line) => (line, false),
        None => (line, true),
    };
    let (words, input) = words_and_input(line);
    if words.split(' ').next() != Some("c25") {
        return None;
    }
    Some(Call {
        words,
        input,
        shows_errors,
    })
}

/// The range of lines of `-n FIRST,LASTp FILE`.
pub(crate) fn lines_of(told: &str) -> Option<SessionLines<'_>> {
    let (lines, file) = told.strip_prefix("-n ")?.split_once("p ")?;
    let (first, last) = lines.split_once(',')?;
    Some(SessionLines {
        first: first.parse().ok()?,
        last: last.parse().ok()?,
        file,
    })
}
