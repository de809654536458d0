//! The braces of a command file that are open.

ghost use Rattle.std.specs.Prelude.{◌≡◌, take};
ghost use Rattle.c25_file_hints.specs.CommandFiles.{braces_behind, closed, line_at, open_line, open_place, opened, scan_behind, scan_from, scan_start, standing_behind};

/// Where a text stands.
#[derive(Clone, Copy, PartialEq, Debug)]
pub enum Standing {
    /// Outside of comments.
    Outside,
    /// After the `/` that begins a comment.
    Slash,
    /// In a comment.
    Comment,
    /// In a comment, after a `*`.
    Star,
}

/// Which braces are open; the first one with its byte in the text.
#[derive(Clone, Copy, PartialEq, Debug)]
pub enum Braces {
    /// None.
    Closed,
    /// One.
    Open(usize),
    /// One, and one within it.
    Nested(usize),
}

/// What is known of a text after its first bytes.
#[derive(Clone, Copy, PartialEq, Debug)]
pub struct Scan {
    pub standing: Standing,
    pub braces: Braces,
}

/// Where a text stands after a byte.
fn standing_behind(standing: Standing, byte: u8) -> Standing
    ensures { result ≡ standing_behind standing byte }
{
    match standing {
        Standing::Outside if byte == b'/' => Standing::Slash,
        Standing::Outside => Standing::Outside,
        Standing::Star if byte == b'/' => Standing::Outside,
        Standing::Comment | Standing::Star if byte == b'*' => Standing::Star,
        Standing::Slash | Standing::Comment | Standing::Star => Standing::Comment,
    }
}

/// The open braces with one more, at this byte of the text.
fn opened(braces: Braces, at: usize) -> Braces
    ensures { result ≡ opened braces at }
{
    match braces {
        Braces::Closed => Braces::Open(at),
        Braces::Open(first) | Braces::Nested(first) => Braces::Nested(first),
    }
}

/// The open braces with one less.
fn closed(braces: Braces) -> Braces
    ensures { result ≡ closed braces }
{
    match braces {
        Braces::Closed | Braces::Open(_) => Braces::Closed,
        Braces::Nested(first) => Braces::Open(first),
    }
}

/// The open braces after a byte of the text.
fn braces_behind(standing: Standing, braces: Braces, at: usize, byte: u8) -> Braces
    ensures { result ≡ braces_behind standing braces at byte }
{
    match (standing, byte) {
        (Standing::Outside, b'{') => opened(braces, at),
        (Standing::Outside, b'}') => closed(braces),
        _ => braces,
    }
}

/// A scan after the byte at this place of the text.
fn scan_behind(scan: Scan, at: usize, byte: u8) -> Scan
    ensures { result ≡ scan_behind scan at byte }
{
    Scan {
        standing: standing_behind(scan.standing, byte),
        braces: braces_behind(scan.standing, scan.braces, at, byte),
    }
}

/// A scan after the whole text.
#[tactic(auto, unfolding(crate::specs::CommandFiles::scan_from))]
fn scan_of(text: &[u8]) -> Scan
    ensures { result ≡ scan_from scan_start 0 text.now }
{
    let mut scan = Scan {
        standing: Standing::Outside,
        braces: Braces::Closed,
    };
    for (at, byte) in text.iter().enumerate() {
        scan = scan_behind(scan, at, *byte);
    }
    scan
}

/// The byte of the first brace that is open, outside of comments.
fn open_place(scan: Scan) -> Option<usize>
    ensures { result ≡ open_place scan }
{
    match (scan.standing, scan.braces) {
        (Standing::Outside, Braces::Open(first) | Braces::Nested(first)) => Some(first),
        _ => None,
    }
}

/// The first bytes of a text.
fn front(text: &[u8], count: usize) -> &[u8]
    ensures { result.now ≡ take count text.now }
{
    if count <= text.len() {
        &text[..count]
    } else {
        text
    }
}

/// The line of a byte of a text.
fn line_at(text: &[u8], at: usize) -> usize
    ensures { result ≡ line_at text.now at }
{
    let before = front(text, at);
    before.iter().filter(|byte| **byte == b'\n').count() + 1
}

/// The line of the first brace that is open at the end of a text; `None` where it ends in a comment.
pub(crate) fn open_line(text: &[u8]) -> Option<usize>
    ensures { result ≡ open_line text.now }
{
    match open_place(scan_of(text)) {
        Some(at) => Some(line_at(text, at)),
        None => None,
    }
}
