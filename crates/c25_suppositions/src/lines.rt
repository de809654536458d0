//! Which interrupt lines IMR lets through.

ghost use Rattle.std.specs.Prelude.{◌≡◌};
ghost use Rattle.c25_suppositions.specs.Breaches.{lets_line, lets_no_other};

/// Whether a mask of interrupt lines lets a line through only if these lines have it.
fn lets_line(lines: u16, mask: u16, line: u16) -> bool
    ensures { result ≡ lets_line lines mask line }
{
    mask & line != line || lines & line == line
}

/// Whether a mask lets none of the three lines through that these lines do not have.
pub(crate) fn lets_no_other(lines: u16, mask: u16) -> bool
    ensures { result ≡ lets_no_other lines mask }
{
    lets_line(lines, mask, 1) && lets_line(lines, mask, 2) && lets_line(lines, mask, 4)
}
