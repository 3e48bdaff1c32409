//! Where the bytes of a spec file stand.

ghost use Rattle.std.specs.Prelude.{◌≡◌};
ghost use Rattle.comment_lines.specs.Places.{behind, behind_text, begins_comment};
ghost use Rattle.comment_lines.specs.Places as spec;

/// Where a byte of a spec file stands.
#[derive(Clone, Copy)]
pub(crate) enum Place {
    /// At the front of a line outside of all below, behind blanks at most.
    Margin,
    /// Behind something else on such a line.
    Line,
    /// In a block of SQL.
    Block,
    /// In a quoted name.
    Name,
    /// In a comment.
    Comment,
}

/// Whether a comment that begins with this byte has its line for itself.
pub(crate) fn begins_comment(place: Place, byte: u8) -> bool
    ensures { result ≡ begins_comment place byte }
{
    match place {
        Place::Margin => byte == b'#',
        Place::Line => false,
        Place::Block => false,
        Place::Name => false,
        Place::Comment => false,
    }
}

/// The place behind a byte.
pub(crate) fn behind(place: Place, byte: u8) -> Place
    ensures { result ≡ behind place byte }
{
    match place {
        Place::Margin => behind_margin(byte),
        Place::Line => behind_text(byte),
        Place::Block => ended(byte == b'}', Place::Block, Place::Line),
        Place::Name => ended(byte == b'"', Place::Name, Place::Line),
        Place::Comment => ended(byte == b'\n', Place::Comment, Place::Margin),
    }
}

fn ended(ends: bool, place: Place, next: Place) -> Place
    ensures { result ≡ spec.ended ends place next }
{
    if ends { next } else { place }
}

fn behind_margin(byte: u8) -> Place
    ensures { result ≡ spec.behind_margin byte }
{
    if byte == b' ' || byte == b'\t' {
        return Place::Margin;
    }
    behind_text(byte)
}

fn behind_text(byte: u8) -> Place
    ensures { result ≡ behind_text byte }
{
    match byte {
        b'\n' => Place::Margin,
        b'{' => Place::Block,
        b'"' => Place::Name,
        b'#' => Place::Comment,
        _ => Place::Line,
    }
}
