//! Texts that are broken into lines.

ghost use Rattle.std.specs.Prelude.{◌≡◌, ◌++◌, ◌∷◌, [], ℕ, List, IfOk, OnOk};
ghost use Rattle.shown_texts.specs.Breaking as spec;
ghost use Rattle.shown_texts.specs.Characters.{blanks};
ghost use Rattle.shown_texts.specs.Pages.{hanging_lines, plain_lines};

use crate::characters::{put_blanks, put_line, trimmed_len};
use sqlite_items::Items;
use std::alloc::{AllocError, Global};

/// The columns of the page, unless lanes are too narrow in so many.
pub(crate) const COLUMNS: usize = 80;

pub(crate) fn plain_lines(alloc: Global, text: &[char]) -> Result<Items<Items<char>>, AllocError>
    ensures { IfOk result (λ lines. lines ≡ plain_lines text.now) }
{
    broken(alloc, COLUMNS, 0, 0, text)
}

/// The text in lines of 80, with two blanks in front of each further one. It fails for want of memory alone.
pub(crate) fn hanging_lines(alloc: Global, text: &[char]) -> Result<Items<Items<char>>, AllocError>
    ensures { IfOk result (λ lines. lines ≡ hanging_lines text.now) }
{
    broken(alloc, COLUMNS, 0, 2, text)
}

/// The text in lines of a width: so many blanks stand in front of the first line, and a margin in front of each further one. It fails for
/// want of memory alone.
pub(crate) fn broken(
    alloc: Global,
    width: usize,
    front: usize,
    margin: usize,
    text: &[char],
) -> Result<Items<Items<char>>, AllocError>
    ensures { IfOk result (λ lines. lines ≡ spec.broken width front margin text.now) }
{
    let pieces = pieces(alloc, width.saturating_sub(margin), text)?;
    filled(alloc, width, front, margin, pieces.as_slice())
}

/// The pieces of a text: each ends behind a blank, or where it has so many characters.
fn pieces(alloc: Global, most: usize, text: &[char]) -> Result<Items<Items<char>>, AllocError>
    ensures { IfOk result (λ found. found ≡ spec.pieces most [] text.now) }
{
    let mut found = Items::new(alloc);
    let mut piece = Items::new(alloc);
    for c in text {
        piece = put_character(alloc, &mut found, most, piece, *c)?;
    }
    put_last(&mut found, piece)?;
    Ok(found)
}

/// Puts a character behind a piece, and the piece behind the others where it ends. What comes is the piece that goes on.
fn put_character(
    alloc: Global,
    found: &mut Items<Items<char>>,
    most: usize,
    mut piece: Items<char>,
    c: char,
) -> Result<Items<char>, AllocError>
    ensures { IfOk result (λ next. (cs : List ℕ) → found.new ++ spec.pieces most next cs ≡ found.old ++ spec.pieces most piece (c ∷ cs)) }
{
    piece.push(c)?;
    if ends_piece(most, c, piece.as_slice()) {
        found.push(piece)?;
        return Ok(Items::new(alloc));
    }
    Ok(piece)
}

fn ends_piece(most: usize, c: char, piece: &[char]) -> bool
    ensures { result ≡ spec.ends_piece most c piece.now }
{
    c == ' ' || piece.len() >= most
}

/// Puts a piece behind others, if there is something of it.
fn put_last(found: &mut Items<Items<char>>, piece: Items<char>) -> Result<(), AllocError>
    ensures { OnOk result (found.new ≡ found.old ++ spec.last_piece piece) }
{
    if piece.len() == 0 {
        return Ok(());
    }
    found.push(piece)
}

/// Lines of the pieces: one that does not go on a line begins the next one.
fn filled(
    alloc: Global,
    width: usize,
    front: usize,
    margin: usize,
    pieces: &[Items<char>],
) -> Result<Items<Items<char>>, AllocError>
    ensures { IfOk result (λ lines. lines ≡ spec.filled width margin (blanks front) pieces.now) }
{
    let mut lines = Items::new(alloc);
    let mut line = begun(alloc, front, &[])?;
    for piece in pieces {
        line = put_piece(alloc, &mut lines, width, margin, line, piece.as_slice())?;
    }
    lines.push(line)?;
    Ok(lines)
}

/// Puts a piece on a line, or the line behind the others where the piece does not go on it. What comes is the line that goes on.
fn put_piece(
    alloc: Global,
    lines: &mut Items<Items<char>>,
    width: usize,
    margin: usize,
    line: Items<char>,
    piece: &[char],
) -> Result<Items<char>, AllocError>
    ensures { IfOk result (λ next. (ps : List (List ℕ)) →
        lines.new ++ spec.filled width margin next ps ≡ lines.old ++ spec.filled width margin line (piece.now ∷ ps)) }
{
    if fits(width, line.as_slice(), piece) {
        return longer(alloc, line.as_slice(), piece);
    }
    lines.push(line)?;
    begun(alloc, margin, piece)
}

/// Whether a piece goes on a line, where a blank at its end may stand behind the line's last column.
fn fits(width: usize, line: &[char], piece: &[char]) -> bool
    ensures { result ≡ spec.fits width line.now piece.now }
{
    line.len() <= width && trimmed_len(piece) <= width - line.len()
}

/// A line and a piece on it.
fn longer(alloc: Global, line: &[char], piece: &[char]) -> Result<Items<char>, AllocError>
    ensures { IfOk result (λ longer. longer ≡ line.now ++ piece.now) }
{
    let mut longer = Items::new(alloc);
    put_line(&mut longer, line)?;
    put_line(&mut longer, piece)?;
    Ok(longer)
}

/// A piece behind so many blanks. It fails for want of memory alone.
fn begun(alloc: Global, margin: usize, piece: &[char]) -> Result<Items<char>, AllocError>
    ensures { IfOk result (λ line. line ≡ blanks margin ++ piece.now) }
{
    let mut line = Items::new(alloc);
    put_blanks(&mut line, margin)?;
    put_line(&mut line, piece)?;
    Ok(line)
}
