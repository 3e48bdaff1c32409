//! Names that are cut to a width, and numbered where they are the same then.

ghost use Rattle.std.specs.Prelude.{◌≡◌, ◌++◌, IfOk, OnOk, bytes_eq, map};
ghost use Rattle.shown_texts.specs.Names as spec;

use crate::characters::{put, put_line};
use itoa::Buffer;
use sqlite_items::Items;
use std::alloc::{AllocError, Global};

/// Puts a text behind a line, or the front of it with a tilde where it is too long.
pub fn put_cut(line: &mut Items<char>, most: usize, text: &[char]) -> Result<(), AllocError>
    ensures { OnOk result (line.new ≡ line.old ++ spec.cut most text.now) }
{
    if text.len() <= most {
        return put_line(line, text);
    }
    put_line(line, &text[..most.saturating_sub(1)])?;
    put(line, "~")
}

/// The name at this place, cut.
fn cut(alloc: Global, most: usize, name: &[char]) -> Result<Items<char>, AllocError>
    ensures { IfOk result (λ line. line ≡ spec.cut most name.now) }
{
    let mut line = Items::new(alloc);
    put_cut(&mut line, most, name)?;
    Ok(line)
}

/// The name with a number behind it, together no wider.
fn numbered(
    alloc: Global,
    most: usize,
    name: &[char],
    number: usize,
) -> Result<Items<char>, AllocError>
    ensures { IfOk result (λ line. line ≡ spec.numbered most name.now number) }
{
    let mut buffer = Buffer::new();
    let digits = buffer.format(number);
    let mut line = Items::new(alloc);
    put_cut(
        &mut line,
        most.saturating_sub(1).saturating_sub(digits.len()),
        name,
    )?;
    put(&mut line, "#")?;
    put(&mut line, digits)?;
    Ok(line)
}

/// Whether both texts are the same.
fn is_same(a: &[char], b: &[char]) -> bool
    ensures { result ≡ bytes_eq a.now b.now }
{
    a == b
}

/// How many of the texts are this one.
fn times(text: &[char], texts: &[Items<char>]) -> usize
    ensures { result ≡ spec.times text.now texts.now }
{
    let mut count = 0;
    for other in texts {
        if is_same(text, other.as_slice()) {
            count += 1;
        }
    }
    count
}

/// The names, cut.
fn cuts(alloc: Global, most: usize, names: &[Items<char>]) -> Result<Items<Items<char>>, AllocError>
    ensures { IfOk result (λ cuts. cuts ≡ map (spec.cut most) names.now) }
{
    let mut cuts = Items::new(alloc);
    for name in names {
        cuts.push(cut(alloc, most, name.as_slice())?)?;
    }
    Ok(cuts)
}

/// The name cut, with its number where several of the cut names are the same.
fn cut_or_numbered(
    alloc: Global,
    most: usize,
    cuts: &[Items<char>],
    name: &[char],
    number: usize,
) -> Result<Items<char>, AllocError>
    ensures { IfOk result (λ line. line ≡ spec.cut_or_numbered most cuts.now name.now number) }
{
    let line = cut(alloc, most, name)?;
    if times(line.as_slice(), cuts) > 1 {
        return numbered(alloc, most, name, number);
    }
    Ok(line)
}

/// The names, cut, and numbered where several are the same then.
fn some_numbered(
    alloc: Global,
    most: usize,
    names: &[Items<char>],
) -> Result<Items<Items<char>>, AllocError>
    ensures { IfOk result (λ lines. lines ≡ spec.some_numbered most (map (spec.cut most) names.now) 0 names.now) }
{
    let cuts = cuts(alloc, most, names)?;
    let mut lines = Items::new(alloc);
    for number in 0..names.len() {
        lines.push(cut_or_numbered(
            alloc,
            most,
            cuts.as_slice(),
            names[number].as_slice(),
            number,
        )?)?;
    }
    Ok(lines)
}

/// The names, each with its number.
fn all_numbered(
    alloc: Global,
    most: usize,
    names: &[Items<char>],
) -> Result<Items<Items<char>>, AllocError>
    ensures { IfOk result (λ lines. lines ≡ spec.all_numbered most 0 names.now) }
{
    let mut lines = Items::new(alloc);
    for number in 0..names.len() {
        lines.push(numbered(alloc, most, names[number].as_slice(), number)?)?;
    }
    Ok(lines)
}

/// Whether no two of the texts are the same.
fn are_different(texts: &[Items<char>]) -> bool
    ensures { result ≡ spec.are_different texts.now }
{
    texts.iter().all(|text| is_once(text, texts))
}

/// Whether at most one of the texts is this one.
fn is_once(text: &Items<char>, texts: &[Items<char>]) -> bool
    ensures { result ≡ spec.is_once texts.now text.now }
{
    times(text.as_slice(), texts) <= 1
}

/// The names, shortened to a width, and numbered where they would be the same.
pub(crate) fn shortened(
    alloc: Global,
    most: usize,
    names: &[Items<char>],
) -> Result<Items<Items<char>>, AllocError>
    ensures { IfOk result (λ lines. lines ≡ spec.shortened most names.now) }
{
    let lines = some_numbered(alloc, most, names)?;
    if are_different(lines.as_slice()) {
        return Ok(lines);
    }
    all_numbered(alloc, most, names)
}

/// The name at a place, or none where there is no such place.
pub(crate) fn name_at(names: &[Items<char>], place: usize) -> &[char]
    ensures { result.now ≡ spec.name_at names.now place }
{
    match names.get(place) {
        Some(name) => name.as_slice(),
        None => &[],
    }
}
