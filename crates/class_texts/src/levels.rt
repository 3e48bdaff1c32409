//! The text of classes at both levels.

ghost use Rattle.std.specs.Prelude.{◌≡◌, ◌++◌, IfOk, OnOk, false, map, string_bytes};
ghost use Rattle.class_texts.specs.Levels as spec;
ghost use Rattle.class_texts.specs.Pages.{head_cells, lines_bytes};
ghost use Rattle.class_texts.specs.declared.kind.ClassKind.TheVariants.{Shows};

use crate::counted::{put_counted, put_number_text};
use crate::head::put_in_classes;
use crate::kind::ClassKind;
use crate::letters::{Letter, letters_of};
use crate::page::Page;
use crate::table::push_table;
use crate::totals::{put_head, put_letter, put_meaning, put_total};
use crate::widths::{TotalWidths, total_widths};
use order_classes::Totals;
use shown_texts::{level_text, push_lines, put, put_blanks, put_line, put_part, put_shown};
use spec_levels::Levels;
use sqlite_items::Items;
use std::alloc::{AllocError, Global};
use std::marker::Model;

/// What is told of the classes of all orders at a level.
#[derive(Drop)]
pub struct Side<'a> {
    /// The level, and the lines of the file with another one.
    pub levels: &'a Levels,
    /// How many orders and classes show what.
    pub totals: Totals,
}

impl<'a> Model for Side<'a> {
    ghost use Rattle.class_texts.specs.Levels as spec;

    ghost Value = { spec.Side };

    ghost view = { λ s. record { level = s.levels.now.asked; other_lines = s.levels.now.other_lines.items; totals = s.totals } };
}

/// The text of classes at SERIALIZABLE and at READ COMMITTED, and of the results that READ COMMITTED alone has, of so many. It fails for want of memory alone.
pub fn levels_text(
    alloc: Global,
    serializable: &Side<'_>,
    committed: &Side<'_>,
    results: u64,
    only: &Page<'_>,
) -> Result<String, AllocError>
    ensures { IfOk result (λ text. string_bytes text ≡ spec.levels_bytes serializable.now committed.now results only.now) }
{
    let mut text = String::new(alloc);
    push_top(alloc, &mut text, serializable, committed, results, only)?;
    push_table(alloc, &mut text, only)?;
    Ok(text)
}

/// Puts all but the table behind a text.
fn push_top(
    alloc: Global,
    text: &mut String,
    serializable: &Side<'_>,
    committed: &Side<'_>,
    results: u64,
    only: &Page<'_>,
) -> Result<(), AllocError>
    ensures { OnOk result (string_bytes text.new ≡ string_bytes text.old ++ lines_bytes (spec.top_lines serializable.now committed.now results only.now)) }
{
    let lines = top_lines(alloc, serializable, committed, results, only)?;
    push_lines(text, lines.as_slice())
}

fn top_lines(
    alloc: Global,
    serializable: &Side<'_>,
    committed: &Side<'_>,
    results: u64,
    only: &Page<'_>,
) -> Result<Items<Items<char>>, AllocError>
    ensures { IfOk result (λ lines. lines ≡ spec.top_lines serializable.now committed.now results only.now) }
{
    let mut lines = head_lines(alloc, only.path, serializable, committed)?;
    let totals = totals_lines(alloc, serializable, committed)?;
    put_part(alloc, &mut lines, totals)?;
    let mut told = Items::new(alloc);
    told.push(only_line(alloc, only.rows.len() as u64, results)?)?;
    put_part(alloc, &mut lines, told)?;
    Ok(lines)
}

fn put_counts(line: &mut Items<char>, side: &Side<'_>) -> Result<(), AllocError>
    ensures { OnOk result (line.new ≡ line.old ++ spec.side_counts side.now) }
{
    let all = side.totals.all;
    put_in_classes(line, ClassKind::Shows, all.orders, all.classes)
}

fn title(
    alloc: Global,
    path: &str,
    serializable: &Side<'_>,
    committed: &Side<'_>,
) -> Result<Items<char>, AllocError>
    ensures { IfOk result (λ line. line ≡ spec.title path.now serializable.now committed.now) }
{
    let mut line = Items::new(alloc);
    put_shown(&mut line, path)?;
    put(&mut line, ": ")?;
    put_counts(&mut line, serializable)?;
    put(&mut line, " at SERIALIZABLE, ")?;
    put_counts(&mut line, committed)?;
    put(&mut line, " at READ COMMITTED")?;
    Ok(line)
}

/// The line of a level, where lines of the file have another one.
fn side_lines(alloc: Global, side: &Side<'_>) -> Result<Items<Items<char>>, AllocError>
    ensures { IfOk result (λ lines. lines ≡ spec.side_lines side.now) }
{
    match side.levels.other_lines.as_slice() {
        [] => Ok(Items::new(alloc)),
        [_, ..] => level_text(alloc, side.levels),
    }
}

fn head_lines(
    alloc: Global,
    path: &str,
    serializable: &Side<'_>,
    committed: &Side<'_>,
) -> Result<Items<Items<char>>, AllocError>
    ensures { IfOk result (λ lines. lines ≡ spec.head_lines path.now serializable.now committed.now) }
{
    let mut lines = Items::new(alloc);
    lines.push(title(alloc, path, serializable, committed)?)?;
    lines.append(side_lines(alloc, serializable)?)?;
    lines.append(side_lines(alloc, committed)?)?;
    Ok(lines)
}

/// The name of a level above its columns, as wide as they are.
fn name_cell(alloc: Global, columns: &[char], name: &str) -> Result<Items<char>, AllocError>
    ensures { IfOk result (λ cell. cell ≡ spec.name_cell columns.now name.now) }
{
    let mut cell = Items::new(alloc);
    put(&mut cell, "  ")?;
    put(&mut cell, name)?;
    let width = cell.len();
    put_blanks(&mut cell, columns.len().saturating_sub(width))?;
    Ok(cell)
}

/// The names of both levels, above their columns.
fn names_line(
    alloc: Global,
    serializable: &[char],
    committed: &[char],
) -> Result<Items<char>, AllocError>
    ensures { IfOk result (λ line. line ≡ spec.names_line serializable.now committed.now) }
{
    let first = name_cell(alloc, serializable, "SERIALIZABLE")?;
    let second = name_cell(alloc, committed, "READ COMMITTED")?;
    let mut line = Items::new(alloc);
    put(&mut line, "    ")?;
    put_line(&mut line, first.as_slice())?;
    put_line(&mut line, second.as_slice())?;
    Ok(line)
}

/// The columns of both levels.
fn columns_line(
    alloc: Global,
    serializable: &[char],
    committed: &[char],
) -> Result<Items<char>, AllocError>
    ensures { IfOk result (λ line. line ≡ spec.columns_line serializable.now committed.now) }
{
    let mut line = Items::new(alloc);
    put(&mut line, "    ")?;
    put_line(&mut line, serializable)?;
    put_line(&mut line, committed)?;
    Ok(line)
}

/// The names of the columns of a level.
fn head_of(alloc: Global, widths: TotalWidths) -> Result<Items<char>, AllocError>
    ensures { IfOk result (λ columns. columns ≡ head_cells widths false Shows) }
{
    let mut columns = Items::new(alloc);
    put_head(alloc, &mut columns, widths, false, ClassKind::Shows)?;
    Ok(columns)
}

/// The levels, and the names of their columns.
fn heads(
    alloc: Global,
    serializable: TotalWidths,
    committed: TotalWidths,
) -> Result<Items<Items<char>>, AllocError>
    ensures { IfOk result (λ lines. lines ≡ spec.heads serializable committed) }
{
    let first = head_of(alloc, serializable)?;
    let second = head_of(alloc, committed)?;
    let mut lines = Items::new(alloc);
    lines.push(names_line(alloc, first.as_slice(), second.as_slice())?)?;
    lines.push(columns_line(alloc, first.as_slice(), second.as_slice())?)?;
    Ok(lines)
}

/// Puts the numbers that a level has of a letter behind a line.
fn put_side(
    alloc: Global,
    line: &mut Items<char>,
    widths: TotalWidths,
    side: &Side<'_>,
    letter: Letter,
) -> Result<(), AllocError>
    ensures { OnOk result (line.new ≡ line.old ++ spec.side_cells widths side.now letter) }
{
    let totals = side.totals;
    put_total(
        alloc,
        line,
        widths,
        false,
        totals.all.orders,
        letter.total(totals),
    )
}

/// The numbers of both levels behind a letter.
fn letter_line(
    alloc: Global,
    widths: (TotalWidths, TotalWidths),
    serializable: &Side<'_>,
    committed: &Side<'_>,
    letter: Letter,
) -> Result<Items<char>, AllocError>
    ensures { IfOk result (λ line. line ≡ spec.letter_line widths.0 widths.1 serializable.now committed.now letter) }
{
    let mut line = Items::new(alloc);
    put_letter(&mut line, letter)?;
    put_side(alloc, &mut line, widths.0, serializable, letter)?;
    put_side(alloc, &mut line, widths.1, committed, letter)?;
    put_meaning(&mut line, false, letter, letter.total(serializable.totals))?;
    Ok(line)
}

/// Puts a line for each letter behind other lines.
fn put_letters(
    alloc: Global,
    lines: &mut Items<Items<char>>,
    widths: (TotalWidths, TotalWidths),
    serializable: &Side<'_>,
    committed: &Side<'_>,
    letters: &[Letter],
) -> Result<(), AllocError>
    ensures { OnOk result (lines.new ≡ lines.old ++ map (spec.letter_line widths.0 widths.1 serializable.now committed.now) letters.now) }
{
    for letter in letters {
        lines.push(letter_line(alloc, widths, serializable, committed, *letter)?)?;
    }
    Ok(())
}

/// How wide the columns of a level are.
fn side_widths(alloc: Global, side: &Side<'_>) -> Result<TotalWidths, AllocError>
    ensures { IfOk result (λ widths. widths ≡ spec.side_widths side.now) }
{
    let letters = letters_of(ClassKind::Shows, false);
    total_widths(alloc, ClassKind::Shows, side.totals, letters)
}

fn totals_lines(
    alloc: Global,
    serializable: &Side<'_>,
    committed: &Side<'_>,
) -> Result<Items<Items<char>>, AllocError>
    ensures { IfOk result (λ lines. lines ≡ spec.totals_lines serializable.now committed.now) }
{
    let letters = letters_of(ClassKind::Shows, false);
    let first = side_widths(alloc, serializable)?;
    let second = side_widths(alloc, committed)?;
    let mut lines = heads(alloc, first, second)?;
    put_letters(
        alloc,
        &mut lines,
        (first, second),
        serializable,
        committed,
        letters,
    )?;
    Ok(lines)
}

/// How many of so many results READ COMMITTED alone has.
fn only_line(alloc: Global, only: u64, results: u64) -> Result<Items<char>, AllocError>
    ensures { IfOk result (λ line. line ≡ spec.only_line only results) }
{
    let mut line = Items::new(alloc);
    put(&mut line, "only at READ COMMITTED: ")?;
    put_number_text(&mut line, only)?;
    put(&mut line, " of ")?;
    put_counted(&mut line, results, "result", "results")?;
    Ok(line)
}
