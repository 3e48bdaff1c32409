//! Records: what a spec's orders come to, in a text that is kept beside the spec and compared.

ghost use Rattle.std.specs.Prelude.{◌≡◌, ◌++◌, IfOk, OnOk, flat_map, string_bytes, take};
ghost use Rattle.shown_texts.specs.Lanes.{words};
ghost use Rattle.class_texts.specs.Pages.{lines_bytes};
ghost use Rattle.class_texts.specs.Records as spec;

use crate::counted::{put_counted, put_number_text};
use crate::kind::ClassKind;
use crate::left::{put_tables, session_name};
use crate::letters::{Letter, letters_of};
use crate::orders::put_order;
use crate::page::Page;
use crate::totals::line_of;
use bound_statements::Level;
use events::{Event, Transcript};
use itoa::Buffer;
use lock_modes::Text;
use order_classes::{ClassRow, Shows, Total, Totals, answers_of};
use shown_texts::{push_lines, put, put_line, put_shown, words_of};
use shown_values::level_word;
use spec_levels::Levels;
use sqlite_items::Items;
use std::alloc::{AllocError, Global};

/// A record has so many results, the first ones.
pub const MAX_RECORDED: usize = 200;

fn put_number_or_dash(line: &mut Items<char>, total: Option<Total>) -> Result<(), AllocError>
    ensures { OnOk result (line.new ≡ line.old ++ spec.number_or_dash total) }
{
    match total {
        None => put(line, "-"),
        Some(total) => put_number_text(line, total.orders),
    }
}

fn put_letter(line: &mut Items<char>, totals: Totals, letter: Letter) -> Result<(), AllocError>
    ensures { OnOk result (line.new ≡ line.old ++ spec.letter_total totals letter) }
{
    put(line, letter.sign())?;
    put(line, " ")?;
    put_number_or_dash(line, letter.total(totals))
}

fn put_letters(line: &mut Items<char>, totals: Totals, letters: &[Letter]) -> Result<(), AllocError>
    ensures { OnOk result (line.new ≡ line.old ++ flat_map (spec.behind_blanks totals) letters.now) }
{
    for letter in letters {
        put(line, "  ")?;
        put_letter(line, totals, *letter)?;
    }
    Ok(())
}

/// How many orders have each letter.
fn letters_line(
    alloc: Global,
    totals: Totals,
    letters: &[Letter],
) -> Result<Items<char>, AllocError>
    ensures { IfOk result (λ line. line ≡ spec.letters_line totals letters.now) }
{
    let mut line = Items::new(alloc);
    match letters.split_first() {
        None => Ok(line),
        Some((first, others)) => {
            put_letter(&mut line, totals, *first)?;
            put_letters(&mut line, totals, others)?;
            Ok(line)
        }
    }
}

fn locking_text(lines: &[usize]) -> &'static str
    ensures { result.now ≡ spec.locking_line lines.now }
{
    match lines {
        [] => "locking strict two-phase",
        [_, ..] => "locking strict two-phase; isolation levels have no effect",
    }
}

fn spec_line(alloc: Global, path: &str) -> Result<Items<char>, AllocError>
    ensures { IfOk result (λ line. line ≡ spec.spec_line path.now) }
{
    let mut line = line_of(alloc, "spec ")?;
    put_shown(&mut line, path)?;
    Ok(line)
}

fn orders_line(alloc: Global, orders: u64) -> Result<Items<char>, AllocError>
    ensures { IfOk result (λ line. line ≡ spec.orders_line orders) }
{
    let mut line = line_of(alloc, "orders ")?;
    put_number_text(&mut line, orders)?;
    Ok(line)
}

fn totals_line(alloc: Global, totals: Totals) -> Result<Items<char>, AllocError>
    ensures { IfOk result (λ line. line ≡ spec.totals_line totals) }
{
    letters_line(alloc, totals, letters_of(ClassKind::Shows, false))
}

fn locking_line(alloc: Global, lines: &[usize]) -> Result<Items<char>, AllocError>
    ensures { IfOk result (λ line. line ≡ spec.locking_line lines.now) }
{
    line_of(alloc, locking_text(lines))
}

fn asked_line(alloc: Global, level: Level) -> Result<Items<char>, AllocError>
    ensures { IfOk result (λ line. line ≡ spec.asked_line level) }
{
    let mut line = line_of(alloc, "level ")?;
    put(&mut line, level_word(level))?;
    Ok(line)
}

/// The level that is asked for, or how rows are locked where none is.
fn level_line(alloc: Global, levels: &Levels) -> Result<Items<char>, AllocError>
    ensures { IfOk result (λ line. line ≡ spec.level_line levels.now.asked levels.now.other_lines.items) }
{
    match levels.asked {
        None => locking_line(alloc, levels.other_lines.as_slice()),
        Some(level) => asked_line(alloc, level),
    }
}

fn head_lines(alloc: Global, page: &Page<'_>) -> Result<Items<Items<char>>, AllocError>
    ensures { IfOk result (λ lines. lines ≡ spec.head_lines page.now) }
{
    let mut lines = Items::new(alloc);
    lines.push(line_of(alloc, "isofarm record 1")?)?;
    lines.push(spec_line(alloc, page.path)?)?;
    lines.push(level_line(alloc, page.levels)?)?;
    lines.push(orders_line(alloc, page.orders)?)?;
    lines.push(totals_line(alloc, page.totals)?)?;
    Ok(lines)
}

fn put_words(
    alloc: Global,
    line: &mut Items<char>,
    steps: &[Text],
    event: &Event,
) -> Result<(), AllocError>
    ensures { OnOk result (line.new ≡ line.old ++ words steps.now event.now) }
{
    let text = words_of(alloc, steps, event)?;
    put_line(line, text.as_slice())
}

fn put_others(
    alloc: Global,
    line: &mut Items<char>,
    steps: &[Text],
    events: &[Event],
) -> Result<(), AllocError>
    ensures { OnOk result (line.new ≡ line.old ++ flat_map (spec.behind_comma steps.now) events.now) }
{
    for event in events {
        put(line, ", ")?;
        put_words(alloc, line, steps, event)?;
    }
    Ok(())
}

/// Puts what a session answers behind a line.
fn put_answers(
    alloc: Global,
    line: &mut Items<char>,
    steps: &[Text],
    events: &[Event],
) -> Result<(), AllocError>
    ensures { OnOk result (line.new ≡ line.old ++ spec.answers_text steps.now events.now) }
{
    match events.split_first() {
        None => put(line, "nothing"),
        Some((first, others)) => {
            put_words(alloc, line, steps, first)?;
            put_others(alloc, line, steps, others)
        }
    }
}

fn session_line(
    alloc: Global,
    steps: &[Text],
    name: &str,
    events: &[Event],
) -> Result<Items<char>, AllocError>
    ensures { IfOk result (λ line. line ≡ spec.session_line steps.now name.now events.now) }
{
    let mut line = line_of(alloc, "  ")?;
    put_shown(&mut line, name)?;
    put(&mut line, ": ")?;
    put_answers(alloc, &mut line, steps, events)?;
    Ok(line)
}

fn put_sessions(
    alloc: Global,
    lines: &mut Items<Items<char>>,
    sessions: &[Text],
    steps: &[Text],
    told: &[Transcript],
) -> Result<(), AllocError>
    ensures { OnOk result (lines.new ≡ lines.old ++ spec.sessions_from sessions.now steps.now 0 told.now) }
{
    for session in 0..told.len() {
        let name = session_name(sessions, session);
        lines.push(session_line(alloc, steps, name, told[session].events())?)?;
    }
    Ok(())
}

fn result_line(
    alloc: Global,
    orders: u64,
    number: usize,
    row: &ClassRow,
) -> Result<Items<char>, AllocError>
    ensures { IfOk result (λ line. line ≡ spec.result_line orders number row.now) }
{
    let mut line = line_of(alloc, "result ")?;
    put(&mut line, Buffer::new().format(number))?;
    put(&mut line, ": ")?;
    put_number_text(&mut line, row.count)?;
    put(&mut line, " of ")?;
    put_counted(&mut line, orders, "order", "orders")?;
    Ok(line)
}

fn first_line(alloc: Global, steps: &[Text], row: &ClassRow) -> Result<Items<char>, AllocError>
    ensures { IfOk result (λ line. line ≡ spec.first_line steps.now row.now) }
{
    let mut line = line_of(alloc, "  first:")?;
    put_order(
        alloc,
        &mut line,
        steps,
        row.shows.told.sessions(),
        row.line.as_slice(),
    )?;
    Ok(line)
}

/// Puts what sessions answer, and the final rows, behind other lines.
fn put_result(
    alloc: Global,
    lines: &mut Items<Items<char>>,
    page: &Page<'_>,
    answers: &Shows,
) -> Result<(), AllocError>
    ensures { OnOk result (lines.new ≡ lines.old ++ spec.answers_lines page.now answers.now) }
{
    put_sessions(
        alloc,
        lines,
        page.sessions,
        page.steps,
        answers.told.sessions(),
    )?;
    put_tables(alloc, lines, "  ", page.tables, answers.left.as_slice())
}

fn result_lines(
    alloc: Global,
    page: &Page<'_>,
    number: usize,
    row: &ClassRow,
) -> Result<Items<Items<char>>, AllocError>
    ensures { IfOk result (λ lines. lines ≡ spec.result_lines page.now number row.now) }
{
    let answers = answers_of(alloc, &row.shows)?;
    let mut lines = Items::new(alloc);
    lines.push(Items::new(alloc))?;
    lines.push(result_line(alloc, page.orders, number, row)?)?;
    lines.push(first_line(alloc, page.steps, row)?)?;
    put_result(alloc, &mut lines, page, &answers)?;
    Ok(lines)
}

fn push_result(
    alloc: Global,
    text: &mut String,
    page: &Page<'_>,
    number: usize,
    row: &ClassRow,
) -> Result<(), AllocError>
    ensures { OnOk result (string_bytes text.new ≡ string_bytes text.old ++ lines_bytes (spec.result_lines page.now number row.now)) }
{
    let lines = result_lines(alloc, page, number, row)?;
    push_lines(text, lines.as_slice())
}

fn push_results(
    alloc: Global,
    text: &mut String,
    page: &Page<'_>,
    rows: &[ClassRow],
) -> Result<(), AllocError>
    ensures { OnOk result (string_bytes text.new ≡ string_bytes text.old ++ spec.results_bytes page.now 0 rows.now) }
{
    for place in 0..rows.len() {
        push_result(alloc, text, page, place + 1, &rows[place])?;
    }
    Ok(())
}

/// The first classes, which a record has.
fn recorded(rows: &[ClassRow]) -> &[ClassRow]
    ensures { result.now ≡ take MAX_RECORDED rows.now }
{
    if rows.len() <= MAX_RECORDED {
        return rows;
    }
    &rows[..MAX_RECORDED]
}

/// Puts that some results are left out behind a text, if any are.
fn push_more(alloc: Global, text: &mut String, count: usize) -> Result<(), AllocError>
    ensures { OnOk result (string_bytes text.new ≡ string_bytes text.old ++ lines_bytes (spec.more_lines count)) }
{
    if count <= MAX_RECORDED {
        return Ok(());
    }
    let mut line = line_of(alloc, "and ")?;
    put_counted(
        &mut line,
        (count - MAX_RECORDED) as u64,
        "more result",
        "more results",
    )?;
    put(&mut line, ", which are left out")?;
    let mut lines = Items::new(alloc);
    lines.push(Items::new(alloc))?;
    lines.push(line)?;
    push_lines(text, lines.as_slice())
}

/// The record of results. It fails for want of memory alone.
pub fn record_text(alloc: Global, page: &Page<'_>) -> Result<String, AllocError>
    ensures { IfOk result (λ text. string_bytes text ≡ spec.record_bytes page.now) }
{
    let mut text = String::new(alloc);
    let head = head_lines(alloc, page)?;
    push_lines(&mut text, head.as_slice())?;
    push_results(alloc, &mut text, page, recorded(page.rows))?;
    push_more(alloc, &mut text, page.rows.len())?;
    Ok(text)
}
