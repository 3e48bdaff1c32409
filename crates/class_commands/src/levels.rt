//! Orders of a spec in classes at both levels, from the bytes of the spec to the text that is written.

ghost use Rattle.std.specs.Prelude.{◌≡◌, ◌↔◌, ◌<◌, ◌++◌, ◌∷◌, [], IfErr, IfOk, List, None, OnOk, cond, string_bytes, true};
ghost use Rattle.machine_model.specs.Start.{Started, start};
ghost use Rattle.machine_model.specs.World.{World};
ghost use Rattle.lock_queues.specs.Reasons.{Among};
ghost use Rattle.transcripts.specs.Counted.{failures_of};
ghost use Rattle.order_classes.specs.Letters.{answers_of};
ghost use Rattle.order_classes.specs.declared.rows.ClassRow.{ClassRow as Row};
ghost use Rattle.class_commands.specs.Levels.{AreOnly, IsFoundAt, IsLevelsRun, IsNotFoundAt};
ghost use Rattle.class_commands.specs.LevelParts.{AreCountedTwice, AreResultsOf, IsKeptAt, IsKeptOf, IsLevelsText, WritesLevels};
ghost use Rattle.class_commands.specs.Parts.{IsNotCounted};

use crate::asking::{ReadSpec, read_spec};
use crate::classing::{ClassesFault, Explored, fault_of, found_orders, room_of, told_with};
use crate::progress::{StatesProgress, Telling};
use binding_model::Table;
use bound_specs::Spec;
use bound_statements::Level;
use class_rows::{Asked, Classed};
use class_texts::{ClassKind, Page, Side, levels_text};
use different_shows::Different;
use order_classes::{ClassRow, Grouping, Totals, answers_of};
use schedule_counts::{StatesError, Unwatched, Watch};
use spec_levels::Levels;
use spec_schedules::Kind;
use std::alloc::{AllocError, Global};
use std::io::Write;
use std::time::Clock;
use transcripts::Counted;
use wanted_classes::WantedLevels;

/// What is found of a spec at a level: the spec, the tables that it declares, its levels, the totals of its classes, and its results.
#[derive(Drop)]
pub(crate) struct FoundAt {
    spec: Spec,
    tables: Vec<Table>,
    levels: Levels,
    totals: Totals,
    results: Classed,
}

/// What is kept of one level while the other one is explored.
#[derive(Drop)]
pub(crate) struct Kept {
    levels: Levels,
    totals: Totals,
    results: Different,
}

/// Reads a spec, explores the states to which its orders lead at SERIALIZABLE and then at READ COMMITTED, and writes the totals of both and the results that
/// READ COMMITTED alone has, with the path that the spec is told to lie at.
pub fn both_levels<'a, V: Watch, W: Write>(
    alloc: Global,
    bytes: &[u8],
    path: &str,
    wanted: &WantedLevels,
    watch: &V,
    out: &mut Counted<W>,
) -> Result<(), ClassesFault<'a>>
    requires { failures_of out.old < u64.MAX }
    ensures { IsLevelsRun W.contents out.old out.new bytes.now path.now wanted.now result }
{
    let room = room_of(wanted.memory);
    let kept = match kept_at(alloc, bytes, Level::Serializable, room, watch) {
        Ok(kept) => kept,
        Err(fault) => return Err(fault),
    };
    let left = room.saturating_sub(kept.results.bytes());
    let found = match found_at(alloc, bytes, Level::Committed, left, watch) {
        Ok(found) => found,
        Err(fault) => return Err(fault),
    };
    write_levels(alloc, path, &kept, &found, wanted, out)
}

/// Does as `both_levels`, and tells on `err` how far it is, as is wanted. What is not written there is no fault.
pub fn both_levels_told<'a, C: Clock, W: Write, E: Write>(
    clock: &C,
    alloc: Global,
    bytes: &[u8],
    path: &str,
    wanted: &WantedLevels,
    telling: Telling,
    out: &mut Counted<W>,
    err: &mut Counted<E>,
) -> Result<(), ClassesFault<'a>>
    requires { failures_of out.old < u64.MAX }
    ensures run { IsLevelsRun W.contents out.old out.new bytes.now path.now wanted.now result }
    ensures quiet { telling ≡ Telling.Silent → err.new ≡ err.old }
{
    let is_one_line = match telling {
        Telling::Silent => return both_levels(alloc, bytes, path, wanted, &Unwatched, out),
        Telling::Lines => false,
        Telling::OneLine => true,
    };
    let progress = StatesProgress::new(clock, alloc, is_one_line, err);
    both_levels(alloc, bytes, path, wanted, &progress, out)
}

/// What is found of a spec at a level, whose states may take so many bytes.
fn found_at<'a, V: Watch>(
    alloc: Global,
    bytes: &[u8],
    level: Level,
    room: usize,
    watch: &V,
) -> Result<FoundAt, ClassesFault<'a>>
    ensures found { IfOk result (IsFoundAt bytes.now level) }
    ensures refused { IfErr result (IsNotFoundAt bytes.now) }
{
    let ReadSpec {
        spec,
        tables,
        levels,
    } = match read_spec(alloc, bytes, Some(level)) {
        Ok(read) => read,
        Err(fault) => return Err(fault),
    };
    match found_in_both(alloc, &spec, tables.as_slice(), room, watch) {
        Ok((totals, results)) => Ok(FoundAt {
            spec,
            tables,
            levels,
            totals,
            results,
        }),
        Err(error) => Err(fault_of(error)),
    }
}

/// The totals of the classes of a spec, and its results.
fn found_in_both<V: Watch>(
    alloc: Global,
    spec: &Spec,
    tables: &[Table],
    room: usize,
    watch: &V,
) -> Result<(Totals, Classed), StatesError>
    ensures found { IfOk result (λ x. AreCountedTwice tables.now spec.now.run x.0 x.1) }
    ensures starts { IfOk result (λ _. (w : World) × (start spec.now.run ≡ Started w)) }
    ensures refused { IfErr result (IsNotCounted None spec.now) }
{
    let explored = Explored {
        spec,
        tables,
        kind: Kind::Schedules,
        room,
    };
    let (classes, serial) = match found_orders(alloc, explored, watch) {
        Ok(found) => found,
        Err(error) => return Err(error),
    };
    let by_shows = match told_with(
        alloc,
        classes.as_slice(),
        serial.as_ref(),
        all_by(Grouping::Shows),
    ) {
        Ok(classed) => classed.totals,
        Err(error) => return Err(error),
    };
    match told_with(
        alloc,
        classes.as_slice(),
        serial.as_ref(),
        all_by(Grouping::Answers),
    ) {
        Ok(results) => Ok((by_shows, results)),
        Err(error) => Err(error),
    }
}

/// All orders, grouped so.
fn all_by(by: Grouping) -> Asked<'static>
    ensures by { result.by ≡ by }
    ensures all { result.filters.now ≡ [] }
{
    Asked { by, filters: &[] }
}

/// What is kept of what is found of a spec at a level.
fn kept_at<'a, V: Watch>(
    alloc: Global,
    bytes: &[u8],
    level: Level,
    room: usize,
    watch: &V,
) -> Result<Kept, ClassesFault<'a>>
    ensures kept { IfOk result (IsKeptAt bytes.now level) }
    ensures refused { IfErr result (IsNotFoundAt bytes.now) }
{
    let found = match found_at(alloc, bytes, level, room, watch) {
        Ok(found) => found,
        Err(fault) => return Err(fault),
    };
    match kept_of(alloc, found) {
        Ok(kept) => Ok(kept),
        Err(_) => Err(ClassesFault::NoMemory),
    }
}

fn kept_of(alloc: Global, found: FoundAt) -> Result<Kept, AllocError>
    ensures { IfOk result (IsKeptOf found) }
{
    let FoundAt {
        spec: _spec,
        tables: _tables,
        levels,
        totals,
        results,
    } = found;
    let results = results_of(alloc, results.rows.as_slice())?;
    Ok(Kept {
        levels,
        totals,
        results,
    })
}

/// The results of rows, each once.
fn results_of(alloc: Global, rows: &[ClassRow]) -> Result<Different, AllocError>
    ensures { IfOk result (AreResultsOf rows.now) }
{
    let mut results = Different::new(alloc);
    for place in 0..rows.len() {
        let row = &rows[place];
        let answers = answers_of(alloc, &row.shows)?;
        results.number(&answers)?;
    }
    Ok(results)
}

/// The rows whose results are not among others.
fn only_of(
    alloc: Global,
    others: &Different,
    rows: &[ClassRow],
) -> Result<Vec<ClassRow>, AllocError>
    ensures { (known : List Row) → AreResultsOf known others.now → IfOk result (λ only. AreOnly known rows.now only.items) }
{
    let mut only = Vec::new(alloc);
    for place in 0..rows.len() {
        let row = &rows[place];
        let is_known = has_result(alloc, others, row)?;
        push_unless(alloc, is_known, row, &mut only)?;
    }
    Ok(only)
}

/// Pushes a row, unless its result is known.
fn push_unless(
    alloc: Global,
    is_known: bool,
    row: &ClassRow,
    only: &mut Vec<ClassRow>,
) -> Result<(), AllocError>
    ensures { OnOk result (only.new.items ≡ cond is_known only.old.items (only.old.items ++ row.now ∷ [])) }
{
    if is_known {
        return Ok(());
    }
    let copy = copied(alloc, row)?;
    only.push(copy)?;
    Ok(())
}

fn has_result(alloc: Global, results: &Different, row: &ClassRow) -> Result<bool, AllocError>
    ensures { IfOk result (λ has. (has ≡ true) ↔ Among (answers_of row.now.shows) results.now) }
{
    let answers = answers_of(alloc, &row.shows)?;
    Ok(results.find(&answers).is_some())
}

/// The same row, with rows that are shared.
fn copied(alloc: Global, row: &ClassRow) -> Result<ClassRow, AllocError>
    ensures { IfOk result (λ copy. copy ≡ row.now) }
{
    let shows = row.shows.copied(alloc)?;
    let line = row.line.clone()?;
    Ok(ClassRow {
        least: row.least,
        count: row.count,
        letters: row.letters,
        line,
        shows,
    })
}

fn write_levels<'a, W: Write>(
    alloc: Global,
    path: &str,
    kept: &Kept,
    found: &FoundAt,
    wanted: &WantedLevels,
    out: &mut Counted<W>,
) -> Result<(), ClassesFault<'a>>
    requires { failures_of out.old < u64.MAX }
    ensures { WritesLevels W.contents out.old out.new (IsLevelsText path.now wanted.now kept.now found.now) result }
{
    let Ok(text) = text_of(alloc, path, kept, found, wanted) else {
        return Err(ClassesFault::NoMemory);
    };
    match out.write_all(text.as_bytes()) {
        Ok(()) => Ok(()),
        Err(fault) => Err(ClassesFault::Write(fault)),
    }
}

/// The text of both levels.
fn text_of(
    alloc: Global,
    path: &str,
    kept: &Kept,
    found: &FoundAt,
    wanted: &WantedLevels,
) -> Result<String, AllocError>
    ensures { IfOk result (λ text. IsLevelsText path.now wanted.now kept.now found.now (string_bytes text)) }
{
    let only = only_of(alloc, &kept.results, found.results.rows.as_slice())?;
    let page = Page {
        path,
        orders: found.results.orders,
        all_orders: false,
        sample: None,
        sessions: found.spec.session_names(),
        steps: found.spec.step_names(),
        tables: found.tables.as_slice(),
        by: ClassKind::Answers,
        is_filtered: false,
        filters: "",
        missing: None,
        levels: &found.levels,
        expectations: &[],
        totals: found.results.totals,
        rows: only.as_slice(),
        is_brief: wanted.brief,
        with_ranks: false,
        ranks: &[],
        with_outcomes: wanted.outcomes,
        with_left: wanted.final_rows,
        looks: &[],
    };
    levels_text(
        alloc,
        &side_of(&kept.levels, kept.totals),
        &side_of(&found.levels, found.totals),
        found.results.totals.all.classes,
        &page,
    )
}

fn side_of(levels: &Levels, totals: Totals) -> Side<'_>
    ensures { result ≡ record { level = levels.now.asked; other_lines = levels.now.other_lines.items; totals = totals } }
{
    Side { levels, totals }
}
