//! What happens in one order, from the bytes of a spec to the text or the JSON that is written.

ghost use Rattle.std.specs.Prelude.{◌≡◌, ◌<◌, ℕ, All, IfErr, IfOk, List, Option, length, map};
ghost use Rattle.bound_statements.specs.declared.statement.Level.{Level as Asked};
ghost use Rattle.bound_specs.specs.Spec.{Step, line_of, ranks};
ghost use Rattle.machine_model.specs.Start.{start};
ghost use Rattle.session_machine.specs.Running.{IsNotRunBy};
ghost use Rattle.spec_levels.specs.Levels.{AreLevels};
ghost use Rattle.spec_levels.specs.Levelled.{IsNoLevelledSpec};
ghost use Rattle.spec_texts.specs.Texts.{AreStepLines, Declares};
ghost use Rattle.transcripts.specs.Counted.{failures_of};
ghost use Rattle.spec_commands.specs.Showing.{IsFound, IsNotFound, IsNotRead, IsShowRun, IsShowing, IsUnranked, IsWanted, IsWantedPlace, Writes, text_by};

use crate::ordering::{RankFault, explained};
use binding_model::Table;
use bound_specs::{Line, Spec};
use bound_statements::Level;
use line_moments::Shown;
use lock_modes::Text;
use order_names::rank_of;
use session_machine::{RunError, show_line};
use shown_texts::show_text;
use shown_values::show_json;
use spec_binding::SpecFault;
use spec_levels::{LevelFault, LevelledFault, Levels, levelled_spec, levels_of};
use spec_texts::{statement_texts, tables_of};
use std::alloc::{AllocError, Global};
use std::io::Write;
use transcripts::{Counted, WriteFault};

/// How an order is asked for.
#[derive(Clone, Copy)]
pub enum WantedOrder<'a> {
    /// By its rank.
    Rank(u64),
    /// By the names of its steps.
    Names(&'a [&'a str]),
}

/// As what it is written.
#[derive(Clone, Copy, PartialEq, Eq)]
pub enum ShowForm {
    Text,
    Json,
}

/// Why it was not written what happens in an order. Each is tried before those below it, but for want of memory.
#[derive(Drop)]
pub enum ShowFault {
    /// The bytes are no spec file.
    Spec(SpecFault),
    /// What the file says of levels is wrong.
    Level(LevelFault),
    /// The order has no rank.
    NoRank(RankFault),
    /// The spec has no permutation of this rank.
    OutOfRange,
    /// The line was not run: the spec does not start, or memory ran out.
    Run(RunError),
    /// Memory ran out.
    NoMemory,
    /// The text was not written; a front of it may be.
    Write(WriteFault),
}

/// Reads a spec, and writes what happens in an order of it, at a level or at the one for which the file asks, with the path that the spec is told to lie
/// at.
pub fn show<W: Write>(
    alloc: Global,
    bytes: &[u8],
    path: &str,
    wanted: WantedOrder<'_>,
    form: ShowForm,
    level: Option<Level>,
    out: &mut Counted<W>,
) -> Result<(), ShowFault>
    requires { failures_of out.old < u64.MAX }
    ensures shown { IsShowRun W.contents out.old out.new bytes.now path.now wanted.entry form level result }
    ensures placed { IfErr result (IsWantedPlace wanted.entry) }
{
    let spec = match levelled_spec(alloc, bytes, level) {
        Ok(spec) => spec,
        Err(fault) => return Err(not_read(fault)),
    };
    let rank = match wanted_rank(alloc, &spec, wanted) {
        Ok(rank) => rank,
        Err(fault) => return Err(fault),
    };
    let Some(line) = spec.line(rank) else {
        return Err(ShowFault::OutOfRange);
    };
    let found = match find_shown(alloc, &spec, &line) {
        Ok(found) => found,
        Err(fault) => return Err(fault),
    };
    write_shown(alloc, &spec, path, rank, &line, &found, form, out)
}

/// Why nothing is shown of bytes that are no spec at the level.
fn not_read(fault: LevelledFault) -> ShowFault
    ensures { (bytes : List ℕ) (level : Option Asked) → IsNoLevelledSpec bytes level fault → IsNotRead bytes level result }
{
    match fault {
        LevelledFault::Spec(fault) => ShowFault::Spec(fault),
        LevelledFault::Level(fault) => ShowFault::Level(fault),
        LevelledFault::NoMemory => ShowFault::NoMemory,
    }
}

/// The rank that is asked for.
fn wanted_rank(alloc: Global, spec: &Spec, wanted: WantedOrder<'_>) -> Result<u64, ShowFault>
    ensures rank { IfOk result (IsWanted spec.now wanted.entry) }
    ensures refused { IfErr result (IsUnranked spec.now wanted.entry) }
{
    match wanted {
        WantedOrder::Rank(rank) => Ok(rank),
        WantedOrder::Names(names) => match rank_of(alloc, spec, names) {
            Ok(rank) => Ok(rank),
            Err(error) => Err(ShowFault::NoRank(explained(alloc, spec, error))),
        },
    }
}

/// What is shown of a line, what the steps of its spec send, and the levels of the spec.
#[derive(Drop)]
struct Found {
    statements: Vec<Text>,
    levels: Levels,
    shown: Shown,
}

fn find_shown(alloc: Global, spec: &Spec, line: &Line) -> Result<Found, ShowFault>
    requires { All (λ k. k < length spec.now.run.steps) line.now.items }
    ensures found { IfOk result (λ found. (rank : ℕ) → line.now.items ≡ line_of spec.now.run rank
        → IsFound spec.now.text spec.now rank found.statements.items found.levels found.shown) }
    ensures refused { IfErr result (IsNotFound spec.now) }
{
    let Ok(tables) = tables_of(alloc, spec) else {
        return Err(ShowFault::NoMemory);
    };
    let Ok(statements) = statement_texts(alloc, spec) else {
        return Err(ShowFault::NoMemory);
    };
    let Ok(levels) = levels_of(alloc, spec) else {
        return Err(ShowFault::NoMemory);
    };
    match show_line(alloc, spec, &tables, line.as_slice()) {
        Ok(shown) => Ok(Found {
            statements,
            levels,
            shown,
        }),
        Err(error) => Err(ShowFault::Run(error)),
    }
}

/// Writes what was found of a line.
fn write_shown<W: Write>(
    alloc: Global,
    spec: &Spec,
    path: &str,
    rank: u64,
    line: &Line,
    found: &Found,
    form: ShowForm,
    out: &mut Counted<W>,
) -> Result<(), ShowFault>
    requires fresh { failures_of out.old < u64.MAX }
    requires line { line.now.items ≡ line_of spec.now.run rank }
    ensures { Writes W.contents out.old out.new (text_by form path.now spec.now rank found.now.statements.items found.now.levels found.now.shown) result }
{
    match form {
        ShowForm::Text => write_text(alloc, spec, path, rank, found, out),
        ShowForm::Json => write_json(alloc, spec, path, rank, line, found, out),
    }
}

fn write_text<W: Write>(
    alloc: Global,
    spec: &Spec,
    path: &str,
    rank: u64,
    found: &Found,
    out: &mut Counted<W>,
) -> Result<(), ShowFault>
    requires { failures_of out.old < u64.MAX }
    ensures { Writes W.contents out.old out.new (text_by ShowForm.Text path.now spec.now rank found.now.statements.items found.now.levels found.now.shown) result }
{
    let page = shown_texts::Page {
        path,
        rank,
        orders: spec.ranks(),
        sessions: spec.session_names(),
        steps: spec.step_names(),
        statements: &found.statements,
        levels: &found.levels,
        shown: &found.shown,
    };
    let Ok(text) = show_text(alloc, &page) else {
        return Err(ShowFault::NoMemory);
    };
    match out.write_str(&text) {
        Ok(()) => Ok(()),
        Err(fault) => Err(ShowFault::Write(fault)),
    }
}

fn write_json<W: Write>(
    alloc: Global,
    spec: &Spec,
    path: &str,
    rank: u64,
    line: &Line,
    found: &Found,
    out: &mut Counted<W>,
) -> Result<(), ShowFault>
    requires fresh { failures_of out.old < u64.MAX }
    requires line { line.now.items ≡ line_of spec.now.run rank }
    ensures { Writes W.contents out.old out.new (text_by ShowForm.Json path.now spec.now rank found.now.statements.items found.now.levels found.now.shown) result }
{
    let Ok(text) = json_of(
        alloc,
        spec,
        path,
        rank,
        line,
        &found.statements,
        &found.levels,
        &found.shown,
    ) else {
        return Err(ShowFault::NoMemory);
    };
    match out.write_all(&text) {
        Ok(()) => Ok(()),
        Err(fault) => Err(ShowFault::Write(fault)),
    }
}

/// What is shown of a line, as JSON.
fn json_of(
    alloc: Global,
    spec: &Spec,
    path: &str,
    rank: u64,
    line: &Line,
    statements: &[Text],
    levels: &Levels,
    shown: &Shown,
) -> Result<Vec<u8>, AllocError>
    requires { line.now.items ≡ line_of spec.now.run rank }
    ensures { IfOk result (λ text. text.items ≡ text_by ShowForm.Json path.now spec.now rank statements.now levels.now shown.now) }
{
    let step_sessions = sessions_of_steps(alloc, spec)?;
    let page = shown_values::Page {
        name: path,
        rank,
        orders: spec.ranks(),
        levels,
        session_names: spec.session_names(),
        step_names: spec.step_names(),
        step_sessions: &step_sessions,
        statements,
        line: line.as_slice(),
        shown,
    };
    let text = show_json(alloc, &page)?;
    Ok(text)
}

/// What `show` writes as JSON of the order of a rank, with the path that the spec is told to lie at, where its main setups declare these tables, its steps
/// send these statements, and these are its levels. Of the refusals only `Start` and `NoMemory` come.
pub fn order_json(
    alloc: Global,
    spec: &Spec,
    tables: &[Table],
    statements: &[Text],
    levels: &Levels,
    path: &str,
    rank: u64,
) -> Result<Vec<u8>, RunError>
    requires rank { rank < ranks spec.now.run }
    requires tables { Declares spec.now.text spec.now tables.now }
    requires statements { AreStepLines spec.now.text spec.now statements.now }
    requires levels { AreLevels spec.now.text spec.now levels.now }
    ensures shown { IfOk result (λ text. IsShowing spec.now.text path.now spec.now rank ShowForm.Json text.items) }
    ensures refused { IfErr result (λ error. IsNotRunBy error (start spec.now.run)) }
{
    let Some(steps) = spec.line(rank) else {
        unreachable!();
    };
    let shown = match show_line(alloc, spec, tables, steps.as_slice()) {
        Ok(shown) => shown,
        Err(error) => return Err(error),
    };
    match json_of(alloc, spec, path, rank, &steps, statements, levels, &shown) {
        Ok(text) => Ok(text),
        Err(_) => Err(RunError::NoMemory),
    }
}

/// The session of each step.
pub fn sessions_of_steps(alloc: Global, spec: &Spec) -> Result<Vec<u8>, AllocError>
    ensures { IfOk result (λ sessions. sessions.items ≡ map (λ (s : Step). s.session) spec.now.run.steps) }
{
    let mut sessions = Vec::new(alloc);
    for step in 0..spec.steps() {
        sessions.push(spec.session_of(step))?;
    }
    Ok(sessions)
}
