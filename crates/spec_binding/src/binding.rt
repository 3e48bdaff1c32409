//! Binds a spec file that is read.

ghost use Rattle.std.specs.Prelude.{◌≡◌, ◌≢◌, ◌<◌, ◌≤◌, ◌++◌, ◌⊎◌, [], map, length, string_bytes, IfOk, IfErr, Ok, Err};
ghost use Rattle.perm_ranks.specs.declared.TheConstants.{MAX_SESSIONS};
ghost use Rattle.bound_specs.specs.declared.TheConstants.{MAX_LINED_STEPS};
ghost use Rattle.spec_reader.specs.Views.{session_tree, step_tree, line_tree};
ghost use Rattle.spec_reader.specs.Whole.{spec_tree};
ghost use Rattle.sql_grammar.specs.declared.error.SqlErrorKind.TheVariants as sql;
ghost use Rattle.bound_specs.specs.Orders.{lines_of};
ghost use Rattle.spec_binding.specs.Bindings.{bound_session, FitsCounts};
ghost use Rattle.bound_specs.specs.Lines.{all_some, numbered_line, counts_in, step_names, session_names, lines_by, orders_of};
ghost use Rattle.bound_specs.specs.Binding.{numbered, all_steps, shaped, bound_at, bound_file};
ghost use Rattle.bound_specs.specs.Levels.{levelled_block, levelled_step};
ghost use Rattle.binding_model.specs.Refusals.{Binds};

use crate::blocks::{BoundSession, sessions, setups};
use crate::shapes::{lines, shape, total_steps};
use binding_model::{BindError, BindErrorKind, BindStop, refused};
use bound_specs::{Block, Line, MAX_LINED_STEPS, Orders, Parts, Spec, Step};
use bound_statements::Level;
use lock_modes::Text;
use perm_ranks::{MAX_SESSIONS, MAX_STEPS};
use spec_reader::{
    Line as LineText, MAX_LINES, Session as SessionText, SpecText, Step as StepText,
};
use std::alloc::{AllocError, Global};

fn push_names(alloc: Global, steps: &[StepText], names: &mut Vec<Text>) -> Result<(), AllocError>
    ensures { IfOk result (λ _. names.new.items ≡ names.old.items ++ map (λ t. t.name) (map step_tree steps.now)) }
{
    for step in steps {
        names.push(Text::from_str(alloc, &step.name)?)?;
    }
    Ok(())
}

/// The names of all steps, in the order of the file.
fn step_names(alloc: Global, sessions: &[SessionText]) -> Result<Vec<Text>, AllocError>
    ensures { IfOk result (λ names. names.items ≡ step_names (map session_tree sessions.now)) }
{
    let mut names = Vec::new(alloc);
    for session in sessions {
        push_names(alloc, &session.steps, &mut names)?;
    }
    Ok(names)
}

fn session_names(alloc: Global, sessions: &[SessionText]) -> Result<Vec<Text>, AllocError>
    ensures { IfOk result (λ names. names.items ≡ session_names (map session_tree sessions.now)) }
{
    let mut names = Vec::new(alloc);
    for session in sessions {
        names.push(Text::from_str(alloc, &session.head.name)?)?;
    }
    Ok(names)
}

fn outside() -> BindStop
    ensures { result ≡ BindStop.Refused (record { kind = BindErrorKind.Shape; offset = 0 }) }
{
    refused(0, BindErrorKind::Shape)
}

/// All words of the shape that the sessions have.
fn words(sessions: &[SessionText]) -> Result<Orders, BindStop>
    requires { length sessions.now ≤ MAX_SESSIONS }
    ensures bound { Binds lines_of result (shaped (lines_by (map session_tree sessions.now) [])) }
    ensures fits { IfOk result (FitsCounts (counts_in (map session_tree sessions.now))) }
{
    if total_steps(sessions, MAX_STEPS).is_none() {
        return Err(outside());
    }
    match shape(sessions) {
        Some(shape) => Ok(Orders::Words(shape)),
        None => Err(outside()),
    }
}

/// The lines of a file, which has some.
fn some_lines(alloc: Global, texts: &[LineText], names: &[Text]) -> Result<Vec<Line>, BindStop>
    requires some { 0 < length texts.now }
    requires few { length names.now ≤ MAX_LINED_STEPS }
    ensures bound { Binds (λ lines. map (λ line. line.items) lines.items) result (shaped (all_some (numbered_line names.now) (map line_tree texts.now))) }
    ensures some { IfOk result (λ lines. lines.items ≢ []) }
{
    match lines(alloc, names, texts)? {
        Some(lines) => Ok(lines),
        None => Err(outside()),
    }
}

/// The lines that the file gives.
fn given(
    alloc: Global,
    sessions: &[SessionText],
    texts: &[LineText],
    names: &[Text],
) -> Result<Orders, BindStop>
    requires some { 0 < length texts.now }
    requires names { names.now ≡ step_names (map session_tree sessions.now) }
    ensures bound { Binds lines_of result (shaped (lines_by (map session_tree sessions.now) (map line_tree texts.now))) }
    ensures fits { IfOk result (FitsCounts (counts_in (map session_tree sessions.now))) }
{
    if texts.len() > MAX_LINES {
        return Err(outside());
    }
    match total_steps(sessions, MAX_LINED_STEPS) {
        Some(_) => Ok(Orders::Lines(some_lines(alloc, texts, names)?)),
        None => Err(outside()),
    }
}

/// The orders in which the steps are sent.
fn orders(alloc: Global, text: &SpecText, names: &[Text]) -> Result<Orders, BindStop>
    requires { names.now ≡ step_names (spec_tree text.now).sessions }
    ensures bound { Binds lines_of result (shaped (orders_of (spec_tree text.now))) }
    ensures fits { IfOk result (FitsCounts (counts_in (spec_tree text.now).sessions)) }
{
    if text.sessions.len() > MAX_SESSIONS {
        return Err(outside());
    }
    if text.lines.is_empty() {
        words(&text.sessions)
    } else {
        given(alloc, &text.sessions, &text.lines, names)
    }
}

fn push_steps(session: u8, blocks: Vec<Block>, steps: &mut Vec<Step>) -> Result<(), AllocError>
    ensures { IfOk result (λ _. steps.new.items ≡ steps.old.items ++ numbered session blocks.items) }
{
    for block in blocks {
        steps.push(Step::new(session, block))?;
    }
    Ok(())
}

/// The steps of all sessions, and their setups.
fn all_steps(
    alloc: Global,
    sessions: Vec<BoundSession>,
) -> Result<(Vec<Step>, Vec<Block>), AllocError>
    requires { length sessions.items ≤ MAX_SESSIONS }
    ensures steps { IfOk result (λ x. x.0.items ≡ all_steps 0 (map bound_session sessions.items)) }
    ensures setups { IfOk result (λ x. x.1.items ≡ map (λ s. s.setup) (map bound_session sessions.items)) }
{
    let mut steps = Vec::new(alloc);
    let mut setups = Vec::new(alloc);
    let mut number = 0;
    for session in sessions {
        let BoundSession {
            setup,
            steps: blocks,
        } = session;
        setups.push(setup)?;
        push_steps(number, blocks, &mut steps)?;
        number += 1;
    }
    Ok((steps, setups))
}

/// The steps of statements as they are written, where this level is asked for, or none.
fn levelled_steps(
    alloc: Global,
    steps: Vec<Step>,
    asked: Option<Level>,
) -> Result<Vec<Step>, AllocError>
    ensures { IfOk result (λ all. all.items ≡ map (levelled_step asked) steps.items) }
{
    let mut all = Vec::new(alloc);
    for step in steps {
        all.push(step.levelled(alloc, asked)?)?;
    }
    Ok(all)
}

/// The blocks of statements as they are written, where this level is asked for, or none.
fn levelled_blocks(
    alloc: Global,
    blocks: Vec<Block>,
    asked: Option<Level>,
) -> Result<Vec<Block>, AllocError>
    ensures { IfOk result (λ all. all.items ≡ map (levelled_block asked) blocks.items) }
{
    let mut all = Vec::new(alloc);
    for block in blocks {
        all.push(block.levelled(alloc, asked)?)?;
    }
    Ok(all)
}

/// Binds what a spec file says: its main setups in order, and then each session's setup and steps, where this level is asked for, or none.
fn bound(alloc: Global, text: &SpecText, levels: Option<Level>) -> Result<Spec, BindStop>
    ensures { Binds (λ spec. spec) result (bound_at levels (string_bytes text.now.text) (spec_tree text.now)) }
{
    text.known();
    let step_names = step_names(alloc, &text.sessions)?;
    let orders = orders(alloc, text, &step_names)?;
    let mut tables = Vec::new(alloc);
    let setups = setups(alloc, &mut tables, &text.front.setups)?;
    let bound = sessions(alloc, &tables, &text.sessions)?;
    let (written_steps, written_setups) = all_steps(alloc, bound)?;
    let steps = levelled_steps(alloc, written_steps, levels)?;
    let session_setups = levelled_blocks(alloc, written_setups, levels)?;
    let setups = levelled_blocks(alloc, setups, levels)?;
    let session_names = session_names(alloc, &text.sessions)?;
    let copy = String::from_str(alloc, &text.text)?;
    Ok(Spec::from_parts(Parts {
        text: copy,
        session_names,
        step_names,
        sessions: text.sessions.len() as u8,
        steps,
        setups,
        session_setups,
        orders,
        levels,
    }))
}

const NO_MEMORY: BindError = BindError {
    kind: BindErrorKind::NoMemory,
    offset: 0,
};

/// Binds a spec file that is read: its statements speak of tables and columns by their numbers, and its lines of steps by theirs. Levels are not asked for.
///
/// Each name is looked for among the tables, columns or steps before it in turn, which a file of 65,536 bytes keeps short.
pub fn bind(alloc: Global, text: &SpecText) -> Result<Spec, BindError>
    // What is bound is what the file says.
    ensures bound { IfOk result (λ spec. bound_file (string_bytes text.now.text) (spec_tree text.now) ≡ Ok spec) }
    // What is refused has that first refusal, unless memory ran out.
    ensures refused { IfErr result (λ e. (bound_file (string_bytes text.now.text) (spec_tree text.now) ≡ Err e) ⊎ (e ≡ record { kind = BindErrorKind.NoMemory; offset = 0 })) }
    // Want of memory is told as such, and as no refusal of a block's SQL.
    ensures memory { IfErr result (λ e. e.kind ≢ BindErrorKind.Sql sql.NoMemory) }
{
    bind_at(alloc, text, None)
}

/// The same where a level is asked for, which each transaction has that names none; or where levels are not asked for.
pub fn bind_at(alloc: Global, text: &SpecText, levels: Option<Level>) -> Result<Spec, BindError>
    // What is bound is what the file says.
    ensures bound { IfOk result (λ spec. bound_at levels (string_bytes text.now.text) (spec_tree text.now) ≡ Ok spec) }
    // What is refused has the first refusal of the file, at each level the same, unless memory ran out.
    ensures refused { IfErr result (λ e. (bound_file (string_bytes text.now.text) (spec_tree text.now) ≡ Err e) ⊎ (e ≡ record { kind = BindErrorKind.NoMemory; offset = 0 })) }
    // Want of memory is told as such, and as no refusal of a block's SQL.
    ensures memory { IfErr result (λ e. e.kind ≢ BindErrorKind.Sql sql.NoMemory) }
{
    match bound(alloc, text, levels) {
        Ok(spec) => Ok(spec),
        Err(BindStop::Refused(error)) => Err(error),
        Err(BindStop::Memory) => Err(NO_MEMORY),
    }
}
