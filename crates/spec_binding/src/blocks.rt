//! Binds blocks: main setups, the setups of sessions, and steps.

ghost use Rattle.std.specs.Prelude.{◌≡◌, map};
ghost use Rattle.spec_reader.specs.Views.{block_tree, step_tree, option_tree, session_tree};
ghost use Rattle.sql_grammar.specs.Text.{seen};
ghost use Rattle.sql_grammar.specs.Views.{view_form};
ghost use Rattle.bound_specs.specs.Binding.{offset_in, read_block, statement_at, bind_block, session_setup, step, session, main_statement, main_at, main_setup, then_more, declared};
ghost use Rattle.spec_binding.specs.Bindings.{bound_session};
ghost use Rattle.binding_model.specs.Refusals.{Binds, each};

use binding_model::{BindErrorKind, BindStop, Table, refused};
use bound_specs::Block;
use bound_statements::Bound;
use spec_reader::{Block as BlockText, Session as SessionText, Step as StepText};
use sql_grammar::{Form, SqlErrorKind, Statement};
use sql_reader::read_sql;
use statement_binding::{create, statement};
use std::alloc::Global;

/// The offset in the file of a place of a block that begins there.
fn offset_in(block: usize, at: usize) -> usize
    ensures { result ≡ offset_in block at }
{
    block.saturating_add(at)
}

/// The statements of a block, which is read whole.
fn read_block(alloc: Global, block: &BlockText) -> Result<Vec<Statement>, BindStop>
    ensures { Binds (λ all. seen all.items) result (read_block (block_tree block.now)) }
{
    match read_sql(alloc, &block.text) {
        Ok(statements) => Ok(statements),
        Err(error) => match error.kind {
            SqlErrorKind::NoMemory => Err(BindStop::Memory),
            kind => Err(refused(offset_in(block.at, error.offset), BindErrorKind::Sql(kind))),
        },
    }
}

/// Binds a statement of a block that begins at this offset, outside the main setups.
fn statement_at(
    alloc: Global,
    tables: &[Table],
    block: usize,
    text: &Statement,
) -> Result<Bound, BindStop>
    ensures { Binds (λ bound. bound) result (statement_at tables.now block (text.now.at, view_form text.now.form)) }
{
    statement(alloc, tables, offset_in(block, text.at), &text.form)
}

fn statements(
    alloc: Global,
    tables: &[Table],
    block: usize,
    texts: &[Statement],
) -> Result<Vec<Bound>, BindStop>
    ensures { Binds (λ all. all.items) result (each (statement_at tables.now block) (seen texts.now)) }
{
    let mut all = Vec::new(alloc);
    for text in texts {
        all.push(statement_at(alloc, tables, block, text)?)?;
    }
    Ok(all)
}

/// Binds a block outside the main setups.
fn bind_block(alloc: Global, tables: &[Table], block: &BlockText) -> Result<Block, BindStop>
    ensures { Binds (λ block. block) result (bind_block tables.now (block_tree block.now)) }
{
    let texts = read_block(alloc, block)?;
    let bound = statements(alloc, tables, block.at, &texts)?;
    Ok(Block::from_statements(bound))
}

fn session_setup(
    alloc: Global,
    tables: &[Table],
    setup: &Option<BlockText>,
) -> Result<Block, BindStop>
    ensures { Binds (λ block. block) result (session_setup tables.now (option_tree setup.now)) }
{
    match setup {
        None => Ok(Block::from_statements(Vec::new(alloc))),
        Some(block) => bind_block(alloc, tables, block),
    }
}

fn step(alloc: Global, tables: &[Table], text: &StepText) -> Result<Block, BindStop>
    ensures { Binds (λ block. block) result (step tables.now (step_tree text.now)) }
{
    bind_block(alloc, tables, &text.block)
}

fn steps(alloc: Global, tables: &[Table], texts: &[StepText]) -> Result<Vec<Block>, BindStop>
    ensures { Binds (λ all. all.items) result (each (step tables.now) (map step_tree texts.now)) }
{
    let mut all = Vec::new(alloc);
    for text in texts {
        all.push(step(alloc, tables, text)?)?;
    }
    Ok(all)
}

/// A session's setup, and its steps.
#[derive(Drop)]
pub(crate) struct BoundSession {
    pub(crate) setup: Block,
    pub(crate) steps: Vec<Block>,
}

fn session(alloc: Global, tables: &[Table], text: &SessionText) -> Result<BoundSession, BindStop>
    ensures { Binds bound_session result (session tables.now (session_tree text.now)) }
{
    let setup = session_setup(alloc, tables, &text.head.setup)?;
    let steps = steps(alloc, tables, &text.steps)?;
    Ok(BoundSession { setup, steps })
}

/// The sessions of a file.
pub(crate) fn sessions(
    alloc: Global,
    tables: &[Table],
    texts: &[SessionText],
) -> Result<Vec<BoundSession>, BindStop>
    ensures { Binds (λ all. map bound_session all.items) result (each (session tables.now) (map session_tree texts.now)) }
{
    let mut all = Vec::new(alloc);
    for text in texts {
        all.push(session(alloc, tables, text)?)?;
    }
    Ok(all)
}

/// Binds a statement of a main setup: a declaration changes the tables, another statement is added.
fn push_main(
    alloc: Global,
    tables: &mut Vec<Table>,
    block: usize,
    text: &Statement,
    all: &mut Vec<Bound>,
) -> Result<(), BindStop>
    ensures { Binds (λ _. (tables.new.items, all.new.items)) result (then_more all.old.items (main_at block tables.old.items (text.now.at, view_form text.now.form))) }
{
    let at = offset_in(block, text.at);
    match &text.form {
        Form::CreateTable(table) => create(alloc, tables, at, table)?,
        form => all.push(statement(alloc, tables, at, form)?)?,
    }
    Ok(())
}

fn main_statements(
    alloc: Global,
    tables: &mut Vec<Table>,
    block: usize,
    texts: &[Statement],
) -> Result<Vec<Bound>, BindStop>
    ensures { Binds (λ all. (tables.new.items, all.items)) result (declared (main_at block) tables.old.items (seen texts.now)) }
{
    let mut all = Vec::new(alloc);
    for text in texts {
        push_main(alloc, tables, block, text, &mut all)?;
    }
    Ok(all)
}

fn push_setup(
    alloc: Global,
    tables: &mut Vec<Table>,
    block: &BlockText,
    all: &mut Vec<Block>,
) -> Result<(), BindStop>
    ensures { Binds (λ _. (tables.new.items, all.new.items)) result (then_more all.old.items (main_setup tables.old.items (block_tree block.now))) }
{
    let texts = read_block(alloc, block)?;
    let bound = main_statements(alloc, tables, block.at, &texts)?;
    all.push(Block::from_statements(bound))?;
    Ok(())
}

fn each_setup(
    alloc: Global,
    tables: &mut Vec<Table>,
    blocks: &[BlockText],
) -> Result<Vec<Block>, BindStop>
    ensures { Binds (λ all. (tables.new.items, all.items)) result (declared (λ tables b. main_setup tables (block_tree b)) tables.old.items blocks.now) }
{
    let mut all = Vec::new(alloc);
    for block in blocks {
        push_setup(alloc, tables, block, &mut all)?;
    }
    Ok(all)
}

/// The main setups of a file, which declare its tables.
pub fn setups(
    alloc: Global,
    tables: &mut Vec<Table>,
    blocks: &[BlockText],
) -> Result<Vec<Block>, BindStop>
    ensures { Binds (λ all. (tables.new.items, all.items)) result (declared main_setup tables.old.items (map block_tree blocks.now)) }
{
    each_setup(alloc, tables, blocks)
}
