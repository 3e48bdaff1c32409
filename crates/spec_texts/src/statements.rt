//! Statements that have no effect, or have a part that has none.

ghost use Rattle.std.specs.Prelude.{◌≡◌, ◌++◌, ◌∷◌, [], map, IfOk};
ghost use Rattle.std.specs.List.{list_any};
ghost use Rattle.sql_grammar.specs.Text.{seen};
ghost use Rattle.sql_grammar.specs.Views.{chain_of, view_form};
ghost use Rattle.spec_reader.specs.Views.{block_tree};
ghost use Rattle.bound_specs.specs.Binding.{offset_in};
ghost use Rattle.file_blocks.specs.Blocks.{sent_tree};
ghost use Rattle.spec_texts.specs.Statements.{any_of, begin_has, table_has, has_not_null, with_at, with_in, statements_with, has_part, is_not_null, is_level, is_other_level, is_repeatable, is_serializable, set_has};

use bound_statements::Level as Asked;
use file_blocks::SentBlock;
use spec_reader::Block;
use sql_grammar::{CreateTable, Form, Level, Property, SqlErrorKind, Statement, TablePart};
use sql_reader::read_sql;
use std::alloc::{AllocError, Global};

/// A part of a statement by whose lines something is told: that it has no effect, or is another one than what is asked for.
#[derive(Clone, Copy)]
pub enum SqlPart {
    /// The isolation level of a BEGIN, which has no effect where no level is asked for.
    Level,
    /// One that is not this.
    OtherLevel(Asked),
    /// REPEATABLE READ.
    RepeatableRead,
    /// The whole of a SET.
    Setting,
    /// NOT NULL of a column: no value is null.
    NotNull,
}

/// Where the statements that have such a part begin in their file, of those in these blocks.
pub fn statements_with(
    alloc: Global,
    kind: SqlPart,
    blocks: &[SentBlock],
) -> Result<Vec<usize>, AllocError>
    ensures { IfOk result (λ all. all.items ≡ statements_with kind (map sent_tree blocks.now)) }
{
    let mut all = Vec::new(alloc);
    for sent in blocks {
        push_block(alloc, kind, sent.block, &mut all)?;
    }
    Ok(all)
}

fn push_block(
    alloc: Global,
    kind: SqlPart,
    block: &Block,
    all: &mut Vec<usize>,
) -> Result<(), AllocError>
    ensures { IfOk result (λ _. all.new.items ≡ all.old.items ++ with_in kind (block_tree block.now)) }
{
    match read_sql(alloc, &block.text) {
        Ok(statements) => push_statements(kind, block.at, &statements, all),
        Err(error) => match error.kind {
            SqlErrorKind::NoMemory => Err(AllocError),
            _ => Ok(()),
        },
    }
}

fn push_statements(
    kind: SqlPart,
    block: usize,
    statements: &[Statement],
    all: &mut Vec<usize>,
) -> Result<(), AllocError>
    ensures { IfOk result (λ _. all.new.items ≡ all.old.items ++ with_at kind block (seen statements.now)) }
{
    for statement in statements {
        push_statement(kind, block, statement, all)?;
    }
    Ok(())
}

fn push_statement(
    kind: SqlPart,
    block: usize,
    statement: &Statement,
    all: &mut Vec<usize>,
) -> Result<(), AllocError>
    ensures { IfOk result (λ _. all.new.items ≡ all.old.items ++ with_at kind block ((statement.now.at, view_form statement.now.form) ∷ [])) }
{
    if has_part(kind, &statement.form) {
        all.push(offset_in(block, statement.at))?;
    }
    Ok(())
}

/// The offset in the file of a place of a block that begins there.
fn offset_in(block: usize, at: usize) -> usize
    ensures { result ≡ offset_in block at }
{
    block.saturating_add(at)
}

fn has_part(kind: SqlPart, form: &Form) -> bool
    ensures { result ≡ has_part kind (view_form form.now) }
{
    match form {
        Form::CreateTable(table) => table_has(kind, table),
        Form::Insert(_) => false,
        Form::Select(_) => false,
        Form::Update(_) => false,
        Form::Delete(_) => false,
        Form::Begin(begin) => begin_has(kind, begin.level),
        Form::End(_) => false,
        Form::Lock(_) => false,
        Form::Set(_) => set_has(kind),
    }
}

fn begin_has(kind: SqlPart, level: Option<Level>) -> bool
    ensures { result ≡ begin_has kind level }
{
    match kind {
        SqlPart::Level => level.is_some(),
        SqlPart::OtherLevel(asked) => is_other_level(asked, level),
        SqlPart::RepeatableRead => is_repeatable(level),
        SqlPart::Setting => false,
        SqlPart::NotNull => false,
    }
}

fn is_other_level(asked: Asked, level: Option<Level>) -> bool
    ensures { result ≡ is_other_level asked level }
{
    match level {
        None => false,
        Some(level) => !is_level(asked, level),
    }
}

/// Whether what a BEGIN names is this level.
fn is_level(asked: Asked, level: Level) -> bool
    ensures { result ≡ is_level asked level }
{
    match level {
        Level::Serializable => is_serializable(asked),
        Level::RepeatableRead => false,
        Level::Read(_) => !is_serializable(asked),
    }
}

fn is_serializable(asked: Asked) -> bool
    ensures { result ≡ is_serializable asked }
{
    match asked {
        Asked::Serializable => true,
        Asked::Committed => false,
    }
}

fn is_repeatable(level: Option<Level>) -> bool
    ensures { result ≡ is_repeatable level }
{
    match level {
        Some(Level::RepeatableRead) => true,
        _ => false,
    }
}

fn set_has(kind: SqlPart) -> bool
    ensures { result ≡ set_has kind }
{
    match kind {
        SqlPart::Level => false,
        SqlPart::OtherLevel(_) => false,
        SqlPart::RepeatableRead => false,
        SqlPart::Setting => true,
        SqlPart::NotNull => false,
    }
}

fn table_has(kind: SqlPart, table: &CreateTable) -> bool
    ensures { result ≡ table_has kind (chain_of table.now.parts) }
{
    match kind {
        SqlPart::Level => false,
        SqlPart::OtherLevel(_) => false,
        SqlPart::RepeatableRead => false,
        SqlPart::Setting => false,
        SqlPart::NotNull => has_not_null(table),
    }
}

fn has_not_null(table: &CreateTable) -> bool
    ensures { result ≡ any_of has_not_null (chain_of table.now.parts) }
{
    is_not_null_part(&table.parts.first) || have_not_null(table.parts.more.as_slice())
}

fn have_not_null(parts: &[TablePart]) -> bool
    ensures { result ≡ list_any has_not_null parts.now }
{
    parts.iter().any(|part| is_not_null_part(part))
}

fn is_not_null_part(part: &TablePart) -> bool
    ensures { result ≡ has_not_null part.now }
{
    match part {
        TablePart::Column(_, _, properties) => have_not_null_property(properties.as_slice()),
        TablePart::Key(_) => false,
    }
}

fn have_not_null_property(properties: &[Property]) -> bool
    ensures { result ≡ list_any is_not_null properties.now }
{
    properties.iter().any(|property| is_not_null(*property))
}

fn is_not_null(property: Property) -> bool
    ensures { result ≡ is_not_null property }
{
    match property {
        Property::PrimaryKey => false,
        Property::NotNull => true,
    }
}
