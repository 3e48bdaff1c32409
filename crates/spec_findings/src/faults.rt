//! The faults of blocks beyond the first fault of their file.

ghost use Rattle.std.specs.Prelude.{◌≡◌, ◌++◌, All, IfOk, IfSome, map};
ghost use Rattle.std.specs.Option.{option_to_list};
ghost use Rattle.sql_grammar.specs.Text.{seen};
ghost use Rattle.binding_model.specs.Refusals.{Binds, each};
ghost use Rattle.sql_grammar.specs.Views.{view_form};
ghost use Rattle.bound_specs.specs.Binding.{offset_in, read_block, statement_at, declared, main_at, main_setup, bind_block};
ghost use Rattle.file_blocks.specs.Blocks.{sent_tree};
ghost use Rattle.spec_findings.specs.Faults.{Blames, BlamesIn, IsFaultIn, IsFaultOf, IsTold};

use crate::MAX_FAULTS;
use crate::pieces::split_piece;
use binding_model::{BindError, BindErrorKind, BindStop, Table, refused};
use byte_runs::tokens_of;
use file_blocks::{Role, SentBlock};
use sql_grammar::{Form, SqlErrorKind, Statement, Token};
use sql_reader::read_sql;
use statement_binding::{create, statement};
use std::alloc::{AllocError, Global};

/// The tables that the statements so far declare.
#[derive(Drop)]
struct Declared {
    tables: Vec<Table>,
    /// Whether no declaration was refused. Where one was, it is not told that there is no table of some name: it may be that one.
    are_all: bool,
}

/// The faults of these blocks in the order of their places, but for the one at the place of the file's first fault: so many that these and the
/// first one are 20 at most.
pub(crate) fn faults_of(
    alloc: Global,
    blocks: &[SentBlock],
    first: usize,
) -> Result<Vec<BindError>, AllocError>
    ensures { IfOk result (λ all. All (IsFaultIn (map sent_tree blocks.now)) all.items) }
{
    let mut declared = Declared {
        tables: Vec::new(alloc),
        are_all: true,
    };
    let mut all = Vec::new(alloc);
    for sent in blocks {
        let more = block_faults(alloc, sent, first, &mut declared)?;
        all.extend_from_slice(&more)?;
    }
    all.truncate(MAX_FAULTS - 1);
    Ok(all)
}

/// The faults of a block, each of a piece of its text.
fn block_faults(
    alloc: Global,
    sent: &SentBlock,
    first: usize,
    declared: &mut Declared,
) -> Result<Vec<BindError>, AllocError>
    ensures { IfOk result (λ all. All (IsFaultOf (sent_tree sent.now)) all.items) }
{
    let mut all = Vec::new(alloc);
    let mut begin = 0;
    let mut rest = sent.block.text.as_str();
    'pieces: while !rest.is_empty() {
        let (piece, after) = split_piece(rest);
        let at = offset_in(sent.block.at, begin);
        let told = told_fault(alloc, sent.role, at, piece, first, declared)?;
        push_told(&mut all, told)?;
        begin += piece.len();
        rest = after;
    }
    Ok(all)
}

fn push_told(all: &mut Vec<BindError>, told: Option<BindError>) -> Result<(), AllocError>
    ensures { IfOk result (λ _. all.new.items ≡ all.old.items ++ option_to_list told) }
{
    if let Some(error) = told {
        all.push(error)?;
    }
    Ok(())
}

/// What is told of a piece of a block, which begins at this offset of the file, by itself.
fn told_fault(
    alloc: Global,
    role: Role,
    at: usize,
    piece: &str,
    first: usize,
    declared: &mut Declared,
) -> Result<Option<BindError>, AllocError>
    ensures { IfOk result (λ told. IsTold role (record { at = at; text = piece.now }) told) }
{
    match piece_fault(alloc, role, at, piece, declared) {
        Ok(()) => Ok(None),
        Err(BindStop::Memory) => Err(AllocError),
        Err(BindStop::Refused(error)) => {
            note(alloc, role, piece, declared)?;
            Ok(told_or_none(error, first, declared.are_all))
        }
    }
}

/// The offset in the file of a place of a block that begins there.
fn offset_in(block: usize, at: usize) -> usize
    ensures { result ≡ offset_in block at }
{
    block.saturating_add(at)
}

/// The fault, if it is told: it is not the first one of the file, and no table is missing that a refused declaration may declare.
fn told_or_none(error: BindError, first: usize, are_all: bool) -> Option<BindError>
    ensures { IfSome result (λ told. told ≡ error) }
{
    if error.offset == first || hides(error.kind, are_all) {
        return None;
    }
    Some(error)
}

fn hides(kind: BindErrorKind, are_all: bool) -> bool {
    matches!(kind, BindErrorKind::UnknownTable) && !are_all
}

/// Notes that a declaration was refused, where it is one.
fn note(alloc: Global, role: Role, piece: &str, declared: &mut Declared) -> Result<(), AllocError> {
    if matches!(role, Role::Setup) && begins_create(alloc, piece)? {
        declared.are_all = false;
    }
    Ok(())
}

/// Whether the first word is CREATE.
fn begins_create(alloc: Global, piece: &str) -> Result<bool, AllocError> {
    let tokens = tokens_of::<Token>(alloc, piece)?;
    match tokens.first() {
        Some(first) => Ok(first.token.is_word("create")),
        None => Ok(false),
    }
}

/// Why a text by itself is refused, which begins at this offset of the file: by its reading, or by binding its first statement.
fn piece_fault(
    alloc: Global,
    role: Role,
    at: usize,
    text: &str,
    declared: &mut Declared,
) -> Result<(), BindStop>
    ensures { BlamesIn result role declared.old.tables.items (record { at = at; text = text.now }) }
{
    match role {
        Role::Setup => setup_fault(alloc, &mut declared.tables, at, text),
        Role::Session => session_fault(alloc, &declared.tables, at, text),
    }
}

fn setup_fault(
    alloc: Global,
    tables: &mut Vec<Table>,
    at: usize,
    text: &str,
) -> Result<(), BindStop>
    ensures { Blames result (main_setup tables.old.items (record { at = at; text = text.now })) }
{
    match read_piece(alloc, at, text) {
        Ok(statements) => first_main_fault(alloc, tables, at, statements.as_slice()),
        Err(stop) => Err(stop),
    }
}

fn session_fault(alloc: Global, tables: &[Table], at: usize, text: &str) -> Result<(), BindStop>
    ensures { Blames result (bind_block tables.now (record { at = at; text = text.now })) }
{
    match read_piece(alloc, at, text) {
        Ok(statements) => first_fault(alloc, tables, at, statements.as_slice()),
        Err(stop) => Err(stop),
    }
}

fn first_main_fault(
    alloc: Global,
    tables: &mut Vec<Table>,
    block: usize,
    statements: &[Statement],
) -> Result<(), BindStop>
    ensures { Blames result (declared (main_at block) tables.old.items (seen statements.now)) }
{
    match statements {
        [first, ..] => main_fault(alloc, tables, block, first),
        [] => Ok(()),
    }
}

fn first_fault(
    alloc: Global,
    tables: &[Table],
    block: usize,
    statements: &[Statement],
) -> Result<(), BindStop>
    ensures { Blames result (each (statement_at tables.now block) (seen statements.now)) }
{
    match statements {
        [first, ..] => statement_fault(alloc, tables, block, first),
        [] => Ok(()),
    }
}

fn main_fault(
    alloc: Global,
    tables: &mut Vec<Table>,
    block: usize,
    first: &Statement,
) -> Result<(), BindStop>
    ensures { Blames result (main_at block tables.old.items (first.now.at, view_form first.now.form)) }
{
    match &first.form {
        Form::CreateTable(table) => create(alloc, tables, offset_in(block, first.at), table),
        form => match statement(alloc, tables, offset_in(block, first.at), form) {
            Ok(_bound) => Ok(()),
            Err(stop) => Err(stop),
        },
    }
}

fn statement_fault(
    alloc: Global,
    tables: &[Table],
    block: usize,
    first: &Statement,
) -> Result<(), BindStop>
    ensures { Blames result (statement_at tables.now block (first.now.at, view_form first.now.form)) }
{
    match statement(alloc, tables, offset_in(block, first.at), &first.form) {
        Ok(_bound) => Ok(()),
        Err(stop) => Err(stop),
    }
}

/// The statements of a text, which begins at this offset of the file.
fn read_piece(alloc: Global, at: usize, text: &str) -> Result<Vec<Statement>, BindStop>
    ensures { Binds (λ all. seen all.items) result (read_block (record { at = at; text = text.now })) }
{
    match read_sql(alloc, text) {
        Ok(statements) => Ok(statements),
        Err(error) => match error.kind {
            SqlErrorKind::NoMemory => Err(BindStop::Memory),
            kind => Err(refused(offset_in(at, error.offset), BindErrorKind::Sql(kind))),
        },
    }
}
