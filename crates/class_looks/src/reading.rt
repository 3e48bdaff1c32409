//! Reads a look: one SELECT alone, bound over the tables.

ghost use Rattle.std.specs.Prelude.{◌≡◌, IfOk};
ghost use Rattle.sql_grammar.specs.Text.{seen};
ghost use Rattle.sql_grammar.specs.Views.{view_form};
ghost use Rattle.bound_specs.specs.Binding.{read_text};
ghost use Rattle.order_classes.specs.Looks.{IsLook};
ghost use Rattle.class_looks.specs.Reading as spec;
ghost use Rattle.class_looks.specs.Reading.{Finds};

use crate::fault::LookFault;
use crate::look::Look;
use binding_model::{BindStop, Table};
use sql_grammar::{Form, SqlErrorKind, Statement};
use sql_reader::read_sql;
use statement_binding::statement;
use std::alloc::Global;

/// The look that a text is over these tables: one SELECT alone, read and bound as a statement of a step is.
pub fn look_of(alloc: Global, tables: &[Table], text: &str) -> Result<Look, LookFault>
    ensures look { Finds (λ look. look) result (spec.look_of tables.now text.now) }
    // It is a SELECT of one of the tables.
    ensures select { IfOk result (IsLook tables.now) }
{
    let statements = read(alloc, text)?;
    bound_alone(alloc, tables, &statements)
}

/// The statements of the text, which is read whole.
fn read(alloc: Global, text: &str) -> Result<Vec<Statement>, LookFault>
    ensures { Finds (λ all. seen all.items) result (spec.told_sql (read_text text.now)) }
{
    match read_sql(alloc, text) {
        Ok(statements) => Ok(statements),
        Err(error) => match error.kind {
            SqlErrorKind::NoMemory => Err(LookFault::NoMemory),
            _ => Err(LookFault::Sql(error)),
        },
    }
}

/// Binds a SELECT that is alone.
fn bound_alone(alloc: Global, tables: &[Table], statements: &[Statement]) -> Result<Look, LookFault>
    ensures { Finds (λ look. look) result (spec.bound_alone tables.now (seen statements.now)) }
{
    match statements {
        [only] => bound_one(alloc, tables, only),
        _ => Err(LookFault::NotOneSelect),
    }
}

fn bound_one(alloc: Global, tables: &[Table], only: &Statement) -> Result<Look, LookFault>
    ensures { Finds (λ look. look) result (spec.bound_one tables.now (only.now.at, view_form only.now.form)) }
{
    if !is_select(&only.form) {
        return Err(LookFault::NotOneSelect);
    }
    match statement(alloc, tables, only.at, &only.form) {
        Ok(bound) => Ok(Look::from_statement(bound)),
        Err(BindStop::Memory) => Err(LookFault::NoMemory),
        Err(BindStop::Refused(error)) => Err(LookFault::Binding(error)),
    }
}

fn is_select(form: &Form) -> bool
    ensures { result ≡ spec.is_select (view_form form.now) }
{
    match form {
        Form::Select(_) => true,
        Form::CreateTable(_)
        | Form::Insert(_)
        | Form::Update(_)
        | Form::Delete(_)
        | Form::Begin(_)
        | Form::End(_)
        | Form::Lock(_)
        | Form::Set(_) => false,
    }
}
