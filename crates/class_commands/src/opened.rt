//! Pages of classes that a browser opens: between parts that are the same on each, what `classes` and `show` write as JSON.

ghost use Rattle.std.specs.Prelude.{◌≡◌, ◌<◌, ◌++◌, ℕ, List, All, IfErr, IfOk, OnOk, take};
ghost use Rattle.bound_specs.specs.Spec.{ranks};
ghost use Rattle.machine_model.specs.Start.{start};
ghost use Rattle.order_classes.specs.declared.rows.ClassRow.{ClassRow};
ghost use Rattle.session_machine.specs.Running.{IsNotRunBy};
ghost use Rattle.spec_levels.specs.Levels.{AreLevels};
ghost use Rattle.spec_texts.specs.Texts.{AreStepLines, Declares};
ghost use Rattle.class_commands.specs.Opened.{AreOrdersOf, HasOrders, IsPageOf, IsWrittenAs, line, order_part, page_html};
ghost use Rattle.class_commands.specs.OpenedParts.{IsPushed};
ghost use Rattle.class_commands.specs.Written.{written_bytes};

use crate::written::{Written, json_of, written_page, written_record};
use binding_model::Table;
use bound_specs::Spec;
use class_texts::Page;
use lock_modes::Text;
use order_classes::ClassRow;
use page_texts::Part;
use session_machine::RunError;
use spec_commands::order_json;
use spec_levels::Levels;
use spec_texts::statement_texts;
use std::alloc::{AllocError, Global};
use wanted_classes::WantedForm;

/// Of how many classes a page has the least order, at most: of the first ones.
pub const MAX_SHOWN: usize = 1_000;

/// The orders that a page of these classes has in this form, as they stand there. Of the refusals only `Start` and `NoMemory` come.
pub(crate) fn orders_for(
    alloc: Global,
    spec: &Spec,
    tables: &[Table],
    levels: &Levels,
    path: &str,
    form: WantedForm,
    rows: &[ClassRow],
) -> Result<Vec<u8>, RunError>
    requires ranks { All (λ (row : ClassRow). row.least < ranks spec.now.run) rows.now }
    requires tables { Declares spec.now.text spec.now tables.now }
    requires levels { AreLevels spec.now.text spec.now levels.now }
    ensures orders { IfOk result (λ orders. HasOrders form spec.now.text path.now spec.now rows.now orders.items) }
    ensures refused { IfErr result (λ error. IsNotRunBy error (start spec.now.run)) }
{
    match form {
        WantedForm::Text => Ok(Vec::new(alloc)),
        WantedForm::Json => Ok(Vec::new(alloc)),
        WantedForm::Record => Ok(Vec::new(alloc)),
        WantedForm::Html => first_orders(alloc, spec, tables, levels, path, rows),
    }
}

/// The least orders of the first classes.
fn first_orders(
    alloc: Global,
    spec: &Spec,
    tables: &[Table],
    levels: &Levels,
    path: &str,
    rows: &[ClassRow],
) -> Result<Vec<u8>, RunError>
    requires ranks { All (λ (row : ClassRow). row.least < ranks spec.now.run) rows.now }
    requires tables { Declares spec.now.text spec.now tables.now }
    requires levels { AreLevels spec.now.text spec.now levels.now }
    ensures orders { IfOk result (λ orders. AreOrdersOf spec.now.text path.now spec.now (take MAX_SHOWN rows.now) orders.items) }
    ensures refused { IfErr result (λ error. IsNotRunBy error (start spec.now.run)) }
{
    let Ok(statements) = statement_texts(alloc, spec) else {
        return Err(RunError::NoMemory);
    };
    orders_of(
        alloc,
        spec,
        tables,
        &statements,
        levels,
        path,
        first_of(rows),
    )
}

/// The first classes, of which a page has orders.
fn first_of(rows: &[ClassRow]) -> &[ClassRow]
    ensures { result.now ≡ take MAX_SHOWN rows.now }
{
    if rows.len() <= MAX_SHOWN {
        return rows;
    }
    &rows[..MAX_SHOWN]
}

/// The least order of each class.
fn orders_of(
    alloc: Global,
    spec: &Spec,
    tables: &[Table],
    statements: &[Text],
    levels: &Levels,
    path: &str,
    rows: &[ClassRow],
) -> Result<Vec<u8>, RunError>
    requires ranks { All (λ (row : ClassRow). row.least < ranks spec.now.run) rows.now }
    requires tables { Declares spec.now.text spec.now tables.now }
    requires levels { AreLevels spec.now.text spec.now levels.now }
    requires statements { AreStepLines spec.now.text spec.now statements.now }
    ensures orders { IfOk result (λ orders. AreOrdersOf spec.now.text path.now spec.now rows.now orders.items) }
    ensures refused { IfErr result (λ error. IsNotRunBy error (start spec.now.run)) }
{
    let mut orders = Vec::new(alloc);
    for row in rows {
        match push_order(
            alloc,
            spec,
            tables,
            statements,
            levels,
            path,
            row.least,
            &mut orders,
        ) {
            Ok(()) => {}
            Err(error) => return Err(error),
        }
    }
    Ok(orders)
}

/// Pushes the order of a rank.
fn push_order(
    alloc: Global,
    spec: &Spec,
    tables: &[Table],
    statements: &[Text],
    levels: &Levels,
    path: &str,
    rank: u64,
    orders: &mut Vec<u8>,
) -> Result<(), RunError>
    requires rank { rank < ranks spec.now.run }
    requires tables { Declares spec.now.text spec.now tables.now }
    requires levels { AreLevels spec.now.text spec.now levels.now }
    requires statements { AreStepLines spec.now.text spec.now statements.now }
    ensures pushed { OnOk result (IsPushed spec.now.text path.now spec.now rank orders.old.items orders.new.items) }
    ensures refused { IfErr result (λ error. IsNotRunBy error (start spec.now.run)) }
{
    let json = match order_json(alloc, spec, tables, statements, levels, path, rank) {
        Ok(json) => json,
        Err(error) => return Err(error),
    };
    match push_part(&json, orders) {
        Ok(()) => Ok(()),
        Err(_) => Err(RunError::NoMemory),
    }
}

/// Pushes an order, as it stands on a page.
fn push_part(json: &[u8], orders: &mut Vec<u8>) -> Result<(), AllocError>
    ensures { OnOk result ((order : List ℕ) → json.now ≡ line order → orders.new.items ≡ orders.old.items ++ order_part order) }
{
    orders.extend_from_slice(Part::Between.text())?;
    orders.extend_from_slice(without_line_feed(json))?;
    Ok(())
}

/// A text without the line feed that ends it.
fn without_line_feed(text: &[u8]) -> &[u8]
    ensures { (front : List ℕ) → text.now ≡ line front → result.now ≡ front }
{
    match text {
        [front @ .., _] => front,
        [] => text,
    }
}

/// The page of classes in the form that is wanted, with the orders that it has.
pub(crate) fn written_as(
    alloc: Global,
    spec: &Spec,
    page: &Page<'_>,
    form: WantedForm,
    orders: &[u8],
) -> Result<Written, AllocError>
    requires { HasOrders form spec.now.text page.now.path spec.now page.now.rows orders.now }
    ensures { IfOk result (λ w. IsWrittenAs form spec.now.text spec.now page.now (written_bytes w)) }
{
    match form {
        WantedForm::Text => written_page(alloc, spec, page, false),
        WantedForm::Json => written_page(alloc, spec, page, true),
        WantedForm::Html => opened_page(alloc, spec, page, orders),
        WantedForm::Record => written_record(alloc, page),
    }
}

/// The page that a browser opens.
fn opened_page(
    alloc: Global,
    spec: &Spec,
    page: &Page<'_>,
    orders: &[u8],
) -> Result<Written, AllocError>
    requires { AreOrdersOf spec.now.text page.now.path spec.now (take MAX_SHOWN page.now.rows) orders.now }
    ensures { IfOk result (λ w. IsPageOf spec.now.text spec.now page.now (written_bytes w)) }
{
    let classes = json_of(alloc, spec, page)?;
    let bytes = html_of(alloc, without_line_feed(classes.bytes()), orders)?;
    Ok(Written::Bytes(bytes))
}

/// All parts of a page, one behind the other.
fn html_of(alloc: Global, classes: &[u8], orders: &[u8]) -> Result<Vec<u8>, AllocError>
    ensures { IfOk result (λ html. html.items ≡ page_html classes.now orders.now) }
{
    let mut html = Vec::new(alloc);
    html.extend_from_slice(Part::Front.text())?;
    html.extend_from_slice(Part::Style.text())?;
    html.extend_from_slice(Part::Middle.text())?;
    html.extend_from_slice(classes)?;
    html.extend_from_slice(orders)?;
    html.extend_from_slice(Part::BackBegin.text())?;
    html.extend_from_slice(Part::Script.text())?;
    html.extend_from_slice(Part::BackEnd.text())?;
    Ok(html)
}
