//! The text of classes, and what is found of what is expected.

ghost use Rattle.std.specs.Prelude.{◌≡◌, IfOk, map};
ghost use Rattle.std.specs.List.{list_all};
ghost use Rattle.class_texts.specs.Expected.{is_met};
ghost use Rattle.class_commands.specs.Classing.{IsFinding, expectation_over, has_some, look_over, seed_of, seen_of};
ghost use Rattle.class_commands.specs.Parts.{IsTextOf, finding_by};
ghost use Rattle.class_commands.specs.Written.{written_bytes};
ghost use Rattle.class_commands.specs.Opened.{HasOrders};

use crate::classing::grouping;
use crate::filters::filters_text;
use crate::opened::written_as;
use crate::written::Written;
use asked_classes::{AskedClasses, AskedExpectation, AskedLook};
use binding_model::Table;
use book_commands::Finding;
use bound_specs::Spec;
use class_looks::Look;
use class_rows::Classed;
use class_texts::{ClassKind, Expected, Looked, Page, one_row_is_met};
use events::Event;
use order_classes::{ClassRow, Filter};
use spec_levels::Levels;
use std::alloc::{AllocError, Global};
use wanted_classes::{WantedClasses, WantedSample};

/// What is written of what is found, with these orders where the form has any, and whether all is as expected.
pub(crate) fn told<'a>(
    alloc: Global,
    spec: &Spec,
    path: &str,
    tables: &[Table],
    levels: &Levels,
    wanted: &WantedClasses<'a>,
    asked: &AskedClasses<'a>,
    found: &Classed,
    orders: &[u8],
) -> Result<(Written, Finding), AllocError>
    requires { HasOrders wanted.now.form spec.now.text path.now spec.now found.now.rows.items orders.now }
    ensures text { IfOk result (λ x. IsTextOf path.now spec.now tables.now levels.now wanted.now asked.now found.now (written_bytes x.0)) }
    ensures finding { IfOk result (λ x. IsFinding found.now.rows.items asked.now.expectations.items x.1) }
{
    one_row_is_met();
    let rows = found.rows.as_slice();
    let looks = looks_over(alloc, asked.looks.as_slice(), rows)?;
    let expectations = expectations_over(alloc, asked.expectations.as_slice(), rows)?;
    let wanted_filters = wanted.all_filters(alloc)?;
    let filters = filters_text(alloc, wanted_filters.as_slice())?;
    let page = Page {
        path,
        orders: found.orders,
        all_orders: wanted.all_orders,
        sample: seed_of(wanted.sample),
        sessions: spec.session_names(),
        steps: spec.step_names(),
        tables,
        by: ClassKind::of(grouping(wanted.by_result)),
        is_filtered: has_some(asked.filters.as_slice()),
        filters: filters.as_str(),
        missing: None,
        levels,
        expectations: expectations.as_slice(),
        totals: found.totals,
        rows,
        is_brief: wanted.brief,
        with_ranks: false,
        ranks: &[],
        with_outcomes: wanted.outcomes,
        with_left: wanted.final_rows,
        looks: looks.as_slice(),
    };
    let written = written_as(alloc, spec, &page, wanted.form, orders)?;
    Ok((written, finding_of(expectations.as_slice())))
}

fn seed_of(sample: Option<WantedSample>) -> Option<u64>
    ensures { result ≡ seed_of sample }
{
    match sample {
        None => None,
        Some(sample) => Some(sample.seed),
    }
}

fn has_some(filters: &[Filter]) -> bool
    ensures { result ≡ has_some filters.now }
{
    match filters {
        [] => false,
        [_, ..] => true,
    }
}

/// What each look sees of what each class leaves.
fn looks_over<'p>(
    alloc: Global,
    asked: &'p [AskedLook<'_>],
    rows: &[ClassRow],
) -> Result<Vec<Looked<'p>>, AllocError>
    ensures { IfOk result (λ looks. looks.items ≡ map (look_over rows.now) asked.now) }
{
    let mut looks = Vec::with_capacity(alloc, asked.len())?;
    for look in asked {
        let seen = seen_over(alloc, &look.look, rows)?;
        looks.push(Looked {
            text: look.text,
            seen,
        })?;
    }
    Ok(looks)
}

/// What is expected, with what each look sees of what each class leaves.
fn expectations_over<'p>(
    alloc: Global,
    asked: &'p [AskedExpectation<'_>],
    rows: &[ClassRow],
) -> Result<Vec<Expected<'p>>, AllocError>
    ensures { IfOk result (λ expectations. expectations.items ≡ map (expectation_over rows.now) asked.now) }
{
    let mut expectations = Vec::with_capacity(alloc, asked.len())?;
    for expectation in asked {
        let seen = seen_over(alloc, &expectation.look, rows)?;
        expectations.push(Expected {
            text: expectation.text,
            values: expectation.values.as_slice(),
            seen,
        })?;
    }
    Ok(expectations)
}

/// What a look sees of what each class leaves.
fn seen_over(alloc: Global, look: &Look, rows: &[ClassRow]) -> Result<Vec<Vec<Event>>, AllocError>
    ensures { IfOk result (λ seen. map (λ v. v.items) seen.items ≡ map (seen_of look.now) rows.now) }
{
    let mut seen = Vec::with_capacity(alloc, rows.len())?;
    for row in rows {
        let events = look.seen(alloc, row.shows.left.as_slice())?;
        seen.push(events)?;
    }
    Ok(seen)
}

/// It is bad where some expectation is not met in some class.
fn finding_of(expectations: &[Expected<'_>]) -> Finding
    ensures { result ≡ finding_by expectations.now }
{
    if are_met(expectations) {
        Finding::Good
    } else {
        Finding::Bad
    }
}

fn are_met(expectations: &[Expected<'_>]) -> bool
    ensures { result ≡ list_all is_met expectations.now }
{
    expectations
        .iter()
        .all(|expected: &Expected<'_>| expected.is_met())
}
