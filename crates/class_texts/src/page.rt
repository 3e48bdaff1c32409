//! What a page of classes is made of.

use crate::expected::Expected;
use crate::kind::ClassKind;
use crate::looks::Looked;
use binding_model::Table;
use class_stretches::{Missing, RankRun};
use lock_modes::Text;
use order_classes::{ClassRow, Totals};
use spec_levels::Levels;
use sqlite_items::Items;
use std::marker::Model;

/// What a page of classes is made of. Sessions and steps stand at their numbers, from 0.
#[derive(Drop)]
pub struct Page<'a> {
    /// The path that the spec is told to lie at.
    pub path: &'a str,
    /// How many orders the spec has.
    pub orders: u64,
    /// All permutations are counted, and not those orders alone that clients can send.
    pub all_orders: bool,
    /// The seed by which the orders were drawn, where they are a sample.
    pub sample: Option<u64>,
    /// The names of the sessions.
    pub sessions: &'a [Text],
    /// The names of the steps, over all sessions.
    pub steps: &'a [Text],
    /// The tables that the spec declares.
    pub tables: &'a [Table],
    /// By what the orders are grouped.
    pub by: ClassKind,
    /// The orders of the page are not all that the spec has.
    pub is_filtered: bool,
    /// The filters by which they are not, as words; empty where there are none.
    pub filters: &'a str,
    /// The orders that are missing, where any are.
    pub missing: Option<Missing>,
    /// Under which level the spec stands.
    pub levels: &'a Levels,
    /// What is expected of the orders.
    pub expectations: &'a [Expected<'a>],
    /// How many orders and classes show what. Those of the page are `totals.all`.
    pub totals: Totals,
    /// The classes in the order in which they stand on the page.
    pub rows: &'a [ClassRow],
    /// The totals alone.
    pub is_brief: bool,
    /// With the ranks of each class.
    pub with_ranks: bool,
    /// The ranks of the classes, in the order of the rows.
    pub ranks: &'a [Items<RankRun>],
    /// With what the first order of each class tells each session.
    pub with_outcomes: bool,
    /// With the final rows of each class.
    pub with_left: bool,
    /// What queries see of the final rows of each class.
    pub looks: &'a [Looked<'a>],
}

impl<'a> Model for Page<'a> {
    ghost use Rattle.std.specs.Coded.{codes};
    ghost use Rattle.lock_modes.specs.contracts.value.Value as value;
    ghost use Rattle.events.specs.contracts.event.Event as event;
    ghost use Rattle.binding_model.specs.contracts.tables.Table as table;
    ghost use Rattle.class_stretches.specs.contracts.rank_run.RankRun as run;
    ghost use Rattle.order_classes.specs.contracts.rows.ClassRow as row;
    ghost use Rattle.class_texts.specs.Pages as pages;

    ghost Value = { pages.Page };

    ghost coded = { Prim.hlevel (codes, value.the_row.coded, event.the_row.coded, table.the_row.coded, run.the_row.coded, row.the_row.coded) };

    ghost view = { λ p. record {
      path = p.path.now;
      orders = p.orders;
      all_orders = p.all_orders;
      sample = p.sample;
      sessions = p.sessions.now;
      steps = p.steps.now;
      tables = p.tables.now;
      by = p.by;
      is_filtered = p.is_filtered;
      filters = p.filters.now;
      missing = p.missing;
      level = p.levels.now.asked;
      other_lines = p.levels.now.other_lines.items;
      expectations = p.expectations.now;
      totals = p.totals;
      rows = p.rows.now;
      is_brief = p.is_brief;
      with_ranks = p.with_ranks;
      ranks = p.ranks.now;
      with_outcomes = p.with_outcomes;
      with_left = p.with_left;
      looks = p.looks.now;
    } };
}
