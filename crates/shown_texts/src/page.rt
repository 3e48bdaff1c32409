//! What a page is made of.

use line_moments::Shown;
use lock_modes::Text;
use spec_levels::Levels;
use std::marker::Model;

/// What a page is made of. Sessions and steps stand at their numbers, from 0.
#[derive(Drop)]
pub struct Page<'a> {
    /// The path of the spec file.
    pub path: &'a str,
    pub rank: u64,
    /// How many orders there are.
    pub orders: u64,
    /// The names of the sessions.
    pub sessions: &'a [Text],
    /// The names of the steps, over all sessions.
    pub steps: &'a [Text],
    /// The statements of each step, on one line.
    pub statements: &'a [Text],
    /// Under which level the spec stands.
    pub levels: &'a Levels,
    /// What is shown of the order.
    pub shown: &'a Shown,
}

impl<'a> Model for Page<'a> {
    ghost use Rattle.std.specs.Coded.{codes};
    ghost use Rattle.line_moments.specs.contracts.shown.Shown as line;
    ghost use Rattle.shown_texts.specs.Pages as pages;

    ghost Value = { pages.Page };

    ghost coded = { Prim.hlevel (codes, line.the_row.coded) };

    ghost view = { λ p. record {
      path = p.path.now;
      rank = p.rank;
      orders = p.orders;
      sessions = p.sessions.now;
      steps = p.steps.now;
      statements = p.statements.now;
      level = p.levels.now.asked;
      other_lines = p.levels.now.other_lines.items;
      shown = p.shown.now;
    } };
}
