ghost use Rattle.std.specs.Prelude.{◌≡◌, ◌≢◌, ◌+◌, ◌<◌, ◌≤◌, ◌↔◌, [], ◌∷◌, length, get_or, All, IsTrue, None, IsSome, IfSome, MatchOption};
ghost use Rattle.perm_ranks.specs.declared.TheConstants.{MAX_SESSIONS};
ghost use Rattle.bound_specs.specs.Spec.{no_step, counts_of, queues_of, ranks, line_of, AllHaveKeys, AllAreShort, IsBound, IsReady};
ghost use Rattle.bound_statements.specs.Plan.{HasKeys, IsShort};
ghost use Rattle.bound_specs.specs.Binding.{IsFileAt, IsFileOf};
ghost use Rattle.bound_specs.specs.Levels.{AskAlways};
ghost use Rattle.bound_specs.specs.Walking.{steps_from};
ghost use Rattle.bound_specs.specs.Views.{file_of as file_of_parts, IsKept as IsKeptBy};

use crate::block::{Block, Step};
use crate::orders::{Line, Orders, copied};
use crate::walking::{line_of_word, step_from};
use bound_statements::{Bound, Level};
use lock_modes::Text;
use perm_ranks::Shape;
use std::marker::Model;

/// What a spec is made of: its text, its names, how many sessions it has, what they send in which orders, and at which levels.
pub struct Parts {
    pub text: String,
    pub session_names: Vec<Text>,
    pub step_names: Vec<Text>,
    pub sessions: u8,
    pub steps: Vec<Step>,
    pub setups: Vec<Block>,
    pub session_setups: Vec<Block>,
    pub orders: Orders,
    /// The level that is asked for where a transaction names none. None where levels are not asked for.
    pub levels: Option<Level>,
}

// Written out and not derived, so that who owns one calls this and does not let its parts go one by one.
impl Drop for Parts {
    fn drop(self) {
        let Parts {
            text: _text,
            session_names: _session_names,
            step_names: _step_names,
            sessions: _,
            steps: _steps,
            setups: _setups,
            session_setups: _session_setups,
            orders: _orders,
            levels: _,
        } = self;
    }
}

/// A spec: its text, its names, what its setups and steps send, and in which orders.
pub struct Spec {
    parts: Parts,
}

// Written out and not derived, so that who owns one calls this and does not let its parts go one by one.
impl Drop for Spec {
    fn drop(self) {
        let Spec { parts: _parts } = self;
    }
}

impl Model for Spec {
    ghost use Rattle.std.specs.Coded.{codes};
    ghost use Rattle.bound_specs.specs.Spec.{SpecFile};
    ghost use Rattle.bound_statements.specs.contracts.statement.Bound as bound;

    ghost Value = { SpecFile };

    ghost coded = { Prim.hlevel (codes, bound.the_row.coded) };

    ghost use Rattle.bound_specs.specs.Views.{file_of, IsKept};

    ghost view = { λ s. file_of s.parts };

    ghost invariant = { λ s. IsKept s.parts };
}

impl Spec {
    /// The spec of these parts, of which it is known that the text binds to them.
    pub fn from_parts(parts: Parts) -> Spec
        requires { IsKeptBy parts }
        ensures { result ≡ file_of_parts parts }
    {
        Spec { parts }
    }

    /// What every spec keeps: it is what its text binds to where its level is asked for, or none.
    pub fn known(&self)
        ensures at { IsFileAt self.now.text self.now }
        ensures of { self.now.asked ≡ None → IsFileOf self.now.text self.now }
        // Where levels are not asked for, each statement asks for its whole plan.
        ensures always { self.now.asked ≡ None → AskAlways self.now.run }
    {
        let _text = &self.parts.text; // for the proof
    }

    /// What every spec keeps: it is ready to be run.
    pub fn ready(&self)
        ensures { IsReady self.now }
    {
        let _text = &self.parts.text; // for the proof
    }

    /// The level that is asked for where a transaction names none. None where levels are not asked for.
    pub fn levels(&self) -> Option<Level>
        ensures { result ≡ self.now.asked }
    {
        self.parts.levels
    }

    /// The text of the file.
    pub fn text(&self) -> &str
        ensures { result.now ≡ self.now.text }
    {
        self.parts.text.as_str()
    }

    /// How many sessions the file has, from 1 to 6. They are numbered from 0 in its order.
    pub fn sessions(&self) -> u8
        ensures count { result ≡ self.now.run.sessions }
        ensures few { result ≤ MAX_SESSIONS }
        ensures bound { IsBound self.now.run }
    {
        self.parts.sessions
    }

    /// How many steps the file has, up to 255. They are numbered from 0 in its order, over all sessions.
    pub fn steps(&self) -> u8
        ensures count { result ≡ length self.now.run.steps }
    {
        self.parts.steps.len() as u8
    }

    /// The number of the session that sends a step.
    pub fn session_of(&self, step: u8) -> u8
        requires { step < length self.now.run.steps }
        ensures is { result ≡ (get_or self.now.run.steps step no_step).session }
        ensures known { result < self.now.run.sessions }
    {
        self.parts.steps[step as usize].session()
    }

    /// The first step of a session from this number on, if it has one there.
    pub fn step_from(&self, session: u8, from: u8) -> Option<u8>
        ensures next { MatchOption result
            (steps_from session from self.now.run.steps ≡ [])
            (λ k. steps_from session from self.now.run.steps ≡ k ∷ steps_from session (k + 1) self.now.run.steps) }
        ensures known { IfSome result (λ k. k < length self.now.run.steps) }
    {
        step_from(&self.parts.steps, session, from)
    }

    /// The name of a session as the file writes it, with each doubled quote once.
    pub fn session_name(&self, session: u8) -> &str
        requires { session < self.now.run.sessions }
        ensures { result.now ≡ get_or self.now.session_names session [] }
    {
        self.parts.session_names[session as usize].as_str()
    }

    /// The name of a step as the file writes it, with each doubled quote once.
    pub fn step_name(&self, step: u8) -> &str
        requires { step < length self.now.run.steps }
        ensures { result.now ≡ get_or self.now.step_names step [] }
    {
        self.parts.step_names[step as usize].as_str()
    }

    /// The names of the sessions, in the order of the file.
    pub fn session_names(&self) -> &[Text]
        ensures are { result.now ≡ self.now.session_names }
        ensures each { length result.now ≡ self.now.run.sessions }
    {
        self.parts.session_names.as_slice()
    }

    /// The names of the steps, in the order of the file.
    pub fn step_names(&self) -> &[Text]
        ensures are { result.now ≡ self.now.step_names }
        ensures each { length result.now ≡ length self.now.run.steps }
    {
        self.parts.step_names.as_slice()
    }

    /// The statements that a step sends, in order.
    pub fn statements(&self, step: u8) -> &[Bound]
        requires { step < length self.now.run.steps }
        ensures are { result.now ≡ (get_or self.now.run.steps step no_step).statements }
        ensures keys { All HasKeys result.now }
        ensures short { All IsShort result.now }
    {
        self.parts.steps[step as usize].statements()
    }

    /// The main setup blocks, in the order of the file, which run once at the start.
    pub fn setups(&self) -> &[Block]
        ensures are { result.now ≡ self.now.run.setups }
        ensures keys { AllHaveKeys result.now }
        ensures short { AllAreShort result.now }
    {
        self.parts.setups.as_slice()
    }

    /// For each session its setup, which runs at the start behind the main setups. It has no statements where the file gives none.
    pub fn session_setups(&self) -> &[Block]
        ensures are { result.now ≡ self.now.run.session_setups }
        ensures each { length result.now ≡ self.now.run.sessions }
        ensures keys { AllHaveKeys result.now }
        ensures short { AllAreShort result.now }
    {
        self.parts.session_setups.as_slice()
    }

    /// Whether the file has permutation lines. If not, its orders are all words of its shape.
    pub fn has_lines(&self) -> bool
        ensures { IsTrue result ↔ (self.now.run.lines ≢ []) }
    {
        matches!(self.parts.orders, Orders::Lines(_))
    }

    /// How many steps each session has, where the orders are all words of them. None where the file has permutation lines.
    pub fn shape(&self) -> Option<&Shape>
        ensures words { IsSome result ↔ (self.now.run.lines ≡ []) }
        ensures counts { IfSome result (λ shape. shape.now ≡ counts_of (queues_of self.now.run)) }
    {
        match &self.parts.orders {
            Orders::Words(shape) => Some(shape),
            Orders::Lines(_) => None,
        }
    }

    /// How many permutations there are: the permutation lines, or else the words. Their ranks are the numbers below.
    pub fn ranks(&self) -> u64
        ensures { result ≡ ranks self.now.run }
    {
        match &self.parts.orders {
            Orders::Words(shape) => shape.count(),
            Orders::Lines(lines) => lines.len() as u64,
        }
    }

    /// The steps of the permutation with this rank, in the order in which they are sent. None from `ranks` on.
    pub fn line(&self, rank: u64) -> Option<Line>
        ensures some { IsSome result ↔ (rank < ranks self.now.run) }
        ensures line { IfSome result (λ line. line.items ≡ line_of self.now.run rank) }
        ensures known { IfSome result (λ line. All (λ k. k < length self.now.run.steps) line.items) }
    {
        match &self.parts.orders {
            Orders::Words(shape) => {
                let word = shape.unrank(rank)?;
                Some(line_of_word(&self.parts.steps, self.parts.sessions, &word))
            }
            Orders::Lines(lines) => {
                if rank >= lines.len() as u64 {
                    return None;
                }
                Some(copied(&lines[rank as usize]))
            }
        }
    }
}
