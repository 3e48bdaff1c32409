//! The facts of ranks of a spec with permutation lines: each is run.

ghost use mathlib.Core.List.{IsPrefix};
ghost use Rattle.std.specs.Prelude.{◌≡◌, ◌≢◌, ◌<◌, [], IfErr, IfOk};
ghost use Rattle.bound_specs.specs.Spec.{ranks};
ghost use Rattle.machine_model.specs.Start.{start};
ghost use Rattle.session_steps.specs.Refused.{IsRefusedBy};
ghost use Rattle.step_reducer.specs.Saying.{IsTold, giving_of};
ghost use Rattle.step_reducer.specs.Lines.{IsLines, HasRun};

use crate::fact::Given;
use crate::said::{Said, SaidRun};
use bound_specs::Spec;
use known_worlds::MarkedPath;
use session_steps::StartError;
use std::alloc::{AllocError, Global};

/// Stands before a line, on a path of the line before it.
#[derive(Drop)]
pub(crate) struct LineWalk<'a> {
    pub(crate) path: MarkedPath<'a>,
    pub(crate) at: u64,
}

impl<'a> LineWalk<'a> {
    pub(crate) fn start(
        alloc: Global,
        spec: &'a Spec,
        first: u64,
    ) -> Result<LineWalk<'a>, StartError>
        ensures walk { IfOk result (IsLines spec.now) }
        ensures at { IfOk result (λ walk. walk.at ≡ first) }
        ensures line { IfOk result (λ walk. walk.path.line.items ≡ []) }
        ensures told { IfOk result (λ walk. walk.path.world.told ≡ []) }
        ensures refused { IfErr result (λ error. IsRefusedBy error (start spec.now.run)) }
    {
        let path = MarkedPath::start(alloc, spec)?;
        Ok(LineWalk { path, at: first })
    }
}

impl LineWalk<'_> {
    /// What is said of the next line, which is its outcome. Only the steps behind the front that it shares with the line before are
    /// sent.
    pub(crate) fn next_run(&mut self) -> Result<Given, AllocError>
        requires walk { IsLines self.old.path.world.file self.old }
        requires inside { self.old.at < ranks self.old.path.world.file.run }
        requires lines { self.old.path.world.file.run.lines ≢ [] }
        ensures given { IfOk result (λ given. HasRun self.old (giving_of self.new.path.world.told given) self.new) }
        ensures number { IfOk result (λ given. IsTold self.new.path.world.told given.run.said) }
        ensures front { IsPrefix self.old.path.world.told self.new.path.world.told }
    {
        let spec = self.path.spec();
        let _ranks = spec.ranks(); // for the proof
        let first = self.at;
        let Some(line) = spec.line(first) else {
            unreachable!()
        };
        let steps = line.len();
        let shared = self.path.go_to(line)?;
        let number = self.path.outcome()?;
        let sent = (steps - shared) as u8;
        self.at = first + 1;
        Ok(Given {
            run: SaidRun {
                first,
                end: first + 1,
                said: Said::Ran(number),
            },
            sent,
        })
    }
}
