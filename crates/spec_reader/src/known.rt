//! The sessions and steps that are read so far, and their names for look-ups.

ghost use Rattle.std.specs.Prelude.{◌≡◌, ◌∷◌, ◌++◌, [], map, IfOk, OnOk};
ghost use Rattle.spec_reader.specs.Names.{is_among, names_in, step_names, session_names, HaveSame};
ghost use Rattle.spec_reader.specs.Views.{step_tree, session_tree};

use crate::name_set::NameSet;
use crate::tree::{Session, Step};
use std::alloc::{AllocError, Global};
use std::marker::Model;

/// The steps of a session so far, seen by contracts as their list.
pub struct KnownSteps {
    each: Vec<Step>,
    names: NameSet,
}

// Written out and not derived, so that who owns one calls this and does not let its parts go one by one.
impl Drop for KnownSteps {
    fn drop(self) {
        let KnownSteps {
            each: _each,
            names: _names,
        } = self;
    }
}

impl Model for KnownSteps {
    ghost use Rattle.std.specs.Prelude.{List, map};
    ghost use Rattle.spec_reader.specs.Tree.{StepTree};
    ghost use Rattle.spec_reader.specs.Names.{names_in, HaveSame};
    ghost use Rattle.spec_reader.specs.Views.{step_tree};

    ghost Value = { List StepTree };

    ghost view = { λ s. map step_tree s.each.items };

    ghost invariant = { λ s. HaveSame (names_in (map step_tree s.each.items)) s.names };
}

impl KnownSteps {
    pub fn new(alloc: Global) -> KnownSteps
        ensures { result ≡ [] }
    {
        KnownSteps {
            each: Vec::new(alloc),
            names: NameSet::new(alloc),
        }
    }

    /// Whether a step has this name.
    pub fn has(&self, name: &str) -> bool
        ensures { result ≡ is_among name.now (names_in self.now) }
    {
        self.names.has(name)
    }

    /// The steps and one more.
    pub fn with(self, alloc: Global, step: Step) -> Result<KnownSteps, AllocError>
        ensures { IfOk result (λ steps. steps ≡ self ++ step_tree step ∷ []) }
    {
        let KnownSteps {
            mut each,
            mut names,
        } = self;
        names.add(alloc, &step.name)?;
        each.push(step)?;
        Ok(KnownSteps { each, names })
    }

    pub fn into_vec(self) -> Vec<Step>
        ensures { map step_tree result.items ≡ self }
    {
        let KnownSteps {
            each,
            names: _names,
        } = self;
        each
    }
}

/// The sessions so far, seen by contracts as their list.
pub struct KnownSessions {
    each: Vec<Session>,
    names: NameSet,
    names_of_steps: NameSet,
}

impl Drop for KnownSessions {
    fn drop(self) {
        let KnownSessions {
            each: _each,
            names: _names,
            names_of_steps: _names_of_steps,
        } = self;
    }
}

impl Model for KnownSessions {
    ghost use Rattle.std.specs.Prelude.{List, map};
    ghost use Rattle.spec_reader.specs.Tree.{SessionTree};
    ghost use Rattle.spec_reader.specs.Names.{session_names, step_names, HaveSame};
    ghost use Rattle.spec_reader.specs.Views.{session_tree};

    ghost Value = { List SessionTree };

    ghost view = { λ s. map session_tree s.each.items };

    ghost invariant = { λ s. HaveSame (session_names (map session_tree s.each.items)) s.names × HaveSame (step_names (map session_tree s.each.items)) s.names_of_steps };
}

impl KnownSessions {
    pub fn new(alloc: Global) -> KnownSessions
        ensures { result ≡ [] }
    {
        KnownSessions {
            each: Vec::new(alloc),
            names: NameSet::new(alloc),
            names_of_steps: NameSet::new(alloc),
        }
    }

    /// Whether a session has this name.
    pub fn has(&self, name: &str) -> bool
        ensures { result ≡ is_among name.now (session_names self.now) }
    {
        self.names.has(name)
    }

    /// Whether a step of a session has this name.
    pub fn has_step(&self, name: &str) -> bool
        ensures { result ≡ is_among name.now (step_names self.now) }
    {
        self.names_of_steps.has(name)
    }

    /// The sessions and one more.
    pub fn with(self, alloc: Global, session: Session) -> Result<KnownSessions, AllocError>
        ensures { IfOk result (λ sessions. sessions ≡ self ++ session_tree session ∷ []) }
    {
        let KnownSessions {
            mut each,
            mut names,
            mut names_of_steps,
        } = self;
        names.add(alloc, &session.head.name)?;
        add_steps(alloc, &mut names_of_steps, &session.steps)?;
        each.push(session)?;
        Ok(KnownSessions {
            each,
            names,
            names_of_steps,
        })
    }

    pub fn into_vec(self) -> Vec<Session>
        ensures { map session_tree result.items ≡ self }
    {
        let KnownSessions {
            each,
            names: _names,
            names_of_steps: _names_of_steps,
        } = self;
        each
    }
}

/// Adds the names of steps.
fn add_steps(alloc: Global, names: &mut NameSet, steps: &[Step]) -> Result<(), AllocError>
    ensures { OnOk result (HaveSame (names.old ++ names_in (map step_tree steps.now)) names.new) }
{
    for step in steps {
        names.add(alloc, &step.name)?;
    }
    Ok(())
}
