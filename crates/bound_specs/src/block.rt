ghost use Rattle.std.specs.Prelude.{◌≡◌, IfOk};
ghost use Rattle.bound_specs.specs.Levels.{levelled_block, levelled_step};

use bound_statements::{Bound, Level};
use std::alloc::{AllocError, Global};
use std::marker::Model;

/// The statements of a setup or a step in their order, seen by contracts as their list.
pub struct Block {
    statements: Vec<Bound>,
}

// Written out and not derived, so that who owns one calls this and does not let its parts go one by one.
impl Drop for Block {
    fn drop(self) {
        let Block {
            statements: _statements,
        } = self;
    }
}

impl Model for Block {
    ghost use Rattle.std.specs.Prelude.{List};
    ghost use Rattle.std.specs.Coded.{codes};
    ghost use Rattle.bound_statements.specs.declared.statement.Bound.{Bound as One};
    ghost use Rattle.bound_statements.specs.contracts.statement.Bound as bound;

    ghost Value = { List One };

    ghost coded = { Prim.hlevel (codes, bound.the_row.coded) };

    ghost view = { λ b. b.statements.items };
}

impl Block {
    /// The block of these statements.
    pub fn from_statements(statements: Vec<Bound>) -> Block
        ensures { result ≡ statements.items }
    {
        Block { statements }
    }

    pub fn statements(&self) -> &[Bound]
        ensures { result.now ≡ self.now }
    {
        self.statements.as_slice()
    }

    /// The block of statements as they are written, where this level is asked for, or none.
    pub fn levelled(self, alloc: Global, asked: Option<Level>) -> Result<Block, AllocError>
        ensures { IfOk result (λ block. block ≡ levelled_block asked self) }
    {
        let Block { statements } = self;
        let mut all = Vec::new(alloc);
        for statement in statements {
            all.push(statement.levelled(asked))?;
        }
        Ok(Block { statements: all })
    }
}

/// A step of the file: the number of the session that sends it, and what it sends.
pub struct Step {
    session: u8,
    block: Block,
}

impl Drop for Step {
    fn drop(self) {
        let Step {
            session: _,
            block: _block,
        } = self;
    }
}

impl Model for Step {
    ghost use Rattle.std.specs.Coded.{codes};
    ghost use Rattle.bound_specs.specs.Spec.{Step as OfSpec};
    ghost use Rattle.bound_statements.specs.contracts.statement.Bound as bound;

    ghost Value = { OfSpec };

    ghost coded = { Prim.hlevel (codes, bound.the_row.coded) };

    ghost view = { λ s. record { session = s.session; statements = s.block } };
}

impl Step {
    /// The step of a session that sends a block.
    pub fn new(session: u8, block: Block) -> Step
        ensures { result ≡ record { session = session; statements = block } }
    {
        Step { session, block }
    }

    /// The step of statements as they are written, where this level is asked for, or none.
    pub fn levelled(self, alloc: Global, asked: Option<Level>) -> Result<Step, AllocError>
        ensures { IfOk result (λ step. step ≡ levelled_step asked self) }
    {
        let Step { session, block } = self;
        let block = block.levelled(alloc, asked)?;
        Ok(Step { session, block })
    }

    pub(crate) fn session(&self) -> u8
        ensures { result ≡ self.now.session }
    {
        self.session
    }

    pub(crate) fn statements(&self) -> &[Bound]
        ensures { result.now ≡ self.now.statements }
    {
        self.block.statements()
    }
}
