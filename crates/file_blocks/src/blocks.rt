//! Blocks, and where they stand.

ghost use Rattle.std.specs.Prelude.{◌≡◌, ◌++◌, [], ◌∷◌, map, IfOk};
ghost use Rattle.std.specs.List.{flat_map};
ghost use Rattle.std.specs.Option.{option_to_list};
ghost use Rattle.spec_reader.specs.Views.{block_tree, option_tree, session_tree, step_tree};
ghost use Rattle.spec_reader.specs.Whole.{spec_tree};
ghost use Rattle.file_blocks.specs.Blocks.{sent_in, sent_tree, sent_blocks, session_blocks};

use spec_reader::{Block, Session, SpecText, Step};
use std::alloc::{AllocError, Global};

/// Where a block stands.
#[derive(Clone, Copy)]
pub enum Role {
    /// In the main setups, where tables are declared.
    Setup,
    /// In a session, as its setup or one of its steps.
    Session,
}

/// A block that is sent.
#[derive(Clone, Copy)]
pub struct SentBlock<'a> {
    pub role: Role,
    pub block: &'a Block,
}

/// The blocks of a file that are sent, in the order of the file.
pub fn sent_blocks(alloc: Global, text: &SpecText) -> Result<Vec<SentBlock<'_>>, AllocError>
    ensures { IfOk result (λ all. map sent_tree all.items ≡ sent_blocks (spec_tree text.now)) }
{
    let mut all = Vec::new(alloc);
    push_setups(&text.front.setups, &mut all)?;
    push_sessions(&text.sessions, &mut all)?;
    Ok(all)
}

fn push_setups<'a>(blocks: &'a [Block], all: &mut Vec<SentBlock<'a>>) -> Result<(), AllocError>
    ensures { IfOk result (λ _. map sent_tree all.new.items ≡ map sent_tree all.old.items ++ map (sent_in Role.Setup) (map block_tree blocks.now)) }
{
    for block in blocks {
        all.push(SentBlock {
            role: Role::Setup,
            block,
        })?;
    }
    Ok(())
}

fn push_sessions<'a>(
    sessions: &'a [Session],
    all: &mut Vec<SentBlock<'a>>,
) -> Result<(), AllocError>
    ensures { IfOk result (λ _. map sent_tree all.new.items ≡ map sent_tree all.old.items ++ flat_map session_blocks (map session_tree sessions.now)) }
{
    for session in sessions {
        push_session(session, all)?;
    }
    Ok(())
}

fn push_session<'a>(session: &'a Session, all: &mut Vec<SentBlock<'a>>) -> Result<(), AllocError>
    ensures { IfOk result (λ _. map sent_tree all.new.items ≡ map sent_tree all.old.items ++ session_blocks (session_tree session.now)) }
{
    push_setup(&session.head.setup, all)?;
    push_steps(&session.steps, all)
}

fn push_setup<'a>(setup: &'a Option<Block>, all: &mut Vec<SentBlock<'a>>) -> Result<(), AllocError>
    ensures { IfOk result (λ _. map sent_tree all.new.items ≡ map sent_tree all.old.items ++ map (sent_in Role.Session) (option_to_list (option_tree setup.now))) }
{
    if let Some(block) = setup {
        all.push(SentBlock {
            role: Role::Session,
            block,
        })?;
    }
    Ok(())
}

fn push_steps<'a>(steps: &'a [Step], all: &mut Vec<SentBlock<'a>>) -> Result<(), AllocError>
    ensures { IfOk result (λ _. map sent_tree all.new.items ≡ map sent_tree all.old.items ++ map (λ t. sent_in Role.Session t.block) (map step_tree steps.now)) }
{
    for step in steps {
        all.push(SentBlock {
            role: Role::Session,
            block: &step.block,
        })?;
    }
    Ok(())
}
