//! Teardowns, which are read and not run.

ghost use Rattle.std.specs.Prelude.{◌≡◌, ◌++◌, map, IfOk};
ghost use Rattle.std.specs.List.{flat_map};
ghost use Rattle.spec_reader.specs.Views.{option_tree, session_tree};
ghost use Rattle.spec_reader.specs.Whole.{spec_tree};
ghost use Rattle.spec_checks.specs.Idle.{place_of, session_teardowns, teardowns};

use spec_reader::{Block, Session, SpecText};
use std::alloc::{AllocError, Global};

/// Where the blocks of teardowns begin.
pub(crate) fn teardowns(alloc: Global, text: &SpecText) -> Result<Vec<usize>, AllocError>
    ensures { IfOk result (λ all. all.items ≡ teardowns (spec_tree text.now)) }
{
    let mut all = Vec::new(alloc);
    push_teardown(&text.front.teardown, &mut all)?;
    push_sessions(&text.sessions, &mut all)?;
    Ok(all)
}

fn push_sessions(sessions: &[Session], all: &mut Vec<usize>) -> Result<(), AllocError>
    ensures { IfOk result (λ _. all.new.items ≡ all.old.items ++ flat_map session_teardowns (map session_tree sessions.now)) }
{
    for session in sessions {
        push_session(session, all)?;
    }
    Ok(())
}

fn push_session(session: &Session, all: &mut Vec<usize>) -> Result<(), AllocError>
    ensures { IfOk result (λ _. all.new.items ≡ all.old.items ++ session_teardowns (session_tree session.now)) }
{
    push_teardown(&session.head.teardown, all)?;
    push_teardown(&session.teardown, all)
}

fn push_teardown(teardown: &Option<Block>, all: &mut Vec<usize>) -> Result<(), AllocError>
    ensures { IfOk result (λ _. all.new.items ≡ all.old.items ++ place_of (option_tree teardown.now)) }
{
    if let Some(block) = teardown {
        all.push(block.at)?;
    }
    Ok(())
}
