//! A session goes on in its step until it ends or a request waits.

ghost use Rattle.std.specs.Prelude.{◌≡◌, ◌<◌, All, IfOk, OnOk, is_some};
ghost use Rattle.bound_statements.specs.Plan.{HasKeys, IsShort};
ghost use Rattle.session_steps.specs.Going.{GoesUntil, IsToGo, WaitsIf};
ghost use Rattle.session_steps.specs.Stage.{KnowsAll, member_at, others, standing_at};

use crate::asking::{Asked, ask_all};
use crate::blocks::{fail, finish};
use crate::performing::perform;
use crate::point::{Origin, Point};
use crate::stage::Stage;
use bound_statements::Bound;
use events::Event;
use std::alloc::{AllocError, Global};

/// Goes on with statements from a request of one of them. Where a request waits, it returns the place behind it, from which the
/// session goes on once it is had. A fault ends the step.
pub(crate) fn go_on<S: Stage>(
    alloc: Global,
    stage: &mut S,
    session: u8,
    origin: Origin,
    statements: &[Bound],
    from: Point,
) -> Result<Option<Point>, AllocError>
    requires keys { All HasKeys statements.now }
    requires short { All IsShort statements.now }
    requires known { KnowsAll (S.knows (S.past stage.old) origin) statements.now }
    requires inside { session < S.count (S.past stage.old) }
    requires ready { IsToGo session (S.staged stage.old).store (S.staged stage.old).locks (member_at (S.staged stage.old) session).state.status statements.now from.statement from.request }
    ensures goes { IfOk result (GoesUntil session (standing_at session (S.staged stage.old)) statements.now from (S.staged stage.new).store
        (S.staged stage.new).locks (member_at (S.staged stage.new) session).state) }
    ensures waits { IfOk result (λ stopped. WaitsIf session (S.staged stage.old).locks (S.staged stage.new).locks (is_some stopped)) }
    ensures others { OnOk result (others session (S.staged stage.new) ≡ others session (S.staged stage.old)) }
    ensures past { S.past stage.new ≡ S.past stage.old }
{
    let mut request = from.request;
    for number in from.statement..statements.len() {
        let statement = &statements[number];
        match ask_all(stage, session, statement, origin, number, request)? {
            Asked::Had => {}
            Asked::Waits(request) => {
                stage.tell(session, Event::Waiting)?;
                return Ok(Some(Point {
                    statement: number,
                    request: request + 1,
                }));
            }
            Asked::Refused(fault) => {
                fail(stage, session, fault)?;
                return Ok(None);
            }
        }
        stage.sound();
        if let Some(fault) = perform(alloc, stage, session, statement)? {
            fail(stage, session, fault)?;
            return Ok(None);
        }
        request = 0;
    }
    finish(stage, session)?;
    Ok(None)
}
