//! Steps that do not meet.

ghost use Rattle.std.specs.Prelude.{◌≡◌, ◌<◌, ◌==◌, IsTrue, false, length, not};
ghost use Rattle.std.specs.List.{find, list_all};
ghost use Rattle.lock_modes.specs.Resource.{resource_at, same_resource};
ghost use Rattle.lock_queues.specs.declared.wait.Wait.{Wait};
ghost use Rattle.lock_queues.specs.Locks as locks;
ghost use Rattle.bound_statements.specs.Plan.{Request, request, plan, HasKeys, IsShort};
ghost use Rattle.machine_model.specs.World.{look_of};
ghost use Rattle.rank_facts.specs.Quiet as spec;
ghost use Rattle.machine_model.specs.Claims.{plans};
ghost use Rattle.rank_facts.specs.Quiet.{fit_together};
ghost use Rattle.step_reducer.specs.Pairs.{clear_of, is_quiet_in, HaveOneEnd, AreCalm, IsWhole, AreBound};

use bound_statements::{Bound, lock_plan};
use lock_modes::{Mode, Place, compatible};
use session_machine::World;

/// Whether two steps of different sessions are quiet in the world: neither session waits; each mode that one of the steps asks is
/// compatible with all modes that other sessions hold there and with each that the other step asks there; and nobody waits where
/// either session holds a mode or either step asks one. In a spent world nothing is quiet.
pub fn quiet(world: &World<'_>, step: u8, other: u8) -> bool
    requires step { step < length world.now.file.run.steps }
    requires other { other < length world.now.file.run.steps }
    ensures answer { result ≡ is_quiet_in world.now step other }
    // Sent in either order they lead to one world.
    ensures orders { IsTrue result → HaveOneEnd world.now step other }
    // Whichever is sent first, no wait is noted, and all other sessions stay as they are.
    ensures calm { IsTrue result → AreCalm world.now step other × AreCalm world.now other step }
{
    world.known();
    let _own = world.spec().session_of(step); // for the proof
    let _other = world.spec().session_of(other); // for the proof
    is_quiet(world, step, other)
}

fn is_quiet(world: &World<'_>, first: u8, second: u8) -> bool
    requires first { first < length world.now.file.run.steps }
    requires second { second < length world.now.file.run.steps }
    ensures { result ≡ is_quiet_in world.now first second }
{
    if world.spent() {
        return false;
    }
    world.known();
    let spec = world.spec();
    let i = spec.session_of(first);
    let j = spec.session_of(second);
    let asks = spec.statements(first);
    let others = spec.statements(second);
    if i == j {
        return false;
    }
    if waits(world, i) {
        return false;
    }
    if waits(world, j) {
        return false;
    }
    if !all_fit(world, i, asks) {
        return false;
    }
    if !all_fit(world, j, others) {
        return false;
    }
    if !all_fit_together(asks, others) {
        return false;
    }
    if !undisturbed(world, i, asks) {
        return false;
    }
    undisturbed(world, j, others)
}

fn waits(world: &World<'_>, session: u8) -> bool
    requires { world.now.spent ≡ false }
    ensures { result ≡ locks.waits_now world.now.world.waits session }
{
    world.wait_of(session).is_some()
}

/// Whether each request fits beside what other sessions hold.
fn all_fit(world: &World<'_>, session: u8, statements: &[Bound]) -> bool
    requires whole { IsWhole world.now }
    requires bound { AreBound statements.now }
    ensures { result ≡ spec.all_fit world.now.world session (plans statements.now) }
{
    for statement in statements {
        if !statement_fits(world, session, statement) {
            return false;
        }
    }
    true
}

fn statement_fits(world: &World<'_>, session: u8, statement: &Bound) -> bool
    requires whole { IsWhole world.now }
    requires keys { HasKeys statement.now }
    requires short { IsShort statement.now }
    ensures { result ≡ spec.all_fit world.now.world session (plan statement.now) }
{
    for number in 0..u8::MAX {
        let Some((place, mode)) = lock_plan(statement, number) else {
            return true;
        };
        if !fits(world, session, place, mode) {
            return false;
        }
    }
    true
}

/// Whether the mode is compatible with every other session's there.
fn fits(world: &World<'_>, session: u8, place: Place<'_>, mode: Mode) -> bool
    requires whole { IsWhole world.now }
    ensures { result ≡ locks.fits (length world.now.world.sessions) (look_of world.now.world) session (resource_at place.entry) mode }
{
    for other in 0..world.spec().sessions() + 1 {
        if other != session && !fits_with(mode, world.holds(other, place)) {
            return false;
        }
    }
    true
}

fn fits_with(mode: Mode, held: Option<Mode>) -> bool
    ensures { result ≡ locks.fits_with mode held }
{
    match held {
        None => true,
        Some(held) => compatible(mode, held),
    }
}

/// Whether each request of the one is compatible with each of the other there.
fn all_fit_together(statements: &[Bound], others: &[Bound]) -> bool
    requires bound { AreBound statements.now }
    requires others { AreBound others.now }
    ensures { result ≡ spec.all_fit_together (plans statements.now) (plans others.now) }
{
    for statement in statements {
        if !statement_fits_beside(statement, others) {
            return false;
        }
    }
    true
}

fn statement_fits_beside(statement: &Bound, others: &[Bound]) -> bool
    requires keys { HasKeys statement.now }
    requires short { IsShort statement.now }
    requires others { AreBound others.now }
    ensures { result ≡ spec.all_fit_together (plan statement.now) (plans others.now) }
{
    for number in 0..u8::MAX {
        let Some((place, mode)) = lock_plan(statement, number) else {
            return true;
        };
        if !request_fits(place, mode, others) {
            return false;
        }
    }
    true
}

fn request_fits(place: Place<'_>, mode: Mode, others: &[Bound]) -> bool
    requires { AreBound others.now }
    ensures { result ≡ list_all (fit_together (request (resource_at place.entry) mode)) (plans others.now) }
{
    for statement in others {
        if !request_fits_one(place, mode, statement) {
            return false;
        }
    }
    true
}

fn request_fits_one(place: Place<'_>, mode: Mode, statement: &Bound) -> bool
    requires keys { HasKeys statement.now }
    requires short { IsShort statement.now }
    ensures { result ≡ list_all (fit_together (request (resource_at place.entry) mode)) (plan statement.now) }
{
    for number in 0..u8::MAX {
        let Some((there, asked)) = lock_plan(statement, number) else {
            return true;
        };
        if is_same(place, there) && !compatible(mode, asked) {
            return false;
        }
    }
    true
}

/// Whether nobody waits where the session holds a mode or the statements ask one.
fn undisturbed(world: &World<'_>, session: u8, statements: &[Bound]) -> bool
    requires whole { IsWhole world.now }
    requires bound { AreBound statements.now }
    ensures { result ≡ spec.undisturbed world.now.world session (plans statements.now) }
{
    for other in 0..world.spec().sessions() + 1 {
        if !is_clear(world, session, statements, other) {
            return false;
        }
    }
    true
}

/// Whether another session does not wait where the session holds a mode or the statements ask one.
fn is_clear(world: &World<'_>, session: u8, statements: &[Bound], other: u8) -> bool
    requires whole { IsWhole world.now }
    requires bound { AreBound statements.now }
    ensures { result ≡ clear_of world.now.world session (plans statements.now) (find (λ (v : Wait). v.session == other) world.now.world.waits) }
{
    let Some((place, _mode)) = world.wait_of(other) else {
        return true;
    };
    if world.holds(session, place).is_some() {
        return false;
    }
    none_asked(statements, place)
}

/// Whether the statements ask nothing there.
fn none_asked(statements: &[Bound], there: Place<'_>) -> bool
    requires { AreBound statements.now }
    ensures { result ≡ list_all (λ (q : Request). not (same_resource (resource_at there.entry) q.resource)) (plans statements.now) }
{
    for statement in statements {
        if !none_asked_by(statement, there) {
            return false;
        }
    }
    true
}

fn none_asked_by(statement: &Bound, there: Place<'_>) -> bool
    requires keys { HasKeys statement.now }
    requires short { IsShort statement.now }
    ensures { result ≡ list_all (λ (q : Request). not (same_resource (resource_at there.entry) q.resource)) (plan statement.now) }
{
    for number in 0..u8::MAX {
        let Some((place, _mode)) = lock_plan(statement, number) else {
            return true;
        };
        if is_same(there, place) {
            return false;
        }
    }
    true
}

/// Whether the places are of one resource.
fn is_same(place: Place<'_>, there: Place<'_>) -> bool
    ensures { result ≡ same_resource (resource_at place.entry) (resource_at there.entry) }
{
    place.is_same(there)
}
