//! A machine that falls behind what it is asked for, and catches up.

ghost use Rattle.std.specs.Prelude.{◌≡◌, ◌+◌, ◌<◌, ◌≤◌, All, OnErr, OnOk, false, length, take, true};
ghost use Rattle.known_worlds.specs.Moves.{first_world, HaveNoMark, IsMarkAt, IsMoveOf, IsNewestMark, marked_after, world_after, world_behind};
ghost use Rattle.known_worlds.specs.declared.moves.Move.TheVariants.{Mark, Send};
ghost use Rattle.known_worlds.specs.Following.{aside, Follows, is_level};

use crate::moves::{Move, newest_mark};
use marked_worlds::MarkedWorld;
use std::alloc::AllocError;

/// A machine that has made some moves of a path, the first ones. The path is given to each call.
#[derive(Drop)]
pub(crate) struct Follower<'a> {
    pub(crate) machine: MarkedWorld<'a>,
    /// How many moves the machine has made.
    pub(crate) made: usize,
    /// Whether the machine has a mark at the start, below all others.
    pub(crate) is_rooted: bool,
}

impl Follower<'_> {
    /// Makes all moves that are not made. Where that is refused the machine has made fewer, and may be asked again.
    pub(crate) fn catch_up(&mut self, path: &[Move]) -> Result<(), AllocError>
        requires follows { Follows self.old.machine.file path.now self.old }
        requires moves { All (IsMoveOf self.old.machine.file) path.now }
        ensures follows { Follows self.old.machine.file path.now self.new }
        ensures level { OnOk result (is_level self.new path.now ≡ true) }
        ensures whole { OnOk result (self.new.machine.spent ≡ false) }
        ensures world { OnOk result (self.new.machine.world ≡ world_behind self.old.machine.file.run.steps (first_world self.old.machine.file.run) path.now) }
        ensures aside { aside self.new.machine ≡ aside self.old.machine }
    {
        self.take_up(path);
        self.set_root(path)?;
        'made: while self.made < path.len() {
            self.go_on(path)?;
        }
        Ok(())
    }

    /// Takes a spent machine back to its newest mark, where it is spent no more.
    fn take_up(&mut self, path: &[Move])
        requires { Follows self.old.machine.file path.now self.old }
        ensures follows { Follows self.old.machine.file path.now self.new }
        ensures whole { self.new.machine.spent ≡ false }
        ensures aside { aside self.new.machine ≡ aside self.old.machine }
    {
        if self.machine.spent() {
            match newest_mark(path, self.made) {
                Some(place) => self.back_to(path, place),
                None => self.back_to_start(path),
            }
        }
    }

    /// Leaves what is behind the newest mark of the path, and the mark.
    pub(crate) fn leave(&mut self, path: &[Move], place: usize)
        requires follows { Follows self.old.machine.file path.now self.old }
        requires mark { IsNewestMark path.now (length path.now) place }
        ensures follows { Follows self.old.machine.file (take place path.now) self.new }
        ensures aside { aside self.new.machine ≡ aside self.old.machine }
    {
        if place < self.made {
            self.back_to(path, place);
        }
    }

    /// Goes back to the newest mark that the machine has.
    fn back_to(&mut self, path: &[Move], place: usize)
        requires follows { Follows self.old.machine.file path.now self.old }
        requires inside { place ≤ length path.now }
        requires mark { IsMarkAt path.now self.old.made place }
        ensures follows { Follows self.old.machine.file path.now self.new }
        ensures made { self.new.made ≡ place }
        ensures whole { self.new.machine.spent ≡ false }
        ensures aside { aside self.new.machine ≡ aside self.old.machine }
    {
        self.machine.go_back();
        self.made = place;
    }

    /// Goes back to the start, where no mark stands above it.
    fn back_to_start(&mut self, path: &[Move])
        requires follows { Follows self.old.machine.file path.now self.old }
        requires spent { self.old.machine.spent ≡ true }
        requires bare { HaveNoMark path.now self.old.made }
        ensures follows { Follows self.old.machine.file path.now self.new }
        ensures whole { self.new.machine.spent ≡ false }
        ensures aside { aside self.new.machine ≡ aside self.old.machine }
    {
        self.machine.go_back();
        self.made = 0;
        self.is_rooted = false;
    }

    /// Sets the mark at the start, where it is missing.
    fn set_root(&mut self, path: &[Move]) -> Result<(), AllocError>
        requires follows { Follows self.old.machine.file path.now self.old }
        requires whole { self.old.machine.spent ≡ false }
        ensures follows { Follows self.old.machine.file path.now self.new }
        ensures whole { self.new.machine.spent ≡ false }
        ensures rooted { OnOk result (self.new.is_rooted ≡ true) }
        ensures aside { aside self.new.machine ≡ aside self.old.machine }
    {
        if self.is_rooted {
            return Ok(());
        }
        mark(&mut self.machine)?;
        self.is_rooted = true;
        Ok(())
    }

    /// Makes the next move.
    fn go_on(&mut self, path: &[Move]) -> Result<(), AllocError>
        requires follows { Follows self.old.machine.file path.now self.old }
        requires moves { All (IsMoveOf self.old.machine.file) path.now }
        requires whole { self.old.machine.spent ≡ false }
        requires rooted { self.old.is_rooted ≡ true }
        requires inside { self.old.made < length path.now }
        ensures follows { Follows self.old.machine.file path.now self.new }
        ensures whole { OnOk result (self.new.machine.spent ≡ false) }
        ensures rooted { self.new.is_rooted ≡ true }
        ensures made { OnOk result (self.new.made ≡ self.old.made + 1) }
        ensures aside { aside self.new.machine ≡ aside self.old.machine }
    {
        make(&mut self.machine, path[self.made])?;
        self.made += 1;
        Ok(())
    }
}

/// Makes a move.
fn make(machine: &mut MarkedWorld<'_>, next: Move) -> Result<(), AllocError>
    requires whole { machine.old.spent ≡ false }
    requires known { IsMoveOf machine.old.file next }
    ensures world { OnOk result (machine.new.world ≡ world_after machine.old.file.run.steps machine.old.world next) }
    ensures marked { OnOk result (machine.new.marked ≡ marked_after machine.old.world machine.old.marked next) }
    ensures whole { OnOk result (machine.new.spent ≡ false) }
    ensures refused { OnErr result (machine.new.marked ≡ machine.old.marked) }
    ensures stays { OnErr result (machine.new.spent ≡ false → machine.new.world ≡ machine.old.world) }
    ensures aside { aside machine.new ≡ aside machine.old }
{
    match next {
        Move::Mark => mark(machine),
        Move::Send(step) => send(machine, step),
    }
}

fn mark(machine: &mut MarkedWorld<'_>) -> Result<(), AllocError>
    ensures world { machine.new.world ≡ machine.old.world }
    ensures marked { OnOk result (machine.new.marked ≡ marked_after machine.old.world machine.old.marked Mark) }
    ensures refused { OnErr result (machine.new.marked ≡ machine.old.marked) }
    ensures whole { machine.new.spent ≡ machine.old.spent }
    ensures aside { aside machine.new ≡ aside machine.old }
{
    match machine.mark() {
        Ok(()) => Ok(()),
        Err(_) => Err(AllocError),
    }
}

fn send(machine: &mut MarkedWorld<'_>, step: u8) -> Result<(), AllocError>
    requires whole { machine.old.spent ≡ false }
    requires known { step < length machine.old.file.run.steps }
    ensures world { OnOk result (machine.new.world ≡ world_after machine.old.file.run.steps machine.old.world (Send step)) }
    ensures whole { OnOk result (machine.new.spent ≡ false) }
    ensures spent { OnErr result (machine.new.spent ≡ true) }
    ensures marked { machine.new.marked ≡ machine.old.marked }
    ensures aside { aside machine.new ≡ aside machine.old }
{
    match machine.send(step) {
        Ok(()) => Ok(()),
        Err(_) => Err(AllocError),
    }
}
