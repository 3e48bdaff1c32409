//! Runs cut into pieces of about equal work.

ghost use Rattle.std.specs.Prelude.{◌≡◌, ℕ, ◌++◌, ◌∷◌, ◌<◌, ◌≤◌, [], IfOk, OnOk};
ghost use Rattle.fact_books.specs.Runs.{Adds, AllSound, IsSound, KeepsSound};
ghost use Rattle.book_audit.specs.Pieces.{runs_of, runs_in, SaysAll};

use fact_books::{Run, Tag};
use sqlite_items::Items;
use std::alloc::{AllocError, Global};
use std::mem;

/// How many ranks with an outcome a piece has at least, if there are so many. Each of them sends a few steps, those that its line does
/// not share with the line before, so that such a piece is some thousand steps and takes milliseconds. It binds and starts the spec for
/// itself and may need a thread of its own, which costs far less where tables are small.
const LEAST_PIECE: u64 = 1_024;

/// Runs cut into pieces, as far as they are there.
#[derive(Drop)]
struct Pieces {
    ended: Vec<Items<Run>>,
    rest: Items<Run>,
    /// How many ranks of the last piece are tested one by one.
    ranks: u64,
    /// How many of them end a piece.
    size: u64,
}

/// The same runs in as many pieces as are wanted at most, one after the other. Runs of an outcome cost a line for each rank, and long
/// ones are cut. A run of a swap is tested once for each block of words that share the letters up to the swap, of which it has a few at
/// most: it counts as a rank.
pub(crate) fn pieces_of(
    alloc: Global,
    runs: &[Run],
    most: u64,
) -> Result<Vec<Items<Run>>, AllocError>
    requires sound { (n : ℕ) × AllSound n runs.now }
    requires some { 1 ≤ most }
    ensures says { IfOk result (λ pieces. SaysAll runs.now (runs_of pieces.items)) }
    ensures sound { IfOk result (λ pieces. (n : ℕ) → AllSound n runs.now → AllSound n (runs_of pieces.items)) }
{
    let mut pieces = Pieces::new(alloc, size_for(ranks_of(runs), most));
    for i in 0..runs.len() {
        pieces.add(alloc, runs[i])?;
    }
    pieces.close(alloc)?;
    Ok(pieces.ended)
}

/// How many ranks of the runs are tested one by one.
fn ranks_of(runs: &[Run]) -> u64 {
    let mut ranks: u64 = 0;
    for i in 0..runs.len() {
        ranks = ranks.saturating_add(ranks_of_run(runs[i]));
    }
    ranks
}

fn ranks_of_run(run: Run) -> u64 {
    match run.tag {
        Tag::Ran(_) => run.end.saturating_sub(run.first),
        Tag::Swap(_) => 1,
    }
}

/// How many ranks end a piece, so that these need no more pieces than are wanted at most, with the last one, which may be empty.
fn size_for(ranks: u64, most: u64) -> u64
    requires { 1 ≤ most }
    ensures { LEAST_PIECE ≤ result }
{
    (ranks / most).saturating_add(1).max(LEAST_PIECE)
}

impl Pieces {
    fn new(alloc: Global, size: u64) -> Pieces
        ensures { runs_in result ≡ [] }
    {
        Pieces {
            ended: Vec::new(alloc),
            rest: Items::new(alloc),
            ranks: 0,
            size,
        }
    }

    /// Adds a run.
    fn add(&mut self, alloc: Global, run: Run) -> Result<(), AllocError>
        requires { run.first ≤ run.end }
        ensures says { OnOk result (Adds (runs_in self.old) run (runs_in self.new)) }
        ensures sound { OnOk result (KeepsSound (runs_in self.old) run (runs_in self.new)) }
    {
        match run.tag {
            Tag::Ran(_) => self.add_ranks(alloc, run),
            Tag::Swap(_) => self.put(alloc, run, 1),
        }
    }

    /// Adds a run in parts, each of which ends where its piece does or the run.
    fn add_ranks(&mut self, alloc: Global, run: Run) -> Result<(), AllocError>
        requires { run.first ≤ run.end }
        ensures says { OnOk result (Adds (runs_in self.old) run (runs_in self.new)) }
        ensures sound { OnOk result (KeepsSound (runs_in self.old) run (runs_in self.new)) }
    {
        let mut first = run.first;
        while first < run.end {
            let part = front(run, first, self.room());
            self.put(alloc, part, part.end - first)?;
            first = part.end;
        }
        Ok(())
    }

    /// How many more ranks the last piece takes, one at least.
    fn room(&self) -> u64
        ensures { 1 ≤ result }
    {
        self.size.saturating_sub(self.ranks).max(1)
    }

    /// Puts a run behind those that are there.
    fn put(&mut self, alloc: Global, run: Run, ranks: u64) -> Result<(), AllocError>
        ensures { OnOk result (runs_in self.new ≡ runs_in self.old ++ run ∷ []) }
    {
        self.rest.push(run)?;
        self.ranks = self.ranks.saturating_add(ranks);
        if self.ranks < self.size {
            return Ok(());
        }
        self.close(alloc)
    }

    /// Ends the last piece, and begins another.
    fn close(&mut self, alloc: Global) -> Result<(), AllocError>
        ensures same { OnOk result (runs_in self.new ≡ runs_in self.old) }
        ensures rest { OnOk result (self.new.rest ≡ []) }
    {
        let rest = mem::replace(&mut self.rest, Items::new(alloc));
        self.ended.push(rest)?;
        self.ranks = 0;
        Ok(())
    }
}

/// What a run says from this rank on, of no more ranks than there is room for.
fn front(run: Run, first: u64, room: u64) -> Run
    requires left { first < run.end }
    requires room { 1 ≤ room }
    ensures tag { result.tag ≡ run.tag }
    ensures first { result.first ≡ first }
    ensures some { first < result.end }
    ensures end { result.end ≤ run.end }
{
    let left = run.end - first;
    Run {
        first,
        end: first + left.min(room),
        tag: run.tag,
    }
}
