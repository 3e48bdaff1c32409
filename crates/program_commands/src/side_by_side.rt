//! Specs that are tested side by side.

ghost use Rattle.std.specs.Prelude.{◌≡◌, ◌<◌, ◌≤◌, ℕ, Bool, false, List, [], All, Option, IfOk, IfSome, get_or, length, map, slice_index_or, string_bytes};
ghost use Rattle.std.specs.List.{AllZip};
ghost use Rattle.bound_statements.specs.declared.statement.Level.{Level};
ghost use Rattle.book_commands.specs.Joining.{Files};
ghost use Rattle.program_commands.specs.Testing.{IsFoundOf};
ghost use Rattle.program_commands.specs.SideBySide.{IsPlaced, findings_in};

use crate::one_spec::{Found, test_of_file};
use bound_statements::Level;
use shard_board::Workers;
use std::alloc::{AllocError, Global};
use std::sync::atomic::{AtomicUsize, Ordering};
use std::thread;
use std::thread::Threads;
use test_commands::Folder;

/// What is found of the spec at a place.
#[derive(Drop)]
struct Placed {
    place: usize,
    found: Found,
}

/// What is found of each of some specs, whose accepted records are left as they are, in their order. As many are tested at a time as there are workers.
pub(crate) fn test_side_by_side<R: Threads + Sync, F: Folder + Sync>(
    rt: &R,
    alloc: Global,
    specs: &[String],
    level: Option<Level>,
    workers: &Workers,
    folder: &F,
) -> Result<Vec<Found>, AllocError>
where
    F::Reader: Send,
    ensures { IfOk result (λ found. AllZip (IsFoundOf (F.bytes folder.now) level false) (map string_bytes specs.now) (findings_in found.items)) }
{
    let crew = crew_for(specs.len(), workers);
    let placed = test_with(rt, alloc, specs, level, folder, crew)?;
    in_order(alloc, specs, level, folder, placed)
}

/// How many specs are tested at a time.
fn crew_for(specs: usize, workers: &Workers) -> u8
    ensures { 1 ≤ result }
{
    specs.min(workers.number() as usize).max(1) as u8
}

/// What a crew of so many finds.
fn test_with<R: Threads + Sync, F: Folder + Sync>(
    rt: &R,
    alloc: Global,
    specs: &[String],
    level: Option<Level>,
    folder: &F,
    crew: u8,
) -> Result<Vec<Placed>, AllocError>
where
    F::Reader: Send,
    ensures { IfOk result (λ placed. All (IsPlaced (F.bytes folder.now) level false (map string_bytes specs.now)) placed.items) }
{
    let next = AtomicUsize::new(0);
    let found = found_by_each(rt, alloc, specs, level, folder, &next, crew)?;
    together(alloc, found)
}

/// What each of a crew finds, in a thread of its own.
fn found_by_each<R: Threads + Sync, F: Folder + Sync>(
    rt: &R,
    alloc: Global,
    specs: &[String],
    level: Option<Level>,
    folder: &F,
    next: &AtomicUsize,
    crew: u8,
) -> Result<Vec<Vec<Placed>>, AllocError>
where
    F::Reader: Send,
    ensures len { IfOk result (λ found. length found.items ≡ crew) }
    ensures each { IfOk result (λ found. (i : ℕ) (d : _) → i < crew → All (IsPlaced (F.bytes folder.now) level false (map string_bytes specs.now)) (slice_index_or found.items i d).items) }
{
    thread::map_indices(
        rt,
        alloc,
        usize::from(crew),
        &|_worker: usize| -> Vec<Placed>
            ensures { All (IsPlaced (F.bytes folder.entry.now) level false (map string_bytes specs.entry.now)) result.items }
        { test_next(alloc, specs, level, folder, next) },
    )
}

/// What is found by each of a crew, in one list.
fn together(alloc: Global, found: Vec<Vec<Placed>>) -> Result<Vec<Placed>, AllocError>
    ensures { (files : Files) (level : Option Level) (updates : Bool) (specs : List (List ℕ)) → All (λ some. All (IsPlaced files level updates specs) some.items) found.items
        → IfOk result (λ placed. All (IsPlaced files level updates specs) placed.items) }
{
    let mut placed = Vec::new(alloc);
    for some in found {
        let mut more = some;
        placed.append(&mut more)?;
    }
    Ok(placed)
}

/// Tests the next spec that none has taken, until there is none. What there is no memory to keep is left out.
fn test_next<F: Folder>(
    alloc: Global,
    specs: &[String],
    level: Option<Level>,
    folder: &F,
    next: &AtomicUsize,
) -> Vec<Placed>
    ensures { All (IsPlaced (F.bytes folder.now) level false (map string_bytes specs.now)) result.items }
{
    let mut placed = Vec::new(alloc);
    for _ in 0..specs.len() {
        let place = next.fetch_add(1, Ordering::SeqCst);
        if place >= specs.len() {
            return placed;
        }
        let found = test_of_file(alloc, specs[place].as_str(), level, false, folder);
        let _kept = placed.push(Placed { place, found });
    }
    placed
}

/// What is found of each spec. One of which nothing was kept is tested here.
fn in_order<F: Folder>(
    alloc: Global,
    specs: &[String],
    level: Option<Level>,
    folder: &F,
    placed: Vec<Placed>,
) -> Result<Vec<Found>, AllocError>
    requires { All (IsPlaced (F.bytes folder.now) level false (map string_bytes specs.now)) placed.items }
    ensures { IfOk result (λ found. AllZip (IsFoundOf (F.bytes folder.now) level false) (map string_bytes specs.now) (findings_in found.items)) }
{
    let mut kept = placed;
    kept.sort_unstable_by(|a: &Placed, b: &Placed| b.place.cmp(&a.place));
    let mut all = Vec::new(alloc);
    for place in 0..specs.len() {
        let found = match take_last(place, &mut kept) {
            Some(found) => found,
            None => test_of_file(alloc, specs[place].as_str(), level, false, folder),
        };
        all.push(found)?;
    }
    Ok(all)
}

/// What is kept of the spec at a place, if it is the last.
fn take_last(place: usize, kept: &mut Vec<Placed>) -> Option<Found>
    ensures taken { (files : Files) (level : Option Level) (updates : Bool) (specs : List (List ℕ)) → All (IsPlaced files level updates specs) kept.old.items → IfSome result (λ found. IsFoundOf files level updates (get_or specs place []) found.finding) }
    ensures left { (files : Files) (level : Option Level) (updates : Bool) (specs : List (List ℕ)) → All (IsPlaced files level updates specs) kept.old.items → All (IsPlaced files level updates specs) kept.new.items }
{
    let last = kept.pop()?;
    if last.place == place {
        return Some(last.found);
    }
    let _back = kept.push(last);
    None
}
