//! Which spec files are tested.

ghost use Rattle.std.specs.Prelude.{◌≡◌, ◌++◌, ◌∷◌, ℕ, List, [], IfErr, IfOk, OnOk, map, string_bytes, vec_len};
ghost use Rattle.test_commands.specs.Testing.{AreNoSpecs, AreSpecsAt, IsNoMore, IsNoneIn, IsPathAdded, IsPathRefused};

use crate::folder::{Entry, Folder};
use std::alloc::{AllocError, Global};

/// The spec files of one test, at most.
pub const MAX_SPECS: usize = 1_000;

/// How deep folders lie within one another, at most.
const MAX_DEPTH: usize = 32;

/// What the name of a spec file ends in.
const SPEC: &str = ".spec";

/// Why it is not known which specs are tested.
#[derive(Clone, Copy)]
pub enum SpecsFault<'a> {
    /// In the folder at this path there is none.
    NoneIn(&'a str),
    /// There are more than a test may have.
    TooMany,
    /// Memory ran out.
    NoMemory,
}

/// The spec files at some paths, in the order of the paths. A folder stands for all files in it, and in the folders in it, whose names end in
/// `.spec`, in the order of their names. Names that begin with a point are passed over. A folder that is not read stands for itself.
pub fn specs_in<'a, F: Folder>(
    alloc: Global,
    folder: &F,
    paths: &[&'a str],
) -> Result<Vec<String>, SpecsFault<'a>>
    ensures specs { IfOk result (λ specs. AreSpecsAt (F.bytes folder.now) (map (λ p. p.now) paths.now) (map string_bytes specs.items)) }
    ensures refused { IfErr result (AreNoSpecs (F.bytes folder.now) (map (λ p. p.now) paths.now)) }
{
    let mut specs = Vec::new(alloc);
    for place in 0..paths.len() {
        let path = paths[place];
        if let Err(fault) = add_path(alloc, folder, path, &mut specs) {
            return Err(fault);
        }
    }
    Ok(specs)
}

/// Adds the spec at a path, or those of the folder there.
fn add_path<'a, F: Folder>(
    alloc: Global,
    folder: &F,
    path: &'a str,
    specs: &mut Vec<String>,
) -> Result<(), SpecsFault<'a>>
    ensures added { OnOk result (IsPathAdded (F.bytes folder.now path.now) path.now (map string_bytes specs.old.items) (map string_bytes specs.new.items)) }
    ensures refused { IfErr result (IsPathRefused (F.bytes folder.now path.now) path.now (vec_len specs.old)) }
{
    match folder.entries(alloc, path) {
        Ok(Some(entries)) => add_folder(alloc, folder, path, entries, specs),
        Ok(None) => add_spec(alloc, path, specs),
        Err(_) => Err(SpecsFault::NoMemory),
    }
}

/// Adds the specs of a folder, of which there has to be one.
fn add_folder<'a, F: Folder>(
    alloc: Global,
    folder: &F,
    path: &'a str,
    entries: Vec<Entry>,
    specs: &mut Vec<String>,
) -> Result<(), SpecsFault<'a>>
    ensures { IfErr result (IsNoneIn path.now) }
{
    let before = specs.len();
    match add_entries(alloc, folder, path, entries, specs) {
        Ok(()) if specs.len() == before => Err(SpecsFault::NoneIn(path)),
        Ok(()) => Ok(()),
        Err(fault) => Err(fault),
    }
}

/// Adds the specs of a folder, and of the folders in it.
fn add_entries<'a, F: Folder>(
    alloc: Global,
    folder: &F,
    path: &str,
    entries: Vec<Entry>,
    specs: &mut Vec<String>,
) -> Result<(), SpecsFault<'a>>
    ensures { IfErr result (λ fault. (folder : List ℕ) → IsNoneIn folder fault) }
{
    let mut waiting = Vec::new(alloc);
    if push_entries(alloc, path, 0, entries, &mut waiting).is_err() {
        return Err(SpecsFault::NoMemory);
    }
    for _ in 0..u64::MAX {
        let Some(next) = waiting.pop() else {
            return Ok(());
        };
        add_next(alloc, folder, &next, &mut waiting, specs)?;
    }
    Ok(())
}

/// What is looked at later.
#[derive(Drop)]
struct Waiting {
    path: String,
    is_folder: bool,
    depth: usize,
}

/// Adds what waited, where it is a spec; of a folder what lies in it waits from then on, unless it lies too deep. One that is not read is told as a
/// spec that is not, since what is in it is not known.
fn add_next<'a, F: Folder>(
    alloc: Global,
    folder: &F,
    next: &Waiting,
    waiting: &mut Vec<Waiting>,
    specs: &mut Vec<String>,
) -> Result<(), SpecsFault<'a>>
    ensures { IfErr result (λ fault. (folder : List ℕ) → IsNoneIn folder fault) }
{
    if !next.is_folder {
        return add_named(alloc, &next.path, specs);
    }
    if next.depth >= MAX_DEPTH {
        return Ok(());
    }
    match folder.entries(alloc, &next.path) {
        Ok(Some(entries)) => {
            match push_entries(alloc, &next.path, next.depth + 1, entries, waiting) {
                Ok(()) => Ok(()),
                Err(_) => Err(SpecsFault::NoMemory),
            }
        }
        Ok(None) => add_spec(alloc, &next.path, specs),
        Err(_) => Err(SpecsFault::NoMemory),
    }
}

/// Adds the file at a path in a folder, if its name is that of a spec.
fn add_named<'a>(alloc: Global, path: &str, specs: &mut Vec<String>) -> Result<(), SpecsFault<'a>>
    ensures { IfErr result (λ fault. (folder : List ℕ) → IsNoneIn folder fault) }
{
    if path.ends_with(SPEC) {
        return add_spec(alloc, path, specs);
    }
    Ok(())
}

/// Puts what lies in a folder on top of what waits, so that it comes in the order of the names.
fn push_entries(
    alloc: Global,
    path: &str,
    depth: usize,
    entries: Vec<Entry>,
    waiting: &mut Vec<Waiting>,
) -> Result<(), AllocError> {
    let mut sorted = entries;
    sorted.sort_unstable_by(|a: &Entry, b: &Entry| b.name.as_str().cmp(a.name.as_str()));
    for entry in &sorted {
        if !entry.name.starts_with(".") {
            waiting.push(Waiting {
                path: path_in(alloc, path, &entry.name)?,
                is_folder: entry.is_folder,
                depth,
            })?;
        }
    }
    Ok(())
}

/// The path of what has a name in the folder at a path.
fn path_in(alloc: Global, path: &str, name: &str) -> Result<String, AllocError> {
    let mut inner = String::new(alloc);
    inner.push_str(path)?;
    if !path.ends_with("/") {
        inner.push_str("/")?;
    }
    inner.push_str(name)?;
    Ok(inner)
}

fn add_spec<'a>(alloc: Global, path: &str, specs: &mut Vec<String>) -> Result<(), SpecsFault<'a>>
    ensures added { OnOk result (map string_bytes specs.new.items ≡ map string_bytes specs.old.items ++ path.now ∷ []) }
    ensures refused { IfErr result (IsNoMore (vec_len specs.old)) }
{
    if specs.len() == MAX_SPECS {
        return Err(SpecsFault::TooMany);
    }
    match push_path(alloc, path, specs) {
        Ok(()) => Ok(()),
        Err(_) => Err(SpecsFault::NoMemory),
    }
}

fn push_path(alloc: Global, path: &str, paths: &mut Vec<String>) -> Result<(), AllocError>
    ensures { OnOk result (map string_bytes paths.new.items ≡ map string_bytes paths.old.items ++ path.now ∷ []) }
{
    let own = String::from_str(alloc, path)?;
    paths.push(own)?;
    Ok(())
}
