//! The names of spec files and of their accepted records.

ghost use Rattle.std.specs.Prelude.{IfOk, string_bytes};
ghost use Rattle.accepted_classes.specs.Names.{IsAcceptedPath, IsFileName, IsStem};

use std::alloc::{AllocError, Global};

/// What the name of a spec file ends in.
const SPEC: &str = ".spec";

/// What the name of an accepted record ends in.
const ACCEPTED: &str = ".accepted";

/// The path of the accepted record of the spec file at a path: beside it, with `.accepted` in the place of `.spec`, or behind a name that does not
/// end so.
pub fn accepted_path(alloc: Global, path: &str) -> Result<String, AllocError>
    ensures { IfOk result (λ accepted. IsAcceptedPath path.now (string_bytes accepted)) }
{
    let mut accepted = String::from_str(alloc, stem(path))?;
    accepted.push_str(ACCEPTED)?;
    Ok(accepted)
}

/// The path without the end of a spec file's name, or the whole of one that does not end so.
fn stem(path: &str) -> &str
    ensures { IsStem path.now result.now }
{
    match path.strip_suffix(SPEC) {
        Some(stem) => stem,
        None => path,
    }
}

/// The name of the file at a path: what stands behind the last slash.
pub fn file_name(path: &str) -> &str
    ensures { IsFileName path.now result.now }
{
    match path.rsplit_once('/') {
        Some((_folder, name)) => name,
        None => path,
    }
}
