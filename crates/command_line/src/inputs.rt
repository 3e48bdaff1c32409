//! Standard input among the files that are read.

ghost use Rattle.std.specs.Prelude.{◌≡◌, map};
ghost use Rattle.command_line.specs.Inputs.{is_input, repeats, repeats_input};

use crate::words::Asked;

/// The path of standard input.
const INPUT: &str = "-";

/// Whether two of the files that are asked for are standard input, which can be read once.
pub(crate) fn repeats_input(asked: &Asked<'_>) -> bool
    ensures { result ≡ repeats_input asked.now }
{
    match asked {
        Asked::Outcomes { paths, .. } => repeats(false, paths.as_slice()),
        Asked::Join { paths } => repeats(false, paths.as_slice()),
        Asked::Missing { paths, .. } => repeats(false, paths.as_slice()),
        Asked::Test { paths, .. } => repeats(false, paths.as_slice()),
        Asked::Holds { path, spec, .. } => is_input(path) && is_input(spec),
        Asked::Judge { path, accepted, .. } => repeats(is_input(path), accepted.as_slice()),
        Asked::One { .. }
        | Asked::Check { .. }
        | Asked::Count { .. }
        | Asked::Rank { .. }
        | Asked::Order { .. }
        | Asked::Show { .. }
        | Asked::Classes { .. }
        | Asked::Levels { .. }
        | Asked::Run { .. }
        | Asked::Report { .. }
        | Asked::Audit { .. } => false,
    }
}

fn is_input(path: &str) -> bool
    ensures { result ≡ is_input path.now }
{
    path == INPUT
}

/// Whether standard input is among the paths, where it was asked for before, or twice among them.
fn repeats(before: bool, paths: &[&str]) -> bool
    ensures { result ≡ repeats before (map (λ p. p.now) paths.now) }
{
    let mut seen = before;
    for path in paths {
        let is_next = is_input(path);
        if is_next && seen {
            return true;
        }
        seen = seen || is_next;
    }
    false
}
