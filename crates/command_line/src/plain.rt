//! Plain lines: a command and its words, without flags. They are read here, and all others by `clap`.

ghost use Rattle.std.specs.Prelude.{◌≡◌, ◌<◌, ◌^◌, ℕ, List, [], ◌∷◌, Some, IfOk, decimal, map, string_bytes};
ghost use Rattle.std.specs.List.{list_all};
ghost use Rattle.std.specs.Option.{IsSomeAnd};
ghost use Rattle.command_line.specs.Lines.{AsksFor, AreBooks, AreNames, Fits, IsBehind, IsLine, Line, RunsRanks, arguments, is_plain, named, range};
ghost use Rattle.command_line.specs.Lines.{Check, One, Count, Rank, Order, Show, Classes, Run, RunAll, Join, Missing, Holds, Report, Audit, Judge};

use crate::names::{Name, name_of};
use crate::paths::Paths;
use crate::ranks::WantedRanks;
use crate::wanted::wanted_of;
use crate::words::{Asked, DEFAULT_WORKERS, MAX_BOOKS, MAX_NAMES};
use shard_board::Workers;
use std::alloc::{AllocError, Global};
use wanted_classes::{DEFAULT_MEMORY, WantedClasses, WantedForm};

/// What a plain line asks for, none where the words are no such line. The first of them is the program's name.
pub(crate) fn plain_line<'a>(
    alloc: Global,
    words: &'a [String],
) -> Result<Option<Asked<'a>>, AllocError>
    ensures { IfOk result (λ asked. (line : Line) → IsLine (map string_bytes words.now) line → IsSomeAnd asked (AsksFor line)) }
{
    match words {
        [_program, command, rest @ ..] => line_behind(alloc, command, rest),
        _ => Ok(None),
    }
}

/// What a command and the words behind it ask for.
fn line_behind<'a>(
    alloc: Global,
    command: &str,
    rest: &'a [String],
) -> Result<Option<Asked<'a>>, AllocError>
    ensures { IfOk result (λ asked. (line : Line) → IsBehind command.now (map string_bytes rest.now) line → IsSomeAnd asked (AsksFor line)) }
{
    if !are_plain(rest) {
        return Ok(None);
    }
    match name_of(command) {
        Some(name) => line_of(alloc, name, rest),
        None => Ok(None),
    }
}

/// Whether no word is a flag.
fn are_plain(words: &[String]) -> bool
    ensures { result ≡ list_all is_plain (map string_bytes words.now) }
{
    for word in words {
        if !is_plain(word) {
            return false;
        }
    }
    true
}

/// Whether a word is no flag. A hyphen alone is none: it is standard input.
fn is_plain(word: &str) -> bool
    ensures { result ≡ is_plain word.now }
{
    match word.as_bytes() {
        [first, _, ..] => *first != b'-',
        [_] => true,
        [] => true,
    }
}

/// What the words behind a command ask for.
fn line_of<'a>(
    alloc: Global,
    name: Name,
    rest: &'a [String],
) -> Result<Option<Asked<'a>>, AllocError>
    ensures { IfOk result (λ asked. (line : Line) → named line ≡ name → map string_bytes rest.now ≡ arguments line → Fits line → IsSomeAnd asked (AsksFor line)) }
{
    match name {
        Name::Check => Ok(check_line(rest)),
        Name::One => Ok(one_line(rest)),
        Name::Count => Ok(count_line(rest)),
        Name::Rank => rank_line(alloc, rest),
        Name::Order => Ok(order_line(rest)),
        Name::Show => show_line(alloc, rest),
        Name::Classes => Ok(classes_line(alloc, rest)),
        Name::Run => Ok(run_line(rest)),
        Name::Join => join_line(alloc, rest),
        Name::Missing => missing_line(alloc, rest),
        Name::Holds => Ok(holds_line(rest)),
        Name::Report => Ok(report_line(rest)),
        Name::Audit => Ok(audit_line(rest)),
        Name::Judge => judge_line(alloc, rest),
        Name::Test => Ok(None),
    }
}

fn check_line<'a>(rest: &'a [String]) -> Option<Asked<'a>>
    ensures { (path : List ℕ) → map string_bytes rest.now ≡ path ∷ [] → IsSomeAnd result (AsksFor (Check path)) }
{
    match rest {
        [path] => Some(Asked::Check { path }),
        _ => None,
    }
}

fn one_line<'a>(rest: &'a [String]) -> Option<Asked<'a>>
    ensures { (path : List ℕ) (rank : ℕ) → rank < 2 ^ 64 → map string_bytes rest.now ≡ path ∷ decimal rank ∷ [] → IsSomeAnd result (AsksFor (One path rank)) }
{
    match rest {
        [path, rank] => Some(Asked::One {
            path,
            rank: number_of(rank)?,
        }),
        _ => None,
    }
}

fn count_line<'a>(rest: &'a [String]) -> Option<Asked<'a>>
    ensures { (path : List ℕ) → map string_bytes rest.now ≡ path ∷ [] → IsSomeAnd result (AsksFor (Count path)) }
{
    match rest {
        [path] => Some(Asked::Count { path }),
        _ => None,
    }
}

fn rank_line<'a>(alloc: Global, rest: &'a [String]) -> Result<Option<Asked<'a>>, AllocError>
    ensures { IfOk result (λ asked. (path : List ℕ) (names : List (List ℕ)) → AreNames names → map string_bytes rest.now ≡ path ∷ names → IsSomeAnd asked (AsksFor (Rank path names))) }
{
    match rest {
        [path, names @ ..] => named_line(alloc, path, names),
        _ => Ok(None),
    }
}

fn named_line<'a>(
    alloc: Global,
    path: &'a str,
    names: &'a [String],
) -> Result<Option<Asked<'a>>, AllocError>
    ensures { IfOk result (λ asked. AreNames (map string_bytes names.now) → IsSomeAnd asked (AsksFor (Rank path.now (map string_bytes names.now)))) }
{
    if names.is_empty() || names.len() > MAX_NAMES {
        return Ok(None);
    }
    let names = words_of(alloc, names)?;
    Ok(Some(Asked::Rank { path, names }))
}

fn order_line<'a>(rest: &'a [String]) -> Option<Asked<'a>>
    ensures { (path : List ℕ) (rank : ℕ) → rank < 2 ^ 64 → map string_bytes rest.now ≡ path ∷ decimal rank ∷ [] → IsSomeAnd result (AsksFor (Order path rank)) }
{
    match rest {
        [path, rank] => Some(Asked::Order {
            path,
            rank: number_of(rank)?,
        }),
        _ => None,
    }
}

fn show_line<'a>(alloc: Global, rest: &'a [String]) -> Result<Option<Asked<'a>>, AllocError>
    ensures { IfOk result (λ asked. (path : List ℕ) (order : List (List ℕ)) → AreNames order → map string_bytes rest.now ≡ path ∷ order → IsSomeAnd asked (AsksFor (Show path order))) }
{
    match rest {
        [path, order @ ..] => wanted_line(alloc, path, order),
        _ => Ok(None),
    }
}

fn wanted_line<'a>(
    alloc: Global,
    path: &'a str,
    order: &'a [String],
) -> Result<Option<Asked<'a>>, AllocError>
    ensures { IfOk result (λ asked. AreNames (map string_bytes order.now) → IsSomeAnd asked (AsksFor (Show path.now (map string_bytes order.now)))) }
{
    if order.is_empty() || order.len() > MAX_NAMES {
        return Ok(None);
    }
    let words = words_of(alloc, order)?;
    Ok(Some(Asked::Show {
        path,
        order: wanted_of(words),
        json: false,
        level: None,
    }))
}

fn classes_line<'a>(alloc: Global, rest: &'a [String]) -> Option<Asked<'a>>
    ensures { (path : List ℕ) → map string_bytes rest.now ≡ path ∷ [] → IsSomeAnd result (AsksFor (Classes path)) }
{
    match rest {
        [path] => Some(Asked::Classes {
            path,
            wanted: WantedClasses {
                all_orders: false,
                sample: None,
                by_result: false,
                filters: Vec::new(alloc),
                queries: Vec::new(alloc),
                expectations: Vec::new(alloc),
                brief: false,
                outcomes: false,
                final_rows: false,
                form: WantedForm::Text,
                level: None,
                memory: DEFAULT_MEMORY,
            },
            progress: false,
        }),
        _ => None,
    }
}

fn run_line<'a>(rest: &'a [String]) -> Option<Asked<'a>>
    ensures all { (path : List ℕ) → map string_bytes rest.now ≡ path ∷ [] → IsSomeAnd result (AsksFor (RunAll path)) }
    ensures range { (path : List ℕ) (first end : ℕ) → first < 2 ^ 64 → end < 2 ^ 64 → map string_bytes rest.now ≡ path ∷ decimal first ∷ decimal end ∷ [] → IsSomeAnd result (AsksFor (Run path first end)) }
{
    match rest {
        [path] => run_of(path, WantedRanks::All),
        [path, first, end] => run_of(path, range_of(first, end)?),
        _ => None,
    }
}

/// The range between two numbers.
fn range_of(first: &str, end: &str) -> Option<WantedRanks>
    ensures { (f e : ℕ) → f < 2 ^ 64 → e < 2 ^ 64 → first.now ≡ decimal f → end.now ≡ decimal e → result ≡ Some (range f e) }
{
    Some(WantedRanks::Range {
        first: number_of(first)?,
        end: number_of(end)?,
    })
}

fn run_of<'a>(path: &'a str, ranks: WantedRanks) -> Option<Asked<'a>>
    ensures { IsSomeAnd result (λ asked. RunsRanks path.now ranks asked) }
{
    Some(Asked::Run {
        path,
        ranks,
        every: false,
        workers: Workers::of(DEFAULT_WORKERS)?,
        progress: false,
    })
}

fn join_line<'a>(alloc: Global, rest: &'a [String]) -> Result<Option<Asked<'a>>, AllocError>
    ensures { IfOk result (λ asked. (paths : List (List ℕ)) → AreBooks paths → map string_bytes rest.now ≡ paths → IsSomeAnd asked (AsksFor (Join paths))) }
{
    if rest.len() > MAX_BOOKS {
        return Ok(None);
    }
    let books = words_of(alloc, rest)?;
    match Paths::of(books) {
        Some(paths) => Ok(Some(Asked::Join { paths })),
        None => Ok(None),
    }
}

fn missing_line<'a>(alloc: Global, rest: &'a [String]) -> Result<Option<Asked<'a>>, AllocError>
    ensures { IfOk result (λ asked. (paths : List (List ℕ)) → AreBooks paths → map string_bytes rest.now ≡ paths → IsSomeAnd asked (AsksFor (Missing paths))) }
{
    if rest.len() > MAX_BOOKS {
        return Ok(None);
    }
    let books = words_of(alloc, rest)?;
    match Paths::of(books) {
        Some(paths) => Ok(Some(Asked::Missing {
            paths,
            lines: false,
        })),
        None => Ok(None),
    }
}

fn holds_line<'a>(rest: &'a [String]) -> Option<Asked<'a>>
    ensures { (path spec : List ℕ) (first end : ℕ) → first < 2 ^ 64 → end < 2 ^ 64 → map string_bytes rest.now ≡ path ∷ spec ∷ decimal first ∷ decimal end ∷ [] → IsSomeAnd result (AsksFor (Holds path spec first end)) }
{
    match rest {
        [path, spec, first, end] => Some(Asked::Holds {
            path,
            spec,
            first: number_of(first)?,
            end: number_of(end)?,
        }),
        _ => None,
    }
}

fn report_line<'a>(rest: &'a [String]) -> Option<Asked<'a>>
    ensures { (path : List ℕ) → map string_bytes rest.now ≡ path ∷ [] → IsSomeAnd result (AsksFor (Report path)) }
{
    match rest {
        [path] => Some(Asked::Report { path }),
        _ => None,
    }
}

fn audit_line<'a>(rest: &'a [String]) -> Option<Asked<'a>>
    ensures { (path : List ℕ) → map string_bytes rest.now ≡ path ∷ [] → IsSomeAnd result (AsksFor (Audit path)) }
{
    match rest {
        [path] => Some(Asked::Audit { path }),
        _ => None,
    }
}

fn judge_line<'a>(alloc: Global, rest: &'a [String]) -> Result<Option<Asked<'a>>, AllocError>
    ensures { IfOk result (λ asked. (path : List ℕ) (accepted : List (List ℕ)) → AreBooks accepted → map string_bytes rest.now ≡ path ∷ accepted → IsSomeAnd asked (AsksFor (Judge path accepted))) }
{
    match rest {
        [path, books @ ..] => accepted_line(alloc, path, books),
        _ => Ok(None),
    }
}

fn accepted_line<'a>(
    alloc: Global,
    path: &'a str,
    books: &'a [String],
) -> Result<Option<Asked<'a>>, AllocError>
    ensures { IfOk result (λ asked. AreBooks (map string_bytes books.now) → IsSomeAnd asked (AsksFor (Judge path.now (map string_bytes books.now)))) }
{
    if books.is_empty() || books.len() > MAX_BOOKS {
        return Ok(None);
    }
    let accepted = words_of(alloc, books)?;
    Ok(Some(Asked::Judge {
        path,
        accepted,
        show: false,
    }))
}

/// The number that a word is, in decimal.
fn number_of(word: &str) -> Option<u64>
    ensures { (number : ℕ) → number < 2 ^ 64 → word.now ≡ decimal number → result ≡ Some number }
{
    word.parse::<u64>().ok()
}

/// The words, borrowed.
fn words_of<'a>(alloc: Global, words: &'a [String]) -> Result<Vec<&'a str>, AllocError>
    ensures { IfOk result (λ lent. map (λ w. w.now) lent.items ≡ map string_bytes words.now) }
{
    let mut lent = Vec::new(alloc);
    for word in words {
        lent.push(word.as_str())?;
    }
    Ok(lent)
}
