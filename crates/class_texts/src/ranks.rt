//! The ranks of a class, as ranges.

ghost use Rattle.std.specs.Prelude.{◌≡◌, ◌++◌, [], IfOk, OnOk, codes, decimal, flat_map, get_or};
ghost use Rattle.class_texts.specs.Beneath as spec;

use crate::left::begun;
use class_stretches::RankRun;
use shown_texts::{put, put_number};
use sqlite_items::Items;
use std::alloc::{AllocError, Global};

/// Puts a range behind a line.
fn put_range(line: &mut Items<char>, run: RankRun) -> Result<(), AllocError>
    ensures { OnOk result (line.new ≡ line.old ++ spec.range_text run) }
{
    let last = run.end.saturating_sub(1);
    if run.first == last {
        return put_number(line, run.first);
    }
    put_both(line, run.first, last)
}

fn put_both(line: &mut Items<char>, first: u64, last: u64) -> Result<(), AllocError>
    ensures { OnOk result (line.new ≡ line.old ++ (decimal first ++ (codes "-" ++ decimal last))) }
{
    put_number(line, first)?;
    put(line, "-")?;
    put_number(line, last)
}

fn put_behind_blank(line: &mut Items<char>, run: RankRun) -> Result<(), AllocError>
    ensures { OnOk result (line.new ≡ line.old ++ spec.behind_range run) }
{
    line.push(' ')?;
    put_range(line, run)
}

fn put_ranges(line: &mut Items<char>, runs: &[RankRun]) -> Result<(), AllocError>
    ensures { OnOk result (line.new ≡ line.old ++ flat_map spec.behind_range runs.now) }
{
    for run in runs {
        put_behind_blank(line, *run)?;
    }
    Ok(())
}

/// The runs of the class at a place, or none where there is no such place.
pub fn runs_at(ranks: &[Items<RankRun>], place: usize) -> &[RankRun]
    ensures { result.now ≡ get_or ranks.now place [] }
{
    match ranks.get(place) {
        Some(runs) => runs.as_slice(),
        None => &[],
    }
}

/// The ranks of a class on a line.
pub(crate) fn ranks_line(alloc: Global, runs: &[RankRun]) -> Result<Items<char>, AllocError>
    ensures { IfOk result (λ line. line ≡ spec.margin ++ spec.ranks_text runs.now) }
{
    let mut line = begun(alloc)?;
    put(&mut line, "ranks")?;
    put_ranges(&mut line, runs)?;
    Ok(line)
}
