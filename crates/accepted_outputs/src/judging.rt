//! A report judged by accepted ones.

ghost use Rattle.std.specs.Prelude.{IfOk};
ghost use Rattle.accepted_outputs.specs.Judging.{IsVerdict};

use crate::comparing::first_difference;
use crate::verdict::{Differences, Verdict};
use fact_books::Report;
use std::alloc::{AllocError, Global};

/// The first of the accepted reports that is equal to the report. Where none is, for each of them the first rank at which it differs,
/// and there the first session that does. Where one report is longer, and both agree up to the end of the shorter one, the first
/// rank behind that end differs, in session 0; where one outcome has more sessions, the first that the other lacks differs. Memory
/// is all that can be refused. Two outcomes that stand side by side at ranks that follow one another are compared once.
pub fn judge(alloc: Global, report: &Report, accepted: &[Report]) -> Result<Verdict, AllocError>
    ensures { IfOk result (IsVerdict report.now accepted.now) }
{
    let mut places = Vec::new(alloc);
    for index in 0..accepted.len() {
        match first_difference(report, &accepted[index]) {
            None => return Ok(Verdict::Matches(index)),
            Some(place) => places.push(place)?,
        }
    }
    Ok(Verdict::Differs(Differences::from_vec(places)))
}
