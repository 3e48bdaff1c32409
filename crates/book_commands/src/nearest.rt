//! What is shown beneath a verdict: where the accepted report that is nearest and the judged one differ.

ghost use Rattle.std.specs.Prelude.{◌≡◌, ◌<◌, ◌↔◌, ◌++◌, ◌∷◌, ℕ, List, [], All, IfOk, IsTrue, MatchOption, OnOk, codes, decimal, get_or, length, slice_get};
ghost use Rattle.bound_specs.specs.Spec.{line_of, ranks};
ghost use Rattle.machine_model.specs.Outcome.{IsOutcomeOf};
ghost use Rattle.transcripts.specs.Lines.{number_line};
ghost use Rattle.events.specs.Fits.{HasStep};
ghost use Rattle.transcripts.specs.Text.{session_text};
ghost use Rattle.order_names.specs.Spelling.{names_of, order_text};
ghost use Rattle.accepted_outputs.specs.Judging.{IsVerdict};
ghost use Rattle.fact_books.specs.Books.{Contents};
ghost use Rattle.book_commands.specs.Kept.{AreKept, IsKept, IsOwn};
ghost use Rattle.book_commands.specs.Nearest.{IsAskedBeneath, IsBeneathThese, IsFurther, IsNearest, outcome_part, shown_text, side_text};

use accepted_outputs::Verdict;
use bound_specs::Spec;
use events::Transcript;
use fact_books::Report;
use finite_maps::Fork;
use itoa::Buffer;
use order_names::order_text;
use std::alloc::{AllocError, Global};
use transcripts::{Counted, Names, Outcome, print};

/// The spec of a book, and its report.
#[derive(Drop)]
pub(crate) struct Reported {
    pub(crate) spec: Spec,
    pub(crate) report: Report,
}

/// The specs of accepted books in their order, and the reports of the same books.
#[derive(Drop)]
pub(crate) struct Accepted {
    pub(crate) specs: Vec<Spec>,
    pub(crate) reports: Vec<Report>,
}

/// What stands beneath a verdict: nothing, unless it is to be shown and no accepted report is equal.
pub(crate) fn beneath(
    alloc: Global,
    judged: &Reported,
    accepted: &Accepted,
    verdict: &Verdict,
    show: bool,
) -> Result<Vec<u8>, AllocError>
    requires verdict { IsVerdict judged.now.report accepted.now.reports.items verdict.now }
    requires here { (here : Contents) × IsKept here judged.now.spec judged.now.report }
    requires there { (books : List Contents) × AreKept books accepted.now.specs.items accepted.now.reports.items }
    ensures { IfOk result (λ text. (here : Contents) → IsKept here judged.now.spec judged.now.report
        → (books : List Contents) → AreKept books accepted.now.specs.items accepted.now.reports.items
        → IsAskedBeneath show here judged.now.report books accepted.now.reports.items verdict.now text.items) }
{
    if !show {
        return Ok(Vec::new(alloc));
    }
    match verdict {
        Verdict::Matches(_) => Ok(Vec::new(alloc)),
        Verdict::Differs(differences) => {
            nearest_of(alloc, judged, accepted, differences.as_slice())
        }
    }
}

/// What the nearest of accepted reports and the judged one tell where they differ; nothing where none is accepted.
fn nearest_of(
    alloc: Global,
    judged: &Reported,
    accepted: &Accepted,
    differences: &[(u64, u8)],
) -> Result<Vec<u8>, AllocError>
    requires many { length differences.now ≡ length accepted.now.reports.items }
    requires specs { length accepted.now.specs.items ≡ length accepted.now.reports.items }
    requires here { (here : Contents) × IsKept here judged.now.spec judged.now.report }
    requires there { (books : List Contents) × AreKept books accepted.now.specs.items accepted.now.reports.items }
    ensures { IfOk result (λ text. (here : Contents) → IsKept here judged.now.spec judged.now.report
        → (books : List Contents) → AreKept books accepted.now.specs.items accepted.now.reports.items
        → IsBeneathThese here judged.now.report books accepted.now.reports.items differences.now text.items) }
{
    let specs = accepted.specs.as_slice();
    let reports = accepted.reports.as_slice();
    match nearest(differences) {
        None => Ok(Vec::new(alloc)),
        Some(index) => shown(
            alloc,
            index,
            &specs[index],
            &reports[index],
            judged,
            differences[index],
        ),
    }
}

/// The number of the difference that stands furthest, the first of several.
fn nearest(differences: &[(u64, u8)]) -> Option<usize>
    ensures { MatchOption result (differences.now ≡ []) (IsNearest differences.now) }
{
    if differences.is_empty() {
        return None;
    }
    let mut found = 0;
    for index in 1..differences.len() {
        if is_further(differences[index], differences[found]) {
            found = index;
        }
    }
    Some(found)
}

/// Whether a difference stands further than another: at a greater rank, or at the same one in a greater session.
fn is_further(one: (u64, u8), other: (u64, u8)) -> bool
    ensures { IsTrue result ↔ IsFurther one other }
{
    let (rank, session) = one;
    let (other_rank, other_session) = other;
    rank > other_rank || (rank == other_rank && session > other_session)
}

/// The number of an accepted report, and what it and the judged one tell at a rank of a session.
fn shown(
    alloc: Global,
    index: usize,
    spec: &Spec,
    report: &Report,
    judged: &Reported,
    place: (u64, u8),
) -> Result<Vec<u8>, AllocError>
    requires there { IsOwn spec.now report.now }
    requires here { IsOwn judged.now.spec judged.now.report }
    ensures { IfOk result (λ text. text.items ≡ shown_text index spec.now report.now judged.now.spec judged.now.report place) }
{
    let mut text = Vec::new(alloc);
    push_numbered(&mut text, "nearest is ", index as u64)?;
    push_side(alloc, &mut text, "accepted: ", spec, report, place)?;
    push_side(
        alloc,
        &mut text,
        "here: ",
        &judged.spec,
        &judged.report,
        place,
    )?;
    Ok(text)
}

/// Adds what a report tells at a rank of a session, behind a word.
fn push_side(
    alloc: Global,
    text: &mut Vec<u8>,
    word: &str,
    spec: &Spec,
    report: &Report,
    place: (u64, u8),
) -> Result<(), AllocError>
    requires { IsOwn spec.now report.now }
    ensures { OnOk result (text.new.items ≡ text.old.items ++ side_text word.now spec.now report.now place) }
{
    push_text(text, word)?;
    match report.outcome(place.0) {
        None => push_numbered(text, "no rank ", place.0),
        Some(outcome) => push_outcome(alloc, text, spec, outcome, place),
    }
}

/// Adds the order of a rank, and what the rank's outcome tells of a session.
fn push_outcome(
    alloc: Global,
    text: &mut Vec<u8>,
    spec: &Spec,
    outcome: &Outcome,
    place: (u64, u8),
) -> Result<(), AllocError>
    requires rank { place.0 < ranks spec.now.run }
    requires own { IsOutcomeOf spec.now.run outcome.now }
    ensures { OnOk result (text.new.items ≡ text.old.items ++ outcome_part spec.now place outcome.now) }
{
    let (rank, session) = place;
    push_order(alloc, text, spec, rank)?;
    match outcome.sessions().get(session as usize) {
        None => push_numbered(text, "no session ", session as u64),
        Some(transcript) => push_transcript(alloc, text, spec, session as usize, transcript),
    }
}

/// Adds the names of the steps of a rank, in the order in which they are sent.
fn push_order(alloc: Global, text: &mut Vec<u8>, spec: &Spec, rank: u64) -> Result<(), AllocError>
    requires { rank < ranks spec.now.run }
    ensures { OnOk result (text.new.items ≡ text.old.items ++ order_text (names_of spec.now (line_of spec.now.run rank))) }
{
    let Some(line) = spec.line(rank) else {
        unreachable!()
    };
    let order = order_text(alloc, spec, line.as_slice())?;
    push_text(text, &order)
}

/// Adds a session, by its name and its events.
fn push_transcript(
    alloc: Global,
    text: &mut Vec<u8>,
    spec: &Spec,
    session: usize,
    transcript: &Transcript,
) -> Result<(), AllocError>
    requires session { session < spec.now.run.sessions }
    requires named { All (HasStep (length spec.now.run.steps)) transcript.now }
    ensures { OnOk result (text.new.items ≡ text.old.items ++ session_text spec.now.step_names (get_or spec.now.session_names session [], transcript.now)) }
{
    let told = transcript_text(alloc, spec, session, transcript)?;
    text.extend_from_slice(told.as_slice())
}

/// The text of a session: that of an outcome which has this one alone.
fn transcript_text(
    alloc: Global,
    spec: &Spec,
    session: usize,
    transcript: &Transcript,
) -> Result<Vec<u8>, AllocError>
    requires session { session < spec.now.run.sessions }
    requires named { All (HasStep (length spec.now.run.steps)) transcript.now }
    ensures { IfOk result (λ text. text.items ≡ session_text spec.now.step_names (get_or spec.now.session_names session [], transcript.now)) }
{
    let outcome = alone(alloc, transcript)?;
    let names = Names {
        // Those from this one on, of which there is one told.
        sessions: &spec.session_names()[session..],
        steps: spec.step_names(),
    };
    let mut out = Counted::new(Vec::new(alloc));
    match print(&outcome, &names, &mut out) {
        Ok(()) => Ok(out.into_inner()),
        // A text in memory is not written where there is none left.
        Err(_) => Err(AllocError),
    }
}

/// An outcome of one session.
fn alone(alloc: Global, transcript: &Transcript) -> Result<Outcome, AllocError>
    ensures { IfOk result (λ outcome. outcome ≡ transcript.now ∷ []) }
{
    let mut transcripts = Vec::new(alloc);
    let copy = transcript.fork()?;
    transcripts.push(copy)?;
    Outcome::new(alloc, transcripts)
}

/// Adds a number behind a word, and ends the line.
fn push_numbered(text: &mut Vec<u8>, word: &str, number: u64) -> Result<(), AllocError>
    ensures { OnOk result (text.new.items ≡ text.old.items ++ (word.now ++ number_line number)) }
{
    push_text(text, word)?;
    push_text(text, Buffer::new().format(number))?;
    push_text(text, "\n")
}

fn push_text(text: &mut Vec<u8>, part: &str) -> Result<(), AllocError>
    ensures { OnOk result (text.new.items ≡ text.old.items ++ part.now) }
{
    text.extend_from_slice(part.as_bytes())
}
