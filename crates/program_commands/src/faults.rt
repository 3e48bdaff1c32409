//! The program's faults for the faults of its calls.

ghost use Rattle.std.specs.Prelude.{◌≡◌, ◌≢◌, ◌++◌, ◌<◌, List, ℕ, Some, IfOk, codes, length, slice_get, string_bytes};
ghost use Rattle.spec_commands.specs.Ordering.{IsNamePlace};
ghost use Rattle.book_commands.specs.Joining.{IsPlaced};
ghost use Rattle.book_commands.specs.Judging.{IsAcceptedPlace};
ghost use Rattle.book_commands.specs.Missing.{IsMissingPlace};
ghost use Rattle.class_commands.specs.Booking.{IsPlacedIn};
ghost use Rattle.spec_findings.specs.Told.{AreTold};
ghost use Rattle.fault_texts.specs.declared.fault.ProgramFault.TheVariants.{NoMemory};
ghost use Rattle.program_commands.specs.Faults.{IsExplained, IsShowPlace, one_told, count_told, rank_told, order_told, show_told, asked_told, classing_told, look_told, outcomes_told, range_told, join_told, missing_told, report_told, audit_told, hold_told, judge_told, no_report_told};
ghost use Rattle.program_commands.specs.Faults.{values_told, file_told, level_told, book_told, write_told, spec_told, text_told, binding_told, run_told, start_told};

use asked_classes::AskedFault;
use book_commands::{
    AuditFault, FileFault, HoldFault, JoinFault, JudgeFault, MissingFault, NoReport, ReportFault,
    ReportFileFault,
};
use book_format::{BookError, WriteError};
use class_commands::{BookClassesFault, ClassesFault};
use class_looks::LookFault;
use fact_books::ReportError;
use fault_texts::ProgramFault;
use range_commands::RangeFault;
use session_machine::{RunError, StartError};
use spec_binding::{BindError, BindErrorKind, SpecFault};
use spec_commands::{CountFault, OneFault, OrderFault, RankFault, ShowFault};
use spec_findings::explained_faults;
use spec_levels::{LevelFault, LevelFaultKind};
use spec_reader::{SpecError, SpecErrorKind};
use std::alloc::{AllocError, Global};

/// The program's fault for a fault of one permutation of the file at a path.
pub fn fault_at(path: &str, fault: OneFault) -> ProgramFault<'_>
    ensures { result ≡ one_told path.entry fault }
{
    match fault {
        OneFault::Spec(fault) => spec_fault(path, fault),
        OneFault::OutOfRange => ProgramFault::RankOutOfRange { path },
        OneFault::Run(error) => run_fault(path, error),
        OneFault::Write(_) => ProgramFault::Write,
    }
}

pub(crate) fn count_fault(path: &str, fault: CountFault) -> ProgramFault<'_>
    ensures { result ≡ count_told path.entry fault }
{
    match fault {
        CountFault::Spec(fault) => spec_fault(path, fault),
        CountFault::Write(_) => ProgramFault::Write,
    }
}

/// The fault of a check: the line of a spec's fault, and behind it where in the file that is and what is wrong, there and at other statements.
/// Where there is no memory for these, want of memory is told in their place.
pub(crate) fn explained_fault<'a>(
    alloc: Global,
    path: &'a str,
    text: &[u8],
    fault: SpecFault,
) -> ProgramFault<'a>
    ensures { IsExplained path.entry text.now fault result }
{
    match spec_fault(path, fault) {
        ProgramFault::NoMemory => ProgramFault::NoMemory,
        line => explained_line(alloc, &line, path, text, fault),
    }
}

fn explained_line<'a>(
    alloc: Global,
    line: &ProgramFault<'_>,
    path: &'a str,
    text: &[u8],
    fault: SpecFault,
) -> ProgramFault<'a>
    requires { spec_told path fault ≢ NoMemory }
    ensures { IsExplained path.entry text.now fault result }
{
    match with_explanation(alloc, line, path, text, fault) {
        Ok(told) => ProgramFault::Explained { told },
        Err(_) => ProgramFault::NoMemory,
    }
}

/// A fault's line, and behind it what is explained of the file.
fn with_explanation(
    alloc: Global,
    line: &ProgramFault<'_>,
    path: &str,
    text: &[u8],
    fault: SpecFault,
) -> Result<String, AllocError>
    ensures { IfOk result (λ told. (line explained : List ℕ) × AreTold path.now text.now fault explained × (string_bytes told ≡ line ++ (codes "\n" ++ explained))) }
{
    let explained = explained_faults(alloc, path, text, fault)?;
    let line = format!(in alloc; "{line}")?;
    format!(in alloc; "{line}\n{explained}")
}

pub(crate) fn rank_fault<'a>(path: &'a str, names: &[&'a str], fault: RankFault) -> ProgramFault<'a>
    requires { IsNamePlace (length names.now) fault }
    ensures { rank_told path.entry names.now fault ≡ Some result }
{
    match fault {
        RankFault::Spec(fault) => spec_fault(path, fault),
        RankFault::UnknownStep(place) => ProgramFault::NoStep {
            path,
            name: word_at(names, place),
        },
        RankFault::Again(place) => ProgramFault::Twice {
            path,
            name: word_at(names, place),
        },
        RankFault::OutOfTurn { place, due } => ProgramFault::OutOfTurn {
            path,
            name: word_at(names, place),
            due,
        },
        RankFault::LeftOut(due) => ProgramFault::LeftOut { path, due },
        RankFault::NoLine => ProgramFault::NoLine { path },
        RankFault::NoMemory => ProgramFault::NoMemory,
        RankFault::Write(_) => ProgramFault::Write,
    }
}

pub(crate) fn order_fault(path: &str, fault: OrderFault) -> ProgramFault<'_>
    ensures { result ≡ order_told path.entry fault }
{
    match fault {
        OrderFault::Spec(fault) => spec_fault(path, fault),
        OrderFault::OutOfRange => ProgramFault::RankOutOfRange { path },
        OrderFault::NoMemory => ProgramFault::NoMemory,
        OrderFault::Write(_) => ProgramFault::Write,
    }
}

pub(crate) fn level_fault(path: &str, fault: LevelFault) -> ProgramFault<'_>
    ensures { result ≡ level_told path.entry fault.line fault.kind }
{
    let line = fault.line;
    match fault.kind {
        LevelFaultKind::NoSuchLevel => ProgramFault::NoSuchLevel { path, line },
        LevelFaultKind::SecondLevel => ProgramFault::SecondLevel { path, line },
        LevelFaultKind::NotModelled => ProgramFault::NotModelled { path, line },
    }
}

pub(crate) fn show_fault<'a>(path: &'a str, names: &[&'a str], fault: ShowFault) -> ProgramFault<'a>
    requires { IsShowPlace (length names.now) fault }
    ensures { show_told path.entry names.now fault ≡ Some result }
{
    match fault {
        ShowFault::Spec(fault) => spec_fault(path, fault),
        ShowFault::Level(fault) => level_fault(path, fault),
        ShowFault::NoRank(fault) => rank_fault(path, names, fault),
        ShowFault::OutOfRange => ProgramFault::RankOutOfRange { path },
        ShowFault::Run(error) => run_fault(path, error),
        ShowFault::NoMemory => ProgramFault::NoMemory,
        ShowFault::Write(_) => ProgramFault::Write,
    }
}

fn look_fault(text: &str, fault: LookFault) -> ProgramFault<'_>
    ensures { result ≡ look_told text.entry fault }
{
    match fault {
        LookFault::Sql(error) => ProgramFault::LookSql {
            text,
            kind: error.kind.number(),
            offset: error.offset as u64,
        },
        LookFault::NotOneSelect => ProgramFault::NotOneSelect { text },
        LookFault::Binding(error) => ProgramFault::LookBind {
            text,
            kind: error.kind.number(),
            offset: error.offset as u64,
        },
        LookFault::NoMemory => ProgramFault::NoMemory,
    }
}

fn asked_fault<'a>(path: &'a str, fault: AskedFault<'a>) -> ProgramFault<'a>
    ensures { result ≡ asked_told path.entry fault.entry }
{
    match fault {
        AskedFault::UnknownSession(name) => ProgramFault::NoSession { path, name },
        AskedFault::NotTold => ProgramFault::NoSerialOrders { path },
        AskedFault::NoLook(text, fault) => look_fault(text, fault),
        AskedFault::NoValue(word) => ProgramFault::NoValue { word },
        AskedFault::NoMemory => ProgramFault::NoMemory,
    }
}

pub(crate) fn classes_fault<'a>(path: &'a str, fault: ClassesFault<'a>) -> ProgramFault<'a>
    ensures { result ≡ classing_told path.entry fault.entry }
{
    match fault {
        ClassesFault::Spec(fault) => spec_fault(path, fault),
        ClassesFault::Level(fault) => level_fault(path, fault),
        ClassesFault::Asked(fault) => asked_fault(path, fault),
        ClassesFault::Run(error) => run_fault(path, error),
        ClassesFault::TooMany(noted) => ProgramFault::TooManyStates { path, noted },
        ClassesFault::NoMemory => ProgramFault::NoMemory,
        ClassesFault::Write(_) => ProgramFault::Write,
    }
}

pub(crate) fn range_fault(path: &str, fault: RangeFault) -> ProgramFault<'_>
    ensures { result ≡ range_told path.entry fault }
{
    match fault {
        RangeFault::Spec(fault) => spec_fault(path, fault),
        RangeFault::Run(error) => run_fault(path, error),
        RangeFault::Write(error) => write_fault(error),
    }
}

pub(crate) fn join_fault<'a>(paths: &[&'a str], fault: JoinFault) -> ProgramFault<'a>
    requires { IsPlaced (length paths.now) fault }
    ensures { join_told paths.now fault ≡ Some result }
{
    match fault {
        JoinFault::File { place, fault } => file_fault(word_at(paths, place), fault),
        JoinFault::OtherSpec { place } => ProgramFault::OtherSpec {
            path: word_at(paths, place),
        },
        JoinFault::NoMemory => ProgramFault::NoMemory,
        JoinFault::Write(error) => write_fault(error),
    }
}

pub(crate) fn outcomes_fault<'a>(paths: &[&'a str], fault: BookClassesFault) -> ProgramFault<'a>
    requires some { 0 < length paths.now }
    requires placed { IsPlacedIn (length paths.now) fault }
    ensures { outcomes_told paths.now fault ≡ Some result }
{
    match fault {
        BookClassesFault::Join(fault) => join_fault(paths, fault),
        BookClassesFault::Clash(rank) => ProgramFault::Clash {
            path: word_at(paths, 0),
            rank,
        },
        BookClassesFault::NoMemory => ProgramFault::NoMemory,
        BookClassesFault::Write(_) => ProgramFault::Write,
    }
}

pub(crate) fn missing_fault<'a>(paths: &[&'a str], fault: MissingFault) -> ProgramFault<'a>
    requires some { 0 < length paths.now }
    requires placed { IsMissingPlace (length paths.now) fault }
    ensures { missing_told paths.now fault ≡ Some result }
{
    match fault {
        MissingFault::Join(fault) => join_fault(paths, fault),
        MissingFault::Clash(rank) => ProgramFault::Clash {
            path: word_at(paths, 0),
            rank,
        },
        MissingFault::NoMemory => ProgramFault::NoMemory,
        MissingFault::Write(_) => ProgramFault::Write,
    }
}

/// The word at a place.
fn word_at<'a>(words: &[&'a str], place: usize) -> &'a str
    requires { place < length words.now }
    ensures { slice_get words.now place ≡ Some result }
{
    words[place]
}

pub(crate) fn report_fault(path: &str, fault: ReportFileFault) -> ProgramFault<'_>
    ensures { result ≡ report_told path.entry fault }
{
    match fault {
        ReportFileFault::File(fault) => file_fault(path, fault),
        ReportFileFault::Report(ReportFault::Report(error)) => values_fault(path, error),
        ReportFileFault::Report(ReportFault::Write(_)) => ProgramFault::Write,
    }
}

pub(crate) fn audit_fault(path: &str, fault: AuditFault) -> ProgramFault<'_>
    ensures { result ≡ audit_told path.entry fault }
{
    match fault {
        AuditFault::File(fault) => file_fault(path, fault),
        AuditFault::NoMemory => ProgramFault::NoMemory,
        AuditFault::Write(_) => ProgramFault::Write,
    }
}

pub(crate) fn hold_fault(path: &str, fault: HoldFault) -> ProgramFault<'_>
    ensures { result ≡ hold_told path.entry fault }
{
    match fault {
        HoldFault::File(fault) => file_fault(path, fault),
        HoldFault::Write(_) => ProgramFault::Write,
    }
}

pub(crate) fn judge_fault<'a>(
    path: &'a str,
    accepted: &[&'a str],
    fault: JudgeFault,
) -> ProgramFault<'a>
    requires { IsAcceptedPlace (length accepted.now) fault }
    ensures { judge_told path.entry accepted.now fault ≡ Some result }
{
    match fault {
        JudgeFault::Book(fault) => no_report_fault(path, fault),
        JudgeFault::Accepted { place, fault } => no_report_fault(word_at(accepted, place), fault),
        JudgeFault::NoMemory => ProgramFault::NoMemory,
        JudgeFault::Write(_) => ProgramFault::Write,
    }
}

fn no_report_fault(path: &str, fault: NoReport) -> ProgramFault<'_>
    ensures { result ≡ no_report_told path.entry fault }
{
    match fault {
        NoReport::File(fault) => file_fault(path, fault),
        NoReport::Report(error) => values_fault(path, error),
    }
}

fn values_fault(path: &str, error: ReportError) -> ProgramFault<'_>
    ensures { result ≡ values_told path.entry error }
{
    match error {
        ReportError::TooMany => ProgramFault::TooManyRanks { path },
        ReportError::Missing(rank) => ProgramFault::Missing { path, rank },
        ReportError::Clash(rank) => ProgramFault::Clash { path, rank },
        ReportError::NoMemory => ProgramFault::NoMemory,
    }
}

fn file_fault(path: &str, fault: FileFault) -> ProgramFault<'_>
    ensures { result ≡ file_told path.entry fault }
{
    match fault {
        FileFault::Unopened => ProgramFault::Read { path },
        FileFault::Book(error) => book_fault(path, error),
    }
}

#[tactic(auto, using(crate::proofs::FaultLemmas::book_other))]
fn book_fault(path: &str, error: BookError) -> ProgramFault<'_>
    ensures { result ≡ book_told path.entry error }
{
    match error {
        BookError::NoMemory => ProgramFault::NoMemory,
        BookError::ReadFault => ProgramFault::Read { path },
        error => ProgramFault::Book {
            path,
            kind: error.number(),
        },
    }
}

fn write_fault<'a>(error: WriteError) -> ProgramFault<'a>
    ensures { result ≡ write_told error }
{
    match error {
        WriteError::TooLarge => ProgramFault::BookTooLarge,
        WriteError::NoMemory => ProgramFault::NoMemory,
        WriteError::WriteFault => ProgramFault::Write,
    }
}

fn spec_fault(path: &str, fault: SpecFault) -> ProgramFault<'_>
    ensures { result ≡ spec_told path.entry fault }
{
    match fault {
        SpecFault::Text(error) => text_fault(path, error),
        SpecFault::Binding(error) => bind_fault(path, error),
    }
}

#[tactic(auto, using(crate::proofs::FaultLemmas::text_other))]
fn text_fault(path: &str, error: SpecError) -> ProgramFault<'_>
    ensures { result ≡ text_told path.entry error.offset error.kind }
{
    match error.kind {
        SpecErrorKind::NoMemory => ProgramFault::NoMemory,
        kind => ProgramFault::Spec {
            path,
            kind: kind.number(),
            offset: error.offset as u64,
        },
    }
}

#[tactic(auto, using(crate::proofs::FaultLemmas::binding_other))]
fn bind_fault(path: &str, error: BindError) -> ProgramFault<'_>
    ensures { result ≡ binding_told path.entry error.offset error.kind }
{
    let offset = error.offset as u64;
    match error.kind {
        BindErrorKind::NoMemory => ProgramFault::NoMemory,
        BindErrorKind::Sql(kind) => ProgramFault::Sql {
            path,
            kind: kind.number(),
            offset,
        },
        kind => ProgramFault::Bind {
            path,
            kind: kind.number(),
            offset,
        },
    }
}

fn run_fault(path: &str, error: RunError) -> ProgramFault<'_>
    ensures { result ≡ run_told path.entry error }
{
    match error {
        RunError::OutOfRange => ProgramFault::Shard { path, kind: 1 },
        RunError::TooLong => ProgramFault::Shard { path, kind: 2 },
        RunError::Start(error) => start_fault(path, error),
        RunError::NoMemory | RunError::TooDeep => ProgramFault::NoMemory,
    }
}

fn start_fault(path: &str, error: StartError) -> ProgramFault<'_>
    ensures { result ≡ start_told path.entry error }
{
    let kind = error.number();
    match error {
        StartError::SetupFailed { block } => ProgramFault::Start {
            path,
            kind,
            number: block,
        },
        StartError::SessionSetupFailed { session } | StartError::SessionSetupWaits { session } => {
            ProgramFault::Start {
                path,
                kind,
                number: session,
            }
        }
        StartError::NoMemory => ProgramFault::NoMemory,
    }
}
