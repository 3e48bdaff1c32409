//! What the program does for the words of a command line.

ghost use Rattle.std.specs.Prelude.{◌≡◌, ◌<◌, ◌⊎◌, length, map, Ok, Some, OnOk, IfErr, false, string_bytes};
ghost use Rattle.clap.specs.Words.{kind_of};
ghost use Rattle.clap.specs.declared.error.ErrorKind.TheVariants.{OutOfMemory};
ghost use Rattle.transcripts.specs.Counted.{Wrote, failures_of};
ghost use Rattle.transcripts.specs.declared.counted.Counted.{Counted};
ghost use Rattle.spec_commands.specs.One.{IsOneRun};
ghost use Rattle.spec_commands.specs.Counting.{IsCounted};
ghost use Rattle.spec_checks.specs.Checking.{IsChecked};
ghost use Rattle.spec_commands.specs.Ordering.{IsOrdered, IsRanked};
ghost use Rattle.spec_commands.specs.Showing.{IsShowRun};
ghost use Rattle.spec_commands.specs.declared.showing.WantedOrder.{WantedOrder};
ghost use Rattle.class_commands.specs.Classing.{IsClassesRun};
ghost use Rattle.class_commands.specs.Levels.{IsLevelsRun};
ghost use Rattle.class_commands.specs.Booking.{IsBookClassesRun};
ghost use Rattle.book_commands.specs.Finding.{finding_status};
ghost use Rattle.book_commands.specs.Joining.{IsJoinRun};
ghost use Rattle.book_commands.specs.Reporting.{IsFileReported};
ghost use Rattle.book_commands.specs.Auditing.{IsAuditRun};
ghost use Rattle.book_commands.specs.Judging.{IsJudgeRun};
ghost use Rattle.book_commands.specs.Holding.{IsHoldRun};
ghost use Rattle.book_commands.specs.Missing.{IsMissingRun};
ghost use Rattle.range_commands.specs.Ranges.{IsRangeRun, IsRunOfAll};
ghost use Rattle.fault_texts.specs.Status.{status_of};
ghost use Rattle.program_commands.specs.Faults.{one_told, count_told, rank_told, order_told, show_told, classing_told, outcomes_told, range_told, join_told, missing_told, report_told, audit_told, hold_told, judge_told, IsCheckTold};
ghost use Rattle.fault_texts.specs.declared.fault.ProgramFault.TheVariants.{Write as WriteFault};
ghost use Rattle.program_commands.specs.Commands.{IsAnswered, IsCut, IsDone, IsCalled, IsFlushed, IsFound, IsFoundBy, IsPassedOn, IsRun, IsRunOf, IsSame, IsTold, IsUnread, IsUsage, form_by, missing_by, names_in, tells_progress};

use crate::faults::{
    audit_fault, classes_fault, count_fault, explained_fault, fault_at, hold_fault, join_fault,
    judge_fault, level_fault, missing_fault, order_fault, outcomes_fault, range_fault, rank_fault,
    report_fault, show_fault,
};
use crate::files::read_spec_file;
use crate::testing::{TestWords, test_of_files};
use book_commands::{
    Finding, MissingRanks, Opener, audit_file, hold_file, join_files, judge_files, missing_files,
    report_file,
};
use bound_statements::Level;
use clap::Error;
use clap::error::ErrorKind;
use class_commands::{Telling, book_classes, both_levels_told, classes_told};
use command_line::{Asked, Wanted, WantedRanks, parse_words};
use fault_texts::ProgramFault;
use range_commands::{run_all, run_told};
use shard_board::Workers;
use spec_checks::{CheckFault, check};
use spec_commands::{ShowForm, WantedOrder, count, one, order, rank, show};
use std::alloc::Global;
use std::io::{self, Write};
use std::sync::Wait;
use std::thread::Threads;
use std::time::Clock;
use test_commands::Folder;
use transcripts::{Counted, say};
use wanted_classes::{WantedClasses, WantedLevels, WantedOutcomes};

/// Does what the words ask, the first of which is the program's name. What is asked for goes to `out`; faults go to `err`, and so does how far a
/// run is, where that is asked for: of classes on one line that is written over, where `err` is a terminal. The answer is the exit status: 0 good, 1 where a rank has not exactly one value, ranks are missing,
/// a fact is false or no accepted report is equal, 2 for a fault of the command line, 3 for what is refused, 4 for want of memory, 5 for a read or write fault.
pub fn run<R: Threads + Wait + Clock + Sync, O: Folder + Sync, W: Write, E: Write + Send>(
    rt: &R,
    alloc: Global,
    words: &[String],
    opener: &O,
    is_terminal: bool,
    out: &mut Counted<W>,
    err: &mut Counted<E>,
) -> u8
where
    O::Reader: Send,
    requires { failures_of out.old ≡ 0 }
    ensures { IsRun (O.bytes opener.now) (map string_bytes words.now) W.contents out.old out.new err.old err.new result }
{
    let asked = match parse_words(alloc, words) {
        Ok(asked) => asked,
        Err(error) => return tell_usage(alloc, &error, out, err),
    };
    match answer(rt, alloc, &asked, opener, is_terminal, out, err) {
        Ok(finding) => finding.status(),
        Err(fault) => tell_fault(alloc, &fault, err),
    }
}

/// Does what is asked. Where that is done, nothing of it is held back. Only a run that is to tell how far it is writes to `err`.
pub fn answer<'a, R: Threads + Wait + Clock + Sync, O: Folder + Sync, W: Write, E: Write + Send>(
    rt: &R,
    alloc: Global,
    asked: &Asked<'a>,
    opener: &O,
    is_terminal: bool,
    out: &mut Counted<W>,
    err: &mut Counted<E>,
) -> Result<Finding, ProgramFault<'a>>
where
    O::Reader: Send,
    requires { failures_of out.old ≡ 0 }
    ensures answer { IsAnswered (O.bytes opener.now) W.contents out.old out.new asked.now result }
    ensures quiet { tells_progress asked.now ≡ false → err.new ≡ err.old }
{
    match work(rt, alloc, asked, opener, is_terminal, out, err) {
        Ok(finding) => flushed(finding, out),
        Err(fault) => Err(fault),
    }
}

/// Writes what is asked for; some of it may be held back.
fn work<'a, R: Threads + Wait + Clock + Sync, O: Folder + Sync, W: Write, E: Write + Send>(
    rt: &R,
    alloc: Global,
    asked: &Asked<'a>,
    opener: &O,
    is_terminal: bool,
    out: &mut Counted<W>,
    err: &mut Counted<E>,
) -> Result<Finding, ProgramFault<'a>>
where
    O::Reader: Send,
    requires { failures_of out.old ≡ 0 }
    ensures done { IsDone (O.bytes opener.now) W.contents out.old out.new asked.now result }
    ensures failures { OnOk result (failures_of out.new ≡ 0) }
    ensures quiet { tells_progress asked.now ≡ false → err.new ≡ err.old }
{
    match asked {
        Asked::One { path, rank } => one_of_file(alloc, path, *rank, opener, out),
        Asked::Check { path } => check_of_file(alloc, path, opener, out),
        Asked::Count { path } => count_of_file(alloc, path, opener, out),
        Asked::Rank { path, names } => rank_of_file(alloc, path, names.as_slice(), opener, out),
        Asked::Order { path, rank } => order_of_file(alloc, path, *rank, opener, out),
        Asked::Show {
            path,
            order,
            json,
            level,
        } => show_of_file(alloc, path, order, *json, *level, opener, out),
        Asked::Classes {
            path,
            wanted,
            progress,
        } => {
            let telling = telling_of(*progress, is_terminal);
            classes_of_file(rt, alloc, path, wanted, telling, opener, out, err)
        }
        Asked::Levels {
            path,
            wanted,
            progress,
        } => {
            let telling = telling_of(*progress, is_terminal);
            levels_of_file(rt, alloc, path, wanted, telling, opener, out, err)
        }
        Asked::Outcomes { paths, wanted } => {
            outcomes_of_files(alloc, paths.as_slice(), wanted, opener, out)
        }
        Asked::Run {
            path,
            ranks,
            every,
            workers,
            progress,
        } => run_of_file(
            rt, alloc, path, *ranks, !*every, workers, *progress, opener, out, err,
        ),
        Asked::Join { paths } => join_of_files(alloc, paths.as_slice(), opener, out),
        Asked::Missing { paths, lines } => {
            missing_of_files(alloc, paths.as_slice(), *lines, opener, out)
        }
        Asked::Holds {
            path,
            spec,
            first,
            end,
        } => holding_of_file(alloc, path, spec, *first, *end, opener, out),
        Asked::Report { path } => report_of_file(alloc, path, opener, out),
        Asked::Audit { path } => audit_of_file(rt, alloc, path, opener, out),
        Asked::Judge {
            path,
            accepted,
            show,
        } => judge_of_files(alloc, path, accepted.as_slice(), *show, opener, out),
        Asked::Test {
            paths,
            updates,
            junit,
            workers,
            level,
        } => {
            let told = TestWords {
                paths: paths.as_slice(),
                updates: *updates,
                junit: *junit,
                level: *level,
            };
            test_of_files(rt, alloc, &told, workers, opener, out)
        }
    }
}

fn one_of_file<'a, O: Opener, W: Write>(
    alloc: Global,
    path: &'a str,
    rank: u64,
    opener: &O,
    out: &mut Counted<W>,
) -> Result<Finding, ProgramFault<'a>>
    requires { failures_of out.old ≡ 0 }
    ensures done { IsUnread (O.bytes opener.now path.now) path.now out.old out.new result ⊎ IsCalled (O.bytes opener.now path.now) (λ bytes. IsOneRun W.contents out.old out.new bytes rank) (λ bytes error told. told ≡ one_told path.entry error) result }
    ensures failures { OnOk result (failures_of out.new ≡ 0) }
{
    let bytes = match read_spec_file(alloc, opener, path) {
        Ok(bytes) => bytes,
        Err(fault) => return Err(fault),
    };
    match one(alloc, bytes.as_slice(), rank, out) {
        Ok(()) => Ok(Finding::Good),
        Err(fault) => Err(fault_at(path, fault)),
    }
}

fn check_of_file<'a, O: Opener, W: Write>(
    alloc: Global,
    path: &'a str,
    opener: &O,
    out: &mut Counted<W>,
) -> Result<Finding, ProgramFault<'a>>
    requires { failures_of out.old ≡ 0 }
    ensures done { IsUnread (O.bytes opener.now path.now) path.now out.old out.new result ⊎ IsCalled (O.bytes opener.now path.now) (IsChecked W.contents out.old out.new) (IsCheckTold path.entry) result }
    ensures failures { OnOk result (failures_of out.new ≡ 0) }
{
    let bytes = match read_spec_file(alloc, opener, path) {
        Ok(bytes) => bytes,
        Err(fault) => return Err(fault),
    };
    match check(alloc, bytes.as_slice(), out) {
        Ok(()) => Ok(Finding::Good),
        Err(CheckFault::Spec(fault)) => Err(explained_fault(alloc, path, bytes.as_slice(), fault)),
        Err(CheckFault::Level(fault)) => Err(level_fault(path, fault)),
        Err(CheckFault::NoMemory) => Err(ProgramFault::NoMemory),
        Err(CheckFault::Write(_)) => Err(ProgramFault::Write),
    }
}

fn count_of_file<'a, O: Opener, W: Write>(
    alloc: Global,
    path: &'a str,
    opener: &O,
    out: &mut Counted<W>,
) -> Result<Finding, ProgramFault<'a>>
    requires { failures_of out.old ≡ 0 }
    ensures done { IsUnread (O.bytes opener.now path.now) path.now out.old out.new result ⊎ IsCalled (O.bytes opener.now path.now) (IsCounted W.contents out.old out.new) (λ bytes error told. told ≡ count_told path.entry error) result }
    ensures failures { OnOk result (failures_of out.new ≡ 0) }
{
    let bytes = match read_spec_file(alloc, opener, path) {
        Ok(bytes) => bytes,
        Err(fault) => return Err(fault),
    };
    match count(alloc, bytes.as_slice(), out) {
        Ok(()) => Ok(Finding::Good),
        Err(fault) => Err(count_fault(path, fault)),
    }
}

fn rank_of_file<'a, O: Opener, W: Write>(
    alloc: Global,
    path: &'a str,
    names: &[&'a str],
    opener: &O,
    out: &mut Counted<W>,
) -> Result<Finding, ProgramFault<'a>>
    requires { failures_of out.old ≡ 0 }
    ensures done { IsUnread (O.bytes opener.now path.now) path.now out.old out.new result ⊎ IsCalled (O.bytes opener.now path.now) (λ bytes. IsRanked W.contents out.old out.new bytes (map (λ p. p.now) names.now)) (λ bytes error told. rank_told path.entry names.now error ≡ Some told) result }
    ensures failures { OnOk result (failures_of out.new ≡ 0) }
{
    let bytes = match read_spec_file(alloc, opener, path) {
        Ok(bytes) => bytes,
        Err(fault) => return Err(fault),
    };
    match rank(alloc, bytes.as_slice(), names, out) {
        Ok(()) => Ok(Finding::Good),
        Err(fault) => Err(rank_fault(path, names, fault)),
    }
}

fn order_of_file<'a, O: Opener, W: Write>(
    alloc: Global,
    path: &'a str,
    rank: u64,
    opener: &O,
    out: &mut Counted<W>,
) -> Result<Finding, ProgramFault<'a>>
    requires { failures_of out.old ≡ 0 }
    ensures done { IsUnread (O.bytes opener.now path.now) path.now out.old out.new result ⊎ IsCalled (O.bytes opener.now path.now) (λ bytes. IsOrdered W.contents out.old out.new bytes rank) (λ bytes error told. told ≡ order_told path.entry error) result }
    ensures failures { OnOk result (failures_of out.new ≡ 0) }
{
    let bytes = match read_spec_file(alloc, opener, path) {
        Ok(bytes) => bytes,
        Err(fault) => return Err(fault),
    };
    match order(alloc, bytes.as_slice(), rank, out) {
        Ok(()) => Ok(Finding::Good),
        Err(fault) => Err(order_fault(path, fault)),
    }
}

fn show_of_file<'a, O: Opener, W: Write>(
    alloc: Global,
    path: &'a str,
    order: &Wanted<'a>,
    json: bool,
    level: Option<Level>,
    opener: &O,
    out: &mut Counted<W>,
) -> Result<Finding, ProgramFault<'a>>
    requires { failures_of out.old ≡ 0 }
    ensures done { IsUnread (O.bytes opener.now path.now) path.now out.old out.new result ⊎ ((wanted : WantedOrder) × IsSame order.now wanted × IsCalled (O.bytes opener.now path.now) (λ bytes. IsShowRun W.contents out.old out.new bytes path.now wanted (form_by json) level) (λ bytes error told. show_told path.entry (names_in order.now) error ≡ Some told) result) }
    ensures failures { OnOk result (failures_of out.new ≡ 0) }
{
    let bytes = match read_spec_file(alloc, opener, path) {
        Ok(bytes) => bytes,
        Err(fault) => return Err(fault),
    };
    let wanted = wanted_of(order);
    match show(
        alloc,
        bytes.as_slice(),
        path,
        wanted,
        form_of(json),
        level,
        out,
    ) {
        Ok(()) => Ok(Finding::Good),
        Err(fault) => Err(show_fault(path, names_of(order), fault)),
    }
}

/// The order, as a call is asked for it.
fn wanted_of<'w>(order: &'w Wanted<'_>) -> WantedOrder<'w>
    ensures { IsSame order.now result }
{
    match order {
        Wanted::Rank(rank) => WantedOrder::Rank(*rank),
        Wanted::Names(names) => WantedOrder::Names(names.as_slice()),
    }
}

/// The names of an order; a rank has none.
fn names_of<'w, 'a>(order: &'w Wanted<'a>) -> &'w [&'a str]
    ensures { result.now ≡ names_in order.now }
{
    match order {
        Wanted::Rank(_) => &[],
        Wanted::Names(names) => names.as_slice(),
    }
}

fn form_of(json: bool) -> ShowForm
    ensures { result ≡ form_by json }
{
    if json { ShowForm::Json } else { ShowForm::Text }
}

/// How it is told how far the exploring of states is, if that is wanted.
fn telling_of(is_wanted: bool, is_terminal: bool) -> Telling
    ensures { is_wanted ≡ false → result ≡ Telling.Silent }
{
    match (is_wanted, is_terminal) {
        (false, _) => Telling::Silent,
        (true, false) => Telling::Lines,
        (true, true) => Telling::OneLine,
    }
}

fn classes_of_file<'a, C: Clock, O: Opener, W: Write, E: Write>(
    clock: &C,
    alloc: Global,
    path: &'a str,
    wanted: &WantedClasses<'a>,
    telling: Telling,
    opener: &O,
    out: &mut Counted<W>,
    err: &mut Counted<E>,
) -> Result<Finding, ProgramFault<'a>>
    requires { failures_of out.old ≡ 0 }
    ensures done { IsUnread (O.bytes opener.now path.now) path.now out.old out.new result ⊎ IsFoundBy (O.bytes opener.now path.now) (λ bytes. IsClassesRun W.contents out.old out.new bytes path.now wanted.now) (λ error told. told ≡ classing_told path.entry error) result }
    ensures failures { OnOk result (failures_of out.new ≡ 0) }
    ensures quiet { telling ≡ Telling.Silent → err.new ≡ err.old }
{
    let bytes = match read_spec_file(alloc, opener, path) {
        Ok(bytes) => bytes,
        Err(fault) => return Err(fault),
    };
    match classes_told(
        clock,
        alloc,
        bytes.as_slice(),
        path,
        wanted,
        telling,
        out,
        err,
    ) {
        Ok(finding) => Ok(finding),
        Err(fault) => Err(classes_fault(path, fault)),
    }
}

fn levels_of_file<'a, C: Clock, O: Opener, W: Write, E: Write>(
    clock: &C,
    alloc: Global,
    path: &'a str,
    wanted: &WantedLevels,
    telling: Telling,
    opener: &O,
    out: &mut Counted<W>,
    err: &mut Counted<E>,
) -> Result<Finding, ProgramFault<'a>>
    requires { failures_of out.old ≡ 0 }
    ensures done { IsUnread (O.bytes opener.now path.now) path.now out.old out.new result ⊎ IsCalled (O.bytes opener.now path.now) (λ bytes. IsLevelsRun W.contents out.old out.new bytes path.now wanted.now) (λ bytes error told. told ≡ classing_told path.entry error) result }
    ensures failures { OnOk result (failures_of out.new ≡ 0) }
    ensures quiet { telling ≡ Telling.Silent → err.new ≡ err.old }
{
    let bytes = match read_spec_file(alloc, opener, path) {
        Ok(bytes) => bytes,
        Err(fault) => return Err(fault),
    };
    match both_levels_told(
        clock,
        alloc,
        bytes.as_slice(),
        path,
        wanted,
        telling,
        out,
        err,
    ) {
        Ok(()) => Ok(Finding::Good),
        Err(fault) => Err(classes_fault(path, fault)),
    }
}

fn run_of_file<'a, R: Threads + Wait + Clock + Sync, O: Opener, W: Write, E: Write + Send>(
    rt: &R,
    alloc: Global,
    path: &'a str,
    ranks: WantedRanks,
    reduce: bool,
    workers: &Workers,
    is_told: bool,
    opener: &O,
    out: &mut Counted<W>,
    err: &mut Counted<E>,
) -> Result<Finding, ProgramFault<'a>>
    requires { failures_of out.old ≡ 0 }
    ensures done { IsUnread (O.bytes opener.now path.now) path.now out.old out.new result ⊎ IsCalled (O.bytes opener.now path.now) (λ bytes. IsRunOf W.contents out.old out.new bytes ranks reduce) (λ bytes error told. told ≡ range_told path.entry error) result }
    ensures failures { OnOk result (failures_of out.new ≡ 0) }
    ensures quiet { is_told ≡ false → err.new ≡ err.old }
{
    match ranks {
        WantedRanks::All => all_of_file(
            rt, alloc, path, reduce, workers, is_told, opener, out, err,
        ),
        WantedRanks::Range { first, end } => range_of_file(
            rt, alloc, path, first, end, reduce, workers, is_told, opener, out, err,
        ),
    }
}

fn all_of_file<'a, R: Threads + Wait + Clock + Sync, O: Opener, W: Write, E: Write + Send>(
    rt: &R,
    alloc: Global,
    path: &'a str,
    reduce: bool,
    workers: &Workers,
    is_told: bool,
    opener: &O,
    out: &mut Counted<W>,
    err: &mut Counted<E>,
) -> Result<Finding, ProgramFault<'a>>
    requires { failures_of out.old ≡ 0 }
    ensures done { IsUnread (O.bytes opener.now path.now) path.now out.old out.new result ⊎ IsCalled (O.bytes opener.now path.now) (λ bytes. IsRunOfAll W.contents out.old out.new bytes reduce) (λ bytes error told. told ≡ range_told path.entry error) result }
    ensures failures { OnOk result (failures_of out.new ≡ 0) }
    ensures quiet { is_told ≡ false → err.new ≡ err.old }
{
    let bytes = match read_spec_file(alloc, opener, path) {
        Ok(bytes) => bytes,
        Err(fault) => return Err(fault),
    };
    match run_all(
        rt,
        alloc,
        bytes.as_slice(),
        reduce,
        workers,
        is_told,
        out,
        err,
    ) {
        Ok(()) => Ok(Finding::Good),
        Err(fault) => Err(range_fault(path, fault)),
    }
}

fn range_of_file<'a, R: Threads + Wait + Clock + Sync, O: Opener, W: Write, E: Write + Send>(
    rt: &R,
    alloc: Global,
    path: &'a str,
    first: u64,
    end: u64,
    reduce: bool,
    workers: &Workers,
    is_told: bool,
    opener: &O,
    out: &mut Counted<W>,
    err: &mut Counted<E>,
) -> Result<Finding, ProgramFault<'a>>
    requires { failures_of out.old ≡ 0 }
    ensures done { IsUnread (O.bytes opener.now path.now) path.now out.old out.new result ⊎ IsCalled (O.bytes opener.now path.now) (λ bytes. IsRangeRun W.contents out.old out.new bytes first end reduce) (λ bytes error told. told ≡ range_told path.entry error) result }
    ensures failures { OnOk result (failures_of out.new ≡ 0) }
    ensures quiet { is_told ≡ false → err.new ≡ err.old }
{
    let bytes = match read_spec_file(alloc, opener, path) {
        Ok(bytes) => bytes,
        Err(fault) => return Err(fault),
    };
    match run_told(
        rt,
        alloc,
        bytes.as_slice(),
        first,
        end,
        reduce,
        workers,
        is_told,
        out,
        err,
    ) {
        Ok(()) => Ok(Finding::Good),
        Err(fault) => Err(range_fault(path, fault)),
    }
}

fn join_of_files<'a, O: Opener, W: Write>(
    alloc: Global,
    paths: &[&'a str],
    opener: &O,
    out: &mut Counted<W>,
) -> Result<Finding, ProgramFault<'a>>
    requires some { 0 < length paths.now }
    requires fresh { failures_of out.old ≡ 0 }
    ensures done { IsTold (IsJoinRun (O.bytes opener.now) (map (λ p. p.now) paths.now) W.contents out.old out.new) (λ error told. join_told paths.now error ≡ Some told) result }
    ensures failures { OnOk result (failures_of out.new ≡ 0) }
{
    match join_files(alloc, opener, paths, out) {
        Ok(()) => Ok(Finding::Good),
        Err(fault) => Err(join_fault(paths, fault)),
    }
}

fn missing_of_files<'a, O: Opener, W: Write>(
    alloc: Global,
    paths: &[&'a str],
    lines: bool,
    opener: &O,
    out: &mut Counted<W>,
) -> Result<Finding, ProgramFault<'a>>
    requires some { 0 < length paths.now }
    requires fresh { failures_of out.old ≡ 0 }
    ensures done { IsFound (IsMissingRun (O.bytes opener.now) (map (λ p. p.now) paths.now) (missing_by lines) W.contents out.old out.new) (λ error told. missing_told paths.now error ≡ Some told) result }
    ensures failures { OnOk result (failures_of out.new ≡ 0) }
{
    match missing_files(alloc, opener, paths, missing_ranks(lines), out) {
        Ok(finding) => Ok(finding),
        Err(fault) => Err(missing_fault(paths, fault)),
    }
}

/// Which ranks are asked for: lines are for what runs them.
fn missing_ranks(lines: bool) -> MissingRanks
    ensures { result ≡ missing_by lines }
{
    if lines {
        MissingRanks::ToRun
    } else {
        MissingRanks::Untold
    }
}

fn outcomes_of_files<'a, O: Opener, W: Write>(
    alloc: Global,
    paths: &[&'a str],
    wanted: &WantedOutcomes,
    opener: &O,
    out: &mut Counted<W>,
) -> Result<Finding, ProgramFault<'a>>
    requires some { 0 < length paths.now }
    requires fresh { failures_of out.old ≡ 0 }
    ensures done { IsTold (IsBookClassesRun (O.bytes opener.now) (map (λ p. p.now) paths.now) W.contents out.old out.new wanted.now) (λ error told. outcomes_told paths.now error ≡ Some told) result }
    ensures failures { OnOk result (failures_of out.new ≡ 0) }
{
    match book_classes(alloc, opener, paths, wanted, out) {
        Ok(()) => Ok(Finding::Good),
        Err(fault) => Err(outcomes_fault(paths, fault)),
    }
}

fn holding_of_file<'a, O: Opener, W: Write>(
    alloc: Global,
    path: &'a str,
    spec: &'a str,
    first: u64,
    end: u64,
    opener: &O,
    out: &mut Counted<W>,
) -> Result<Finding, ProgramFault<'a>>
    requires { failures_of out.old ≡ 0 }
    ensures done { IsUnread (O.bytes opener.now spec.now) spec.now out.old out.new result ⊎ IsFoundBy (O.bytes opener.now spec.now) (λ bytes. IsHoldRun (O.bytes opener.now path.now) bytes first end W.contents out.old out.new) (λ error told. told ≡ hold_told path.entry error) result }
    ensures failures { OnOk result (failures_of out.new ≡ 0) }
{
    let bytes = match read_spec_file(alloc, opener, spec) {
        Ok(bytes) => bytes,
        Err(fault) => return Err(fault),
    };
    match hold_file(alloc, opener, path, bytes.as_slice(), first, end, out) {
        Ok(finding) => Ok(finding),
        Err(fault) => Err(hold_fault(path, fault)),
    }
}

fn report_of_file<'a, O: Opener, W: Write>(
    alloc: Global,
    path: &'a str,
    opener: &O,
    out: &mut Counted<W>,
) -> Result<Finding, ProgramFault<'a>>
    requires { failures_of out.old ≡ 0 }
    ensures done { IsTold (IsFileReported (O.bytes opener.now path.now) W.contents out.old out.new) (λ error told. told ≡ report_told path.entry error) result }
    ensures failures { OnOk result (failures_of out.new ≡ 0) }
{
    match report_file(alloc, opener, path, out) {
        Ok(()) => Ok(Finding::Good),
        Err(fault) => Err(report_fault(path, fault)),
    }
}

fn audit_of_file<'a, R: Threads + Sync, O: Opener, W: Write>(
    threads: &R,
    alloc: Global,
    path: &'a str,
    opener: &O,
    out: &mut Counted<W>,
) -> Result<Finding, ProgramFault<'a>>
    requires { failures_of out.old ≡ 0 }
    ensures done { IsFound (IsAuditRun (O.bytes opener.now path.now) W.contents out.old out.new) (λ error told. told ≡ audit_told path.entry error) result }
    ensures failures { OnOk result (failures_of out.new ≡ 0) }
{
    match audit_file(threads, alloc, opener, path, out) {
        Ok(finding) => Ok(finding),
        Err(fault) => Err(audit_fault(path, fault)),
    }
}

fn judge_of_files<'a, O: Opener, W: Write>(
    alloc: Global,
    path: &'a str,
    accepted: &[&'a str],
    show: bool,
    opener: &O,
    out: &mut Counted<W>,
) -> Result<Finding, ProgramFault<'a>>
    requires { failures_of out.old ≡ 0 }
    ensures done { IsFound (IsJudgeRun (O.bytes opener.now) path.now (map (λ p. p.now) accepted.now) show W.contents out.old out.new) (λ error told. judge_told path.entry accepted.now error ≡ Some told) result }
    ensures failures { OnOk result (failures_of out.new ≡ 0) }
{
    match judge_files(alloc, opener, path, accepted, show, out) {
        Ok(finding) => Ok(finding),
        Err(fault) => Err(judge_fault(path, accepted, fault)),
    }
}

/// Writes a text, with nothing held back.
fn written<'a, W: Write>(text: &str, out: &mut Counted<W>) -> Result<(), ProgramFault<'a>>
    requires { failures_of out.old ≡ 0 }
    ensures whole { OnOk result ((between : Counted W) × Wrote W.contents out.old between text.now × IsFlushed W.contents between out.new) }
    ensures fault { IfErr result (λ fault. (fault ≡ WriteFault) × IsCut W.contents out.old out.new text.now) }
{
    match out.write_str(text) {
        Ok(()) => flushed((), out),
        Err(_fault) => Err(ProgramFault::Write),
    }
}

/// Has everything written that is held back, and then gives the answer.
fn flushed<'a, X: Copy, W: Write>(answer: X, out: &mut Counted<W>) -> Result<X, ProgramFault<'a>>
    requires { failures_of out.old < u64.MAX }
    ensures { IsPassedOn W.contents out.old out.new (Ok answer) result }
{
    match out.flush() {
        Ok(()) => Ok(answer),
        Err(_fault) => Err(ProgramFault::Write),
    }
}

/// Writes the fault's line and gives its status. Where there is no memory for the line, that is told in its place.
fn tell_fault<E: Write>(alloc: Global, fault: &ProgramFault<'_>, err: &mut Counted<E>) -> u8
    ensures { (result ≡ status_of fault.now) ⊎ (result ≡ 4) }
{
    match format!(in alloc; "{fault}\n") {
        Ok(line) => {
            say(line.as_str(), err);
            fault.status()
        }
        Err(_) => tell_no_memory(err),
    }
}

/// Writes that memory ran out, without any, and gives the status.
fn tell_no_memory<E: Write>(err: &mut Counted<E>) -> u8
    ensures { result ≡ 4 }
{
    say("isofarm: no memory\n", err);
    4
}

/// Tells why the words of the command line, or the room to hold output back, were not had, and gives the exit status: 2 where a word
/// is no UTF-8, 4 for want of memory.
pub fn tell_words_fault<E: Write>(error: &io::Error, err: &mut Counted<E>) -> u8
    ensures { (result ≡ 2) ⊎ (result ≡ 4) }
{
    if matches!(error.kind(), io::ErrorKind::InvalidData) {
        say(
            "error: invalid UTF-8 was detected in one or more arguments\n",
            err,
        );
        return 2;
    }
    tell_no_memory(err)
}

/// Writes what the command line's fault or the help says, and gives the status.
fn tell_usage<W: Write, E: Write>(
    alloc: Global,
    error: &Error,
    out: &mut Counted<W>,
    err: &mut Counted<E>,
) -> u8
    requires { failures_of out.old ≡ 0 }
    ensures usage { IsUsage W.contents out.old out.new result }
    ensures memory { kind_of error.now ≡ OutOfMemory → (out.new ≡ out.old) × (result ≡ 4) }
{
    let Ok(text) = format!(in alloc; "{error}") else {
        return tell_fault(alloc, &ProgramFault::NoMemory, err);
    };
    if matches!(error.kind(), ErrorKind::OutOfMemory) {
        return tell_fault(alloc, &ProgramFault::NoMemory, err);
    }
    if error.use_stderr() {
        say(text.as_str(), err);
        return 2;
    }
    match written(text.as_str(), out) {
        Ok(()) => 0,
        Err(fault) => tell_fault(alloc, &fault, err),
    }
}
