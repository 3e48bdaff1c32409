//! Orders of a spec in classes, from the bytes of the spec to the text that is written.

ghost use Rattle.std.specs.Prelude.{◌≡◌, ◌<◌, ℕ, IfErr, IfOk, List, None, Option};
ghost use Rattle.binding_model.specs.declared.tables.Table.{Table as Declared};
ghost use Rattle.machine_model.specs.Start.{Started, start};
ghost use Rattle.machine_model.specs.World.{World};
ghost use Rattle.spec_levels.specs.Levels.{AreLevels};
ghost use Rattle.spec_texts.specs.Texts.{Declares};
ghost use Rattle.transcripts.specs.Counted.{failures_of};
ghost use Rattle.class_rows.specs.Pages.{IsClassed};
ghost use Rattle.class_rows.specs.Telling.{AreFound, IsSerialOf};
ghost use Rattle.spec_classes.specs.Classes.{AreClassesOf};
ghost use Rattle.wanted_classes.specs.declared.wanted.WantedSample.{WantedSample as Sample};
ghost use Rattle.class_commands.specs.Classing.{AreCounted, IsClassesRun, IsFinding, grouping, kind_by};
ghost use Rattle.class_commands.specs.Opened.{HasOrders};
ghost use Rattle.bound_specs.specs.Spec.{Spec as Run, SpecFile};
ghost use Rattle.spec_schedules.specs.declared.kind.Kind.{Kind as Sort};
ghost use Rattle.class_commands.specs.Parts.{IsAskedSpec, IsNotCounted, IsNotFound, IsTextOf, Writes};

use crate::asking::{AskedSpec, asked_spec};
use crate::opened::orders_for;
use crate::progress::{StatesProgress, Telling};
use crate::sampling::drawn_from;
use crate::telling::told;
use asked_classes::{AskedClasses, AskedFault};
use binding_model::Table;
use book_commands::Finding;
use bound_specs::Spec;
use class_rows::{Asked as Given, Classed, FoundOrders, classed};
use different_shows::Different;
use order_classes::Grouping;
use schedule_counts::{StatesError, Unwatched, Watch};
use session_machine::RunError;
use session_steps::StartError;
use spec_binding::SpecFault;
use spec_classes::{OrderClass, classes_of, serial_answers};
use spec_levels::{LevelFault, Levels};
use spec_schedules::Kind;
use std::alloc::{AllocError, Global};
use std::io::Write;
use std::time::Clock;
use transcripts::{Counted, WriteFault};
use wanted_classes::{WantedClasses, WantedSample};

/// Why classes were not written. Each is tried before those below it, but for want of memory.
#[derive(Clone, Copy, Drop)]
pub enum ClassesFault<'a> {
    /// The bytes are no spec file.
    Spec(SpecFault),
    /// What the file says of levels is wrong.
    Level(LevelFault),
    /// What is wanted can't be asked of the spec.
    Asked(AskedFault<'a>),
    /// The orders were not run: the spec does not start, or memory ran out.
    Run(RunError),
    /// The orders lead to more different states than there is room for: so many were noted.
    TooMany(u64),
    /// Memory ran out.
    NoMemory,
    /// The text was not written; a front of it may be.
    Write(WriteFault),
}

/// Reads a spec, explores the states to which its orders lead, and writes the classes of the orders that are asked for, with the path that the spec is told
/// to lie at. It is bad where an order that is asked for is not as expected.
pub fn classes<'a, V: Watch, W: Write>(
    alloc: Global,
    bytes: &[u8],
    path: &str,
    wanted: &WantedClasses<'a>,
    watch: &V,
    out: &mut Counted<W>,
) -> Result<Finding, ClassesFault<'a>>
    requires { failures_of out.old < u64.MAX }
    ensures { IsClassesRun W.contents out.old out.new bytes.now path.now wanted.now result }
{
    let asked = match asked_spec(alloc, bytes, wanted) {
        Ok(asked) => asked,
        Err(fault) => return Err(fault),
    };
    let found = match found_of(alloc, &asked, wanted, watch) {
        Ok(found) => found,
        Err(fault) => return Err(fault),
    };
    tell(alloc, &asked, path, wanted, &found, out)
}

/// Does as `classes`, and tells on `err` how far it is, as is wanted. What is not written there is no fault.
pub fn classes_told<'a, C: Clock, W: Write, E: Write>(
    clock: &C,
    alloc: Global,
    bytes: &[u8],
    path: &str,
    wanted: &WantedClasses<'a>,
    telling: Telling,
    out: &mut Counted<W>,
    err: &mut Counted<E>,
) -> Result<Finding, ClassesFault<'a>>
    requires { failures_of out.old < u64.MAX }
    ensures run { IsClassesRun W.contents out.old out.new bytes.now path.now wanted.now result }
    ensures quiet { telling ≡ Telling.Silent → err.new ≡ err.old }
{
    let is_one_line = match telling {
        Telling::Silent => return classes(alloc, bytes, path, wanted, &Unwatched, out),
        Telling::Lines => false,
        Telling::OneLine => true,
    };
    let progress = StatesProgress::new(clock, alloc, is_one_line, err);
    classes(alloc, bytes, path, wanted, &progress, out)
}

pub(crate) fn grouping(by_result: bool) -> Grouping
    ensures { result ≡ grouping by_result }
{
    if by_result {
        Grouping::Answers
    } else {
        Grouping::Shows
    }
}

/// What is found of the orders of a spec that are asked for.
fn found_of<'a, V: Watch>(
    alloc: Global,
    asked: &AskedSpec<'a>,
    wanted: &WantedClasses<'a>,
    watch: &V,
) -> Result<Classed, ClassesFault<'a>>
    ensures found { IfOk result (AreCounted wanted.now.sample (kind_by wanted.now.all_orders) asked.now.tables.items asked.now.spec.run asked.now.asked.filters.items (grouping wanted.now.by_result)) }
    ensures starts { IfOk result (λ _. (w : World) × (start asked.now.spec.run ≡ Started w)) }
    ensures refused { IfErr result (IsNotFound wanted.now.sample asked.now.spec) }
{
    let explored = Explored {
        spec: &asked.spec,
        tables: asked.tables.as_slice(),
        kind: kind_by(wanted.all_orders),
        room: room_of(wanted.memory),
    };
    let given = Given {
        by: grouping(wanted.by_result),
        filters: asked.asked.filters.as_slice(),
    };
    match counted(alloc, wanted.sample, explored, given, watch) {
        Ok(found) => Ok(found),
        Err(error) => Err(fault_of(error)),
    }
}

/// Why classes are not written whose orders were not counted.
pub(crate) fn fault_of<'a>(error: StatesError) -> ClassesFault<'a>
    ensures { (sample : Option Sample) (file : SpecFile) → IsNotCounted sample file error → IsNotFound sample file result }
{
    match error {
        StatesError::Start(StartError::NoMemory) => ClassesFault::NoMemory,
        StatesError::Start(error) => ClassesFault::Run(RunError::Start(error)),
        StatesError::TooMany(noted) => ClassesFault::TooMany(noted),
        StatesError::Memory => ClassesFault::NoMemory,
    }
}

/// The spec whose orders of a kind are explored, with its tables and the bytes that different states may take.
#[derive(Clone, Copy)]
pub(crate) struct Explored<'a> {
    pub(crate) spec: &'a Spec,
    pub(crate) tables: &'a [Table],
    pub(crate) kind: Kind,
    pub(crate) room: usize,
}

/// All permutations, or those orders alone that clients can send.
fn kind_by(all_orders: bool) -> Kind
    ensures { result ≡ kind_by all_orders }
{
    if all_orders {
        Kind::Permutations
    } else {
        Kind::Schedules
    }
}

/// So many megabytes in bytes.
pub(crate) fn room_of(megabytes: u64) -> usize {
    (megabytes as usize).saturating_mul(1_000_000)
}

/// All orders of a spec that are asked for, in classes, or those of a sample.
fn counted<V: Watch>(
    alloc: Global,
    sample: Option<WantedSample>,
    explored: Explored<'_>,
    asked: Given<'_>,
    watch: &V,
) -> Result<Classed, StatesError>
    ensures found { IfOk result (AreCounted sample explored.entry.kind explored.entry.tables.now explored.entry.spec.now.run asked.entry.filters.now asked.entry.by) }
    ensures starts { IfOk result (λ _. (w : World) × (start explored.entry.spec.now.run ≡ Started w)) }
    ensures refused { IfErr result (IsNotCounted sample explored.entry.spec.now) }
{
    match sample {
        None => found_in(alloc, explored, asked, watch),
        Some(sample) => drawn_from(alloc, sample, explored, asked),
    }
}

/// What is found of the orders of a spec that pass filters.
fn found_in<V: Watch>(
    alloc: Global,
    explored: Explored<'_>,
    asked: Given<'_>,
    watch: &V,
) -> Result<Classed, StatesError>
    ensures found { IfOk result (IsClassed explored.entry.kind explored.entry.tables.now explored.entry.spec.now.run asked.entry.filters.now asked.entry.by) }
    ensures starts { IfOk result (λ _. (w : World) × (start explored.entry.spec.now.run ≡ Started w)) }
    ensures refused { IfErr result (IsNotCounted None explored.entry.spec.now) }
{
    let (classes, serial) = match found_orders(alloc, explored, watch) {
        Ok(found) => found,
        Err(error) => return Err(error),
    };
    told_with(alloc, classes.as_slice(), serial.as_ref(), asked)
}

/// The classes of the orders of a spec, and what its serial orders answer.
pub(crate) fn found_orders<V: Watch>(
    alloc: Global,
    explored: Explored<'_>,
    watch: &V,
) -> Result<(Vec<OrderClass>, Option<Different>), StatesError>
    ensures classes { IfOk result (λ x. AreClassesOf explored.entry.kind explored.entry.tables.now explored.entry.spec.now.run x.0.items) }
    ensures serial { IfOk result (λ x. IsSerialOf explored.entry.tables.now explored.entry.spec.now.run x.1) }
    ensures starts { IfOk result (λ _. (w : World) × (start explored.entry.spec.now.run ≡ Started w)) }
    ensures refused { IfErr result (IsNotCounted None explored.entry.spec.now) }
{
    let Explored {
        spec,
        tables,
        kind,
        room,
    } = explored;
    let classes = match classes_of(alloc, spec, tables, kind, room, watch) {
        Ok(classes) => classes,
        Err(error) => return Err(error),
    };
    match serial_of(alloc, spec, tables, room) {
        Ok(serial) => Ok((classes, serial)),
        Err(error) => Err(error),
    }
}

/// What is told of classes, beside what the serial orders of their spec answer.
pub(crate) fn told_with<'a>(
    alloc: Global,
    classes: &'a [OrderClass],
    serial: Option<&'a Different>,
    asked: Given<'_>,
) -> Result<Classed, StatesError>
    requires { (kind : Sort) × (tables : List Declared) × (run : Run) × AreFound kind tables run (record { classes = classes; serial = serial }) }
    ensures told { (kind : Sort) (tables : List Declared) (run : Run) → AreFound kind tables run (record { classes = classes.entry; serial = serial.entry })
        → IfOk result (IsClassed kind tables run asked.entry.filters.now asked.entry.by) }
    ensures refused { (file : SpecFile) → IfErr result (IsNotCounted None file) }
{
    let found = FoundOrders { classes, serial };
    match classed(alloc, &found, asked) {
        Ok(classed) => Ok(classed),
        Err(_) => Err(StatesError::Memory),
    }
}

/// What the serial orders of a spec answer: nothing is told of one with permutation lines.
fn serial_of(
    alloc: Global,
    spec: &Spec,
    tables: &[Table],
    room: usize,
) -> Result<Option<Different>, StatesError>
    ensures answers { IfOk result (λ serial. IsSerialOf tables.now spec.now.run serial) }
    ensures refused { IfErr result (IsNotCounted None spec.now) }
{
    match spec.shape() {
        Some(_) => match serial_answers(alloc, spec, tables, room) {
            Ok(answers) => Ok(Some(answers)),
            Err(error) => Err(error),
        },
        None => Ok(None),
    }
}

/// Writes the classes of the orders that are asked for.
fn tell<'a, W: Write>(
    alloc: Global,
    asked: &AskedSpec<'a>,
    path: &str,
    wanted: &WantedClasses<'a>,
    found: &Classed,
    out: &mut Counted<W>,
) -> Result<Finding, ClassesFault<'a>>
    requires fresh { failures_of out.old < u64.MAX }
    requires tables { Declares asked.now.spec.text asked.now.spec asked.now.tables.items }
    requires levels { AreLevels asked.now.spec.text asked.now.spec asked.now.levels }
    requires found { AreCounted wanted.now.sample (kind_by wanted.now.all_orders) asked.now.tables.items asked.now.spec.run asked.now.asked.filters.items (grouping wanted.now.by_result) found.now }
    requires starts { (w : World) × (start asked.now.spec.run ≡ Started w) }
    ensures { (bytes : List ℕ) → IsAskedSpec bytes wanted.now asked.now → IsClassesRun W.contents out.old out.new bytes path.now wanted.now result }
{
    let spec = &asked.spec;
    let tables = asked.tables.as_slice();
    let levels = &asked.levels;
    let given = &asked.asked;
    let rows = found.rows.as_slice();
    let orders = match orders_for(alloc, spec, tables, levels, path, wanted.form, rows) {
        Ok(orders) => orders,
        Err(error) => return Err(ClassesFault::Run(error)),
    };
    write_classes(
        alloc, spec, path, tables, levels, wanted, given, found, &orders, out,
    )
}

fn write_classes<'a, W: Write>(
    alloc: Global,
    spec: &Spec,
    path: &str,
    tables: &[Table],
    levels: &Levels,
    wanted: &WantedClasses<'a>,
    asked: &AskedClasses<'a>,
    found: &Classed,
    orders: &[u8],
    out: &mut Counted<W>,
) -> Result<Finding, ClassesFault<'a>>
    requires fresh { failures_of out.old < u64.MAX }
    requires orders { HasOrders wanted.now.form spec.now.text path.now spec.now found.now.rows.items orders.now }
    ensures { Writes W.contents out.old out.new (IsTextOf path.now spec.now tables.now levels.now wanted.now asked.now found.now) (IsFinding found.now.rows.items asked.now.expectations.items) result }
{
    let Ok((written, finding)) = told(
        alloc, spec, path, tables, levels, wanted, asked, found, orders,
    ) else {
        return Err(ClassesFault::NoMemory);
    };
    match out.write_all(written.bytes()) {
        Ok(()) => Ok(finding),
        Err(fault) => Err(ClassesFault::Write(fault)),
    }
}
