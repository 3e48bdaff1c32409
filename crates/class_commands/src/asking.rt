//! What is read of a spec, and asked of it.

ghost use Rattle.std.specs.Prelude.{ℕ, IfErr, IfOk, List, Option};
ghost use Rattle.bound_statements.specs.declared.statement.Level.{Level as Asked};
ghost use Rattle.spec_levels.specs.Levelled.{IsNoLevelledSpec};
ghost use Rattle.class_commands.specs.Parts.{IsAskedSpec, IsNotAskedSpec, IsNotReadSpec, IsReadSpec};

use crate::classing::ClassesFault;
use asked_classes::{AskedClasses, asked_of};
use binding_model::Table;
use bound_specs::Spec;
use bound_statements::Level;
use spec_levels::{LevelledFault, Levels, levelled_spec, levels_of};
use spec_texts::tables_of;
use std::alloc::Global;
use wanted_classes::WantedClasses;

/// A spec, the tables that its main setups declare, its levels, and what is asked of it.
#[derive(Drop)]
pub(crate) struct AskedSpec<'a> {
    pub(crate) spec: Spec,
    pub(crate) tables: Vec<Table>,
    pub(crate) levels: Levels,
    pub(crate) asked: AskedClasses<'a>,
}

/// A spec, the tables that its main setups declare, and its levels.
#[derive(Drop)]
pub(crate) struct ReadSpec {
    pub(crate) spec: Spec,
    pub(crate) tables: Vec<Table>,
    pub(crate) levels: Levels,
}

/// Reads a spec, and what is wanted as asked of it.
pub(crate) fn asked_spec<'a>(
    alloc: Global,
    bytes: &[u8],
    wanted: &WantedClasses<'a>,
) -> Result<AskedSpec<'a>, ClassesFault<'a>>
    ensures read { IfOk result (IsAskedSpec bytes.now wanted.now) }
    ensures refused { IfErr result (IsNotAskedSpec bytes.now wanted.now) }
{
    let ReadSpec {
        spec,
        tables,
        levels,
    } = match read_spec(alloc, bytes, wanted.level) {
        Ok(read) => read,
        Err(fault) => return Err(fault),
    };
    let asked = match asked_of(alloc, &spec, tables.as_slice(), wanted) {
        Ok(asked) => asked,
        Err(fault) => return Err(ClassesFault::Asked(fault)),
    };
    Ok(AskedSpec {
        spec,
        tables,
        levels,
        asked,
    })
}

/// Reads a spec at the level of a word, or else at the one for which the file asks.
pub(crate) fn read_spec<'a>(
    alloc: Global,
    bytes: &[u8],
    word: Option<Level>,
) -> Result<ReadSpec, ClassesFault<'a>>
    ensures read { IfOk result (IsReadSpec bytes.now word) }
    ensures refused { IfErr result (IsNotReadSpec bytes.now word) }
{
    let spec = match levelled_spec(alloc, bytes, word) {
        Ok(spec) => spec,
        Err(fault) => return Err(not_read(fault)),
    };
    let Ok(tables) = tables_of(alloc, &spec) else {
        return Err(ClassesFault::NoMemory);
    };
    let Ok(levels) = levels_of(alloc, &spec) else {
        return Err(ClassesFault::NoMemory);
    };
    Ok(ReadSpec {
        spec,
        tables,
        levels,
    })
}

/// Why bytes are not read that are no spec at the level.
fn not_read<'a>(fault: LevelledFault) -> ClassesFault<'a>
    ensures { (bytes : List ℕ) (word : Option Asked) → IsNoLevelledSpec bytes word fault → IsNotReadSpec bytes word result }
{
    match fault {
        LevelledFault::Spec(fault) => ClassesFault::Spec(fault),
        LevelledFault::Level(fault) => ClassesFault::Level(fault),
        LevelledFault::NoMemory => ClassesFault::NoMemory,
    }
}
