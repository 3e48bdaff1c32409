//! Which orders are anomalies.

ghost use Rattle.std.specs.Prelude.{◌≡◌, List, [], IfOk, Some, option_map};
ghost use Rattle.binding_model.specs.declared.tables.Table.{Table as Declared};
ghost use Rattle.bound_specs.specs.Spec.{Spec as Run};
ghost use Rattle.order_classes.specs.Letters.{IsR};
ghost use Rattle.spec_classes.specs.Classes.{AreSerialAnswers};
ghost use Rattle.class_rows.specs.Telling.{IsSerialOf};

use different_shows::Different;
use order_classes::{Shows, answers_of};
use std::alloc::{AllocError, Global};

/// Whether orders that show this are anomalies, where it is told what serial orders answer.
pub(crate) fn anomaly_of(
    alloc: Global,
    serial: Option<&Different>,
    shows: &Shows,
) -> Result<Option<bool>, AllocError>
    ensures { IfOk result (λ r. (tables : List Declared) (run : Run) → IsSerialOf tables run (option_map (λ s. s.now) serial.entry) → IsR tables run shows.now r) }
{
    match serial {
        None => Ok(None),
        Some(serial) => {
            let is_anomaly = is_anomaly(alloc, serial, shows)?;
            Ok(Some(is_anomaly))
        }
    }
}

/// Whether orders that show this are anomalies: every session is through, and no serial order answers so, where these are the answers of all serial orders.
fn is_anomaly(alloc: Global, serial: &Different, shows: &Shows) -> Result<bool, AllocError>
    ensures { IfOk result (λ b. (tables : List Declared) (run : Run) → run.lines ≡ [] → AreSerialAnswers tables run serial.now → IsR tables run shows.now (Some b)) }
{
    if !shows.is_through() {
        return Ok(false);
    }
    let answers = answers_of(alloc, shows)?;
    Ok(serial.find(&answers).is_none())
}
