//! Words that stand for modes and states.

ghost use Rattle.std.specs.Prelude.{◌≡◌, ◌++◌, OnOk};
ghost use Rattle.shown_values.specs.Words as spec;

use crate::strings::{push_index, push_word};
use line_moments::Manner;
use lock_modes::Mode;
use machine_model::Status;
use std::alloc::AllocError;

/// Pushes a label and a mode behind it.
pub(crate) fn push_mode(label: &str, mode: Mode, out: &mut Vec<u8>) -> Result<(), AllocError>
    ensures { OnOk result (out.new.items ≡ out.old.items ++ (label.now ++ spec.mode_json mode)) }
{
    push_word(label, mode_word(mode), out)
}

/// Pushes a label behind which stands how a block stands.
pub(crate) fn push_status(label: &str, status: Status, out: &mut Vec<u8>) -> Result<(), AllocError>
    ensures { OnOk result (out.new.items ≡ out.old.items ++ (label.now ++ spec.status_json status)) }
{
    push_word(label, status_word(status), out)
}

/// Pushes a label behind which stands why a session goes.
pub(crate) fn push_manner(label: &str, manner: Manner, out: &mut Vec<u8>) -> Result<(), AllocError>
    ensures { OnOk result (out.new.items ≡ out.old.items ++ (label.now ++ spec.manner_json manner)) }
{
    push_word(label, manner_word(manner), out)
}

/// Pushes a label and the number of a step behind it, or null where there is none.
pub(crate) fn push_step_number(
    label: &str,
    step: Option<u8>,
    out: &mut Vec<u8>,
) -> Result<(), AllocError>
    ensures { OnOk result (out.new.items ≡ out.old.items ++ (label.now ++ spec.number_json step)) }
{
    match step {
        None => push_word(label, "null", out),
        Some(number) => push_index(label, number, out),
    }
}

/// A mode as a JSON string.
fn mode_word(mode: Mode) -> &'static str
    ensures { result.now ≡ spec.mode_json mode }
{
    match mode {
        Mode::IntentShare => "\"IS\"",
        Mode::IntentExclusive => "\"IX\"",
        Mode::Share => "\"S\"",
        Mode::ShareIntent => "\"SIX\"",
        Mode::Exclusive => "\"X\"",
    }
}

/// How a block stands as a JSON string.
fn status_word(status: Status) -> &'static str
    ensures { result.now ≡ spec.status_json status }
{
    match status {
        Status::Outside => "\"out\"",
        Status::InBlock(_) => "\"in\"",
        Status::Broken => "\"failed\"",
    }
}

/// Why a session goes, as a JSON string.
fn manner_word(manner: Manner) -> &'static str
    ensures { result.now ≡ spec.manner_json manner }
{
    match manner {
        Manner::IsSent => "\"sent\"",
        Manner::IsResumed => "\"resumed\"",
        Manner::IsNotSent => "\"notsent\"",
    }
}
