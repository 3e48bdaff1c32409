//! The page of classes.

ghost use Rattle.std.specs.Prelude.{◌≡◌, ◌++◌, IfOk, OnOk, string_bytes};
ghost use Rattle.class_texts.specs.Pages as spec;

use crate::page::Page;
use crate::table::push_table;
use crate::totals::top_lines;
use shown_texts::push_lines;
use std::alloc::{AllocError, Global};

/// The text of classes. It fails for want of memory alone.
pub fn classes_text(alloc: Global, page: &Page<'_>) -> Result<String, AllocError>
    ensures { IfOk result (λ text. string_bytes text ≡ spec.page_bytes page.now) }
{
    let mut text = String::new(alloc);
    push_top(alloc, &mut text, page)?;
    push_table(alloc, &mut text, page)?;
    Ok(text)
}

/// Puts the head and the totals behind a text.
fn push_top(alloc: Global, text: &mut String, page: &Page<'_>) -> Result<(), AllocError>
    ensures { OnOk result (string_bytes text.new ≡ string_bytes text.old ++ spec.lines_bytes (spec.top_lines page.now)) }
{
    let lines = top_lines(alloc, page)?;
    push_lines(text, lines.as_slice())
}
