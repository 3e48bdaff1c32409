//! Shares of the orders that are told of.

ghost use Rattle.std.specs.Prelude.{◌≡◌, ◌++◌, IfOk, OnOk};
ghost use Rattle.class_texts.specs.Pages as spec;

use itoa::Buffer;
use shown_texts::put;
use sqlite_items::Items;
use std::alloc::{AllocError, Global};

/// Tenths of a per cent, of which a half is rounded up.
fn tenths(whole: u64, part: u64) -> u128
    ensures { result ≡ spec.tenths whole part }
{
    // Two thousand times 64 bits is more than 64 bits hold.
    (u128::from(part) * 2000 + u128::from(whole)) / (u128::from(whole) * 2).max(1)
}

pub(crate) fn put_tenths(line: &mut Items<char>, tenths: u128) -> Result<(), AllocError>
    ensures { OnOk result (line.new ≡ line.old ++ spec.tenths_text tenths) }
{
    put(line, Buffer::new().format(tenths / 10))?;
    put(line, ".")?;
    put(line, Buffer::new().format(tenths % 10))?;
    put(line, "%")
}

fn put_share(line: &mut Items<char>, part: u64, tenths: u128) -> Result<(), AllocError>
    ensures { OnOk result (line.new ≡ line.old ++ spec.share_by part tenths) }
{
    if tenths == 0 && part != 0 {
        return put(line, "<0.1%");
    }
    put_tenths(line, tenths)
}

/// A part of the whole in per cent, with one place.
pub(crate) fn share_text(alloc: Global, whole: u64, part: u64) -> Result<Items<char>, AllocError>
    ensures { IfOk result (λ text. text ≡ spec.share_text whole part) }
{
    let mut text = Items::new(alloc);
    put_share(&mut text, part, tenths(whole, part))?;
    Ok(text)
}
