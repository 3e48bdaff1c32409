//! Between which shares a part of a sample lies.

ghost use Rattle.std.specs.Prelude.{◌≡◌, ◌≤◌, ◌<◌, ◌^◌, ◌++◌, IfOk, OnOk};
ghost use Rattle.class_texts.specs.Intervals as interval;
ghost use Rattle.class_texts.specs.Pages as spec;

use crate::columns::put_right;
use crate::shares::put_tenths;
use itoa::Buffer;
use shown_texts::put;
use sqlite_items::Items;
use std::alloc::{AllocError, Global};

/// As wide as its head and as the widest interval.
const INTERVAL_WIDTH: usize = 12;

/// So many orders of a sample, and so many of them.
#[derive(Clone, Copy)]
struct Part {
    whole: u64,
    part: u64,
}

impl Part {
    /// Whether a share, in tenths of a per cent, is too far from what was seen.
    fn is_far(self, share: u64) -> bool
        requires whole { self.whole < 2 ^ 32 }
        requires part { self.part ≤ self.whole }
        requires share { share ≤ 1000 }
        ensures { result ≡ interval.is_far self.whole self.part share }
    {
        let apart = u128::from((1000 * self.part).abs_diff(self.whole * share));
        let spread = u128::from(self.whole) * u128::from(share * (1000 - share));
        38_416 * spread < 10_000 * (apart * apart)
    }

    /// The share that was seen, rounded down.
    fn seen(self) -> u64
        requires whole { self.whole < 2 ^ 32 }
        requires part { self.part ≤ self.whole }
        ensures is { result ≡ interval.seen_share self.whole self.part }
        ensures few { result ≤ 1000 }
    {
        1000 * self.part / self.whole.max(1)
    }

    /// The first share from this one down that is too far off, or 0.
    fn low(self, from: u64) -> u64
        requires whole { self.whole < 2 ^ 32 }
        requires part { self.part ≤ self.whole }
        requires share { from ≤ 1000 }
        ensures { result ≡ interval.low_share self.whole self.part from }
    {
        let mut share = from;
        while 0 < share && !self.is_far(share) {
            share -= 1;
        }
        share
    }

    /// The first share upwards that is too far off, or 1000, where so many are left below that.
    fn high(self, left: u64) -> u64
        requires whole { self.whole < 2 ^ 32 }
        requires part { self.part ≤ self.whole }
        requires share { left ≤ 1000 }
        ensures { result ≡ interval.high_share self.whole self.part left }
    {
        let mut left = left;
        while 0 < left && !self.is_far(1000 - left) {
            left -= 1;
        }
        1000 - left
    }
}

/// Puts tenths of a per cent without their sign behind a line.
fn put_points(line: &mut Items<char>, tenths: u64) -> Result<(), AllocError>
    ensures { OnOk result (line.new ≡ line.old ++ spec.points_text tenths) }
{
    put(line, Buffer::new().format(tenths / 10))?;
    put(line, ".")?;
    put(line, Buffer::new().format(tenths % 10))
}

fn put_interval(line: &mut Items<char>, part: Part) -> Result<(), AllocError>
    requires whole { part.whole < 2 ^ 32 }
    requires part { part.part ≤ part.whole }
    ensures { OnOk result (line.new ≡ line.old ++ spec.interval_of part.whole part.part) }
{
    let seen = part.seen();
    put_points(line, part.low(seen))?;
    put(line, "-")?;
    put_tenths(line, u128::from(part.high(999_u64.saturating_sub(seen))))
}

fn interval_text(alloc: Global, whole: u64, part: u64) -> Result<Items<char>, AllocError>
    ensures { IfOk result (λ text. text ≡ spec.interval_text whole part) }
{
    let mut text = Items::new(alloc);
    if whole < 1 << 32 {
        let part = part.min(whole);
        put_interval(&mut text, Part { whole, part })?;
    } else {
        put(&mut text, "-")?;
    }
    Ok(text)
}

/// A text in the column of intervals, which samples have.
fn column(alloc: Global, is_sample: bool, text: &[char]) -> Result<Items<char>, AllocError>
    ensures { IfOk result (λ line. line ≡ spec.interval_column is_sample text.now) }
{
    let mut line = Items::new(alloc);
    if is_sample {
        put_right(&mut line, INTERVAL_WIDTH, text)?;
    }
    Ok(line)
}

/// The interval of the share of a part, in its column.
pub(crate) fn interval_part(
    alloc: Global,
    is_sample: bool,
    whole: u64,
    part: u64,
) -> Result<Items<char>, AllocError>
    ensures { IfOk result (λ line. line ≡ spec.interval_part is_sample whole part) }
{
    let text = interval_text(alloc, whole, part)?;
    column(alloc, is_sample, text.as_slice())
}

/// A text of ASCII in the column of intervals.
pub(crate) fn interval_word(
    alloc: Global,
    is_sample: bool,
    text: &str,
) -> Result<Items<char>, AllocError>
    ensures { IfOk result (λ line. line ≡ spec.interval_column is_sample text.now) }
{
    let mut word = Items::new(alloc);
    put(&mut word, text)?;
    column(alloc, is_sample, word.as_slice())
}
