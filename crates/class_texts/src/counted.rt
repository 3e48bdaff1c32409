//! Numbers, with commas, and with what is counted.

ghost use Rattle.std.specs.Prelude.{◌≡◌, ◌++◌, OnOk};
ghost use Rattle.class_texts.specs.Counted as spec;

use itoa::Buffer;
use shown_texts::put;
use sqlite_items::Items;
use std::alloc::AllocError;

/// Puts a comma behind a line, where a multiple of three digits is left.
fn put_comma(line: &mut Items<char>, left: &[u8]) -> Result<(), AllocError>
    ensures { OnOk result (line.new ≡ line.old ++ spec.comma_before left.now) }
{
    match left {
        [] => Ok(()),
        [_, ..] => put(line, if left.len() % 3 == 0 { "," } else { "" }),
    }
}

/// Puts digits behind a line, with a comma before each three of them.
pub(crate) fn put_in_threes(line: &mut Items<char>, digits: &[u8]) -> Result<(), AllocError>
    ensures { OnOk result (line.new ≡ line.old ++ spec.in_threes digits.now) }
{
    for place in 0..digits.len() {
        line.push(char::from(digits[place]))?;
        put_comma(line, &digits[place + 1..])?;
    }
    Ok(())
}

/// Puts a number with commas behind a line.
pub(crate) fn put_number_text(line: &mut Items<char>, number: u64) -> Result<(), AllocError>
    ensures { OnOk result (line.new ≡ line.old ++ spec.number_text number) }
{
    put_in_threes(line, Buffer::new().format(number).as_bytes())
}

/// Puts a number, and what is counted, behind a line.
pub(crate) fn put_counted(
    line: &mut Items<char>,
    number: u64,
    one: &str,
    several: &str,
) -> Result<(), AllocError>
    ensures { OnOk result (line.new ≡ line.old ++ spec.counted number one.now several.now) }
{
    put_number_text(line, number)?;
    put(line, " ")?;
    put(line, if number == 1 { one } else { several })
}
