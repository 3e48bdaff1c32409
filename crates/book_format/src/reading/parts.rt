//! The members of a book's object.

ghost use Rattle.std.specs.Prelude.{◌≡◌, ◌==◌, option_map};
ghost use Rattle.serde_json.specs.View.{view, items_view};
ghost use Rattle.book_format.specs.ReadingBooks.{format_in, items_at, members_in, text_at, version_with};

use serde_json::Value as Json;

/// The format of a book.
#[derive(Clone, Copy, Drop)]
pub enum Version {
    /// Facts one by one, each with its outcome.
    Facts,
    /// Runs of ranks that have one fact, and a table of outcomes.
    Runs,
    Other,
}

/// The format that a value names. None where it is no object, or names none by a whole number.
pub fn version_of(value: &Json) -> Option<Version>
    ensures { result ≡ option_map version_with (format_in (view value.now)) }
{
    let number = value.get("format")?.as_u64()?;
    Some(version_with(number))
}

fn version_with(number: u64) -> Version
    ensures { result ≡ version_with number }
{
    if number == 1 {
        Version::Facts
    } else if number == 2 {
        Version::Runs
    } else {
        Version::Other
    }
}

/// How many members an object has; another value has none.
pub(crate) fn members_in(value: &Json) -> usize
    ensures { result ≡ members_in (view value.now) }
{
    match value.as_object() {
        Some(members) => members.len(),
        None => 0,
    }
}

/// The items of the array with this name.
pub(crate) fn items_at<'a>(value: &'a Json, name: &str) -> Option<&'a [Json]>
    ensures { option_map (λ items. items_view items.now) result ≡ items_at name.now (view value.now) }
{
    Some(value.get(name)?.as_array()?.as_slice())
}

/// The text with this name.
pub(crate) fn text_at<'a>(value: &'a Json, name: &str) -> Option<&'a str>
    ensures { option_map (λ text. text.now) result ≡ text_at name.now (view value.now) }
{
    value.get(name)?.as_str()
}
