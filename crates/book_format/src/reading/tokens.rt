//! Values of a text, read one after the other.

ghost use Rattle.std.specs.Prelude.{◌≡◌, ◌∷◌, ◌<◌, ◌≤◌, IfSome, IsTrue, Some, length, option_map};
ghost use Rattle.json.specs.Token.{begin_array};
ghost use Rattle.json.specs.Tree.{HasNumbers, depth as nesting};
ghost use Rattle.json.specs.Value.{value_view};
ghost use Rattle.serde_json.specs.Read.{of_json, read};
ghost use Rattle.serde_json.specs.View.{view};
ghost use Rattle.book_format.specs.Tokens.{IsItemAt, IsValueAt, member_depth};

use json::{Reader, Token, to_vec};
use serde_json::Value as Json;
use std::alloc::Global;

/// How deep an item of an array may be that a member of an object is.
const ITEM_DEPTH: usize = 125;

/// The value that is next, where it nests no deeper than this. None too where memory is wanted.
pub fn value_at(alloc: Global, reader: &mut Reader<'_>, depth: usize) -> Option<Json>
    requires { depth ≤ member_depth }
    ensures value { IfSome result (λ value. IsValueAt depth reader.old (view value) reader.new) }
    ensures shorter { IfSome result (λ value. length reader.new < length reader.old) }
{
    match json::Value::read(alloc, reader, depth) {
        Ok(tree) => copy_of(alloc, &tree),
        Err(_) => None,
    }
}

/// The same value, with its texts.
fn copy_of(alloc: Global, tree: &json::Value<'_>) -> Option<Json>
    requires numbers { HasNumbers (value_view tree.now) }
    requires depth { nesting (value_view tree.now) ≤ member_depth }
    ensures { IfSome result (λ value. of_json (value_view tree.now) ≡ Some (view value)) }
{
    match to_vec(alloc, tree) {
        Ok(text) => value_of(alloc, text.as_slice()),
        Err(_) => None,
    }
}

/// The value of a text.
fn value_of(alloc: Global, text: &[u8]) -> Option<Json>
    ensures { IfSome result (λ value. read text.now ≡ Some (view value)) }
{
    match Json::from_slice(alloc, text) {
        Ok(value) => Some(value),
        Err(_) => None,
    }
}

/// Goes past the bracket that begins an array, if it is next.
pub(super) fn begins_array(reader: &mut Reader<'_>) -> bool
    ensures { IsTrue result → reader.old ≡ begin_array ∷ reader.new }
{
    match reader.next() {
        Some(Token::BeginArray) => true,
        _ => false,
    }
}

/// The next item of an array that a member of an object is, or none behind the last one.
pub(super) fn next_item(alloc: Global, reader: &mut Reader<'_>) -> Option<Option<Json>>
    ensures item { IfSome result (λ next. IsItemAt reader.old (option_map view next) reader.new) }
    ensures shorter { IfSome result (λ next. length reader.new < length reader.old) }
{
    if reader.take_end_array() {
        return Some(None);
    }
    Some(Some(value_at(alloc, reader, ITEM_DEPTH)?))
}
