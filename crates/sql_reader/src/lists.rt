//! Lists of one or more items with a sign between them.

ghost use Rattle.std.specs.Prelude.{◌≡◌, ◌≤◌, length, IfOk};
ghost use Rattle.sql_grammar.specs.Lexing.{views};
ghost use Rattle.sql_grammar.specs.Tree as tree;
ghost use Rattle.sql_grammar.specs.Reading.{name};
ghost use Rattle.sql_grammar.specs.Views.{Gives, chain_by};
ghost use Rattle.sql_reader.specs.Lists as lists;

use crate::steps::{name, past_sign};
use lock_modes::Text;
use sql_grammar::{Chain, Placed, Stop};
use sqlite_items::Items;
use std::alloc::Global;

/// What stands in a list.
pub(crate) trait Item: Drop {
    // what contracts see of an item, and the rule for the item of each number, from 0
    ghost Seen: { Type 0 };

    ghost view: { Self → Seen };

    ghost rule: { lists.Items Seen };

    /// The item of this number, and the tokens behind it.
    fn read<'a, 't>(
        alloc: Global,
        number: usize,
        tokens: &'t [Placed<'a>],
    ) -> Result<(Self, &'t [Placed<'a>]), Stop<'a>>
        ensures reads { Gives (λ x. (view x.0, views x.1.now)) result (rule number (views tokens.now)) }
        ensures shorter { IfOk result (λ x. length x.1.now ≤ length tokens.now) };
}

/// Items with a sign between them, and the tokens behind.
pub(crate) fn chain<'a, 't, T: Item>(
    alloc: Global,
    sign: &str,
    tokens: &'t [Placed<'a>],
) -> Result<(Chain<T>, &'t [Placed<'a>]), Stop<'a>>
    ensures reads { Gives (λ x. (chain_by T.view x.0, views x.1.now)) result (lists.with_signs sign.now T.rule (views tokens.now)) }
    ensures shorter { IfOk result (λ x. length x.1.now ≤ length tokens.now) }
{
    let (first, mut rest) = T::read(alloc, 0, tokens)?;
    let mut more = Vec::new(alloc);
    'items: while let Some(after) = past_sign(rest, sign) {
        let (next, behind) = T::read(alloc, more.len() + 1, after)?;
        more.push(next)?;
        rest = behind;
    }
    let more = Items::from_vec(more);
    Ok((Chain { first, more }, rest))
}

impl Item for Text {
    ghost Seen = { tree.Name };

    ghost view = { λ x. x };

    ghost rule = { λ k. name };

    fn read<'a, 't>(
        alloc: Global,
        _number: usize,
        tokens: &'t [Placed<'a>],
    ) -> Result<(Text, &'t [Placed<'a>]), Stop<'a>> {
        name(alloc, tokens)
    }
}
