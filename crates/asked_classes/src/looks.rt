//! What is looked at.

ghost use Rattle.std.specs.Prelude.{IfErr, IfOk};
ghost use Rattle.asked_classes.specs.Looks.{AreLooks, AreNoLooks, IsLookAsked, IsNoLookAsked};

use crate::fault::AskedFault;
use binding_model::Table;
use class_looks::{Look, LookFault, look_of};
use std::alloc::Global;

/// A look with the text that it was read from.
#[derive(Drop)]
pub struct AskedLook<'a> {
    pub text: &'a str,
    pub look: Look,
}

/// The looks that these texts are over the tables. It is refused for the first that is none.
pub(crate) fn looks_of<'a>(
    alloc: Global,
    tables: &[Table],
    texts: &[&'a str],
) -> Result<Vec<AskedLook<'a>>, AskedFault<'a>>
    ensures looks { IfOk result (λ looks. AreLooks tables.now texts.now looks.items) }
    ensures refused { IfErr result (AreNoLooks tables.now texts.now) }
{
    let mut looks = Vec::new(alloc);
    for place in 0..texts.len() {
        let look = match asked_look(alloc, tables, texts[place]) {
            Ok(look) => look,
            Err(fault) => return Err(fault),
        };
        let Ok(()) = looks.push(look) else {
            return Err(AskedFault::NoMemory);
        };
    }
    Ok(looks)
}

/// The look that a text is over the tables.
pub(crate) fn asked_look<'a>(
    alloc: Global,
    tables: &[Table],
    text: &'a str,
) -> Result<AskedLook<'a>, AskedFault<'a>>
    ensures look { IfOk result (IsLookAsked tables.now text.entry) }
    ensures refused { IfErr result (IsNoLookAsked tables.now text.entry) }
{
    match look_of(alloc, tables, text) {
        Ok(look) => Ok(AskedLook { text, look }),
        Err(LookFault::NoMemory) => Err(AskedFault::NoMemory),
        Err(fault) => Err(AskedFault::NoLook(text, fault)),
    }
}
