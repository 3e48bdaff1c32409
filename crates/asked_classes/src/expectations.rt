//! What is expected.

ghost use Rattle.std.specs.Prelude.{IfErr, IfOk};
ghost use Rattle.asked_classes.specs.Looks.{AreExpectations, AreNoExpectations, AreNoValues, AreValues, IsExpectationAsked, IsNoExpectation, IsNoValue, IsValue};

use crate::fault::AskedFault;
use crate::looks::asked_look;
use binding_model::Table;
use class_looks::{Look, value_of};
use lock_modes::Value;
use std::alloc::Global;
use wanted_classes::WantedExpectation;

/// A look with the text that it was read from, and the values of the one row that it is expected to see.
#[derive(Drop)]
pub struct AskedExpectation<'a> {
    pub text: &'a str,
    pub look: Look,
    pub values: Vec<Value>,
}

/// What is expected over the tables. It is refused for the first that is no SELECT, or has a word that is no value.
pub(crate) fn expectations_of<'a>(
    alloc: Global,
    tables: &[Table],
    wanted: &[WantedExpectation<'a>],
) -> Result<Vec<AskedExpectation<'a>>, AskedFault<'a>>
    ensures expected { IfOk result (λ asked. AreExpectations tables.now wanted.now asked.items) }
    ensures refused { IfErr result (AreNoExpectations tables.now wanted.now) }
{
    let mut asked = Vec::new(alloc);
    for place in 0..wanted.len() {
        let expectation = match expectation_of(alloc, tables, &wanted[place]) {
            Ok(expectation) => expectation,
            Err(fault) => return Err(fault),
        };
        let Ok(()) = asked.push(expectation) else {
            return Err(AskedFault::NoMemory);
        };
    }
    Ok(asked)
}

fn expectation_of<'a>(
    alloc: Global,
    tables: &[Table],
    wanted: &WantedExpectation<'a>,
) -> Result<AskedExpectation<'a>, AskedFault<'a>>
    ensures expected { IfOk result (IsExpectationAsked tables.now wanted.now) }
    ensures refused { IfErr result (IsNoExpectation tables.now wanted.now) }
{
    let asked = match asked_look(alloc, tables, wanted.select) {
        Ok(asked) => asked,
        Err(fault) => return Err(fault),
    };
    match values_of(alloc, wanted.values.as_slice()) {
        Ok(values) => Ok(AskedExpectation {
            text: asked.text,
            look: asked.look,
            values,
        }),
        Err(fault) => Err(fault),
    }
}

/// The values that are written so in `row` lines. It is refused for the first word that is none.
fn values_of<'a>(alloc: Global, words: &[&'a str]) -> Result<Vec<Value>, AskedFault<'a>>
    ensures values { IfOk result (λ values. AreValues words.now values.items) }
    ensures refused { IfErr result (AreNoValues words.now) }
{
    let mut values = Vec::new(alloc);
    for place in 0..words.len() {
        let value = match asked_value(alloc, words[place]) {
            Ok(value) => value,
            Err(fault) => return Err(fault),
        };
        let Ok(()) = values.push(value) else {
            return Err(AskedFault::NoMemory);
        };
    }
    Ok(values)
}

fn asked_value<'a>(alloc: Global, word: &'a str) -> Result<Value, AskedFault<'a>>
    ensures value { IfOk result (IsValue word.entry) }
    ensures refused { IfErr result (IsNoValue word.entry) }
{
    match value_of(alloc, word) {
        Ok(Some(value)) => Ok(value),
        Ok(None) => Err(AskedFault::NoValue(word)),
        Err(_) => Err(AskedFault::NoMemory),
    }
}
