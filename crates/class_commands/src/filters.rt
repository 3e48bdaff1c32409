//! The words of filters.

ghost use Rattle.std.specs.Prelude.{◌≡◌, ◌++◌, IfOk, OnOk, codes, flat_map, string_bytes};
ghost use Rattle.class_commands.specs.Classing as spec;

use std::alloc::{AllocError, Global};
use wanted_classes::{WantedFilter, WantedTest};

fn push_test(text: &mut String, test: WantedTest<'_>) -> Result<(), AllocError>
    ensures { OnOk result (string_bytes text.new ≡ string_bytes text.old ++ spec.test_word test.entry) }
{
    match test {
        WantedTest::Waits => text.push_str("waits"),
        WantedTest::Deadlock => text.push_str("deadlock"),
        WantedTest::DeadlockOf(name) => push_victim(text, name),
        WantedTest::Error => text.push_str("error"),
        WantedTest::NotSent => text.push_str("not-sent"),
        WantedTest::Stuck => text.push_str("stuck"),
        WantedTest::Anomaly => text.push_str("anomaly"),
    }
}

fn push_victim(text: &mut String, name: &str) -> Result<(), AllocError>
    ensures { OnOk result (string_bytes text.new ≡ string_bytes text.old ++ (codes "deadlock=" ++ name.now)) }
{
    text.push_str("deadlock=")?;
    text.push_str(name)
}

fn push_filter(text: &mut String, filter: WantedFilter<'_>) -> Result<(), AllocError>
    ensures { OnOk result (string_bytes text.new ≡ string_bytes text.old ++ spec.filter_word filter.entry) }
{
    text.push_str(if filter.wanted { "--" } else { "--no-" })?;
    push_test(text, filter.test)
}

fn push_others(text: &mut String, filters: &[WantedFilter<'_>]) -> Result<(), AllocError>
    ensures { OnOk result (string_bytes text.new ≡ string_bytes text.old ++ flat_map spec.behind_blank filters.now) }
{
    for filter in filters {
        text.push_str(" ")?;
        push_filter(text, *filter)?;
    }
    Ok(())
}

/// The words of filters, with a blank between each two.
pub(crate) fn filters_text(
    alloc: Global,
    filters: &[WantedFilter<'_>],
) -> Result<String, AllocError>
    ensures { IfOk result (λ text. string_bytes text ≡ spec.filters_text filters.now) }
{
    let mut text = String::new(alloc);
    match filters.split_first() {
        None => {}
        Some((first, others)) => {
            push_filter(&mut text, *first)?;
            push_others(&mut text, others)?;
        }
    }
    Ok(text)
}
