//! The rank of an order among the permutation lines of a spec.

ghost use Rattle.std.specs.Prelude.{◌≡◌, ◌<◌, ◌↔◌, IfOk, IfErr, IsTrue};
ghost use Rattle.bound_specs.specs.Spec.{ranks, line_of};
ghost use Rattle.order_names.specs.Steps.{IsRankOfLine, IsNoLine};
ghost use Rattle.order_names.specs.declared.error.OrderError.TheVariants.{NoLine};

use crate::error::OrderError;
use bound_specs::Spec;

/// The first rank at which these steps are sent.
pub(crate) fn rank_of_line(spec: &Spec, line: &[u8]) -> Result<u64, OrderError>
    ensures rank { IfOk result (IsRankOfLine spec.now.run line.now) }
    ensures refused { IfErr result (λ error. error ≡ NoLine) }
    ensures none { IfErr result (λ error. IsNoLine spec.now.run line.now) }
{
    for rank in 0..spec.ranks() {
        if is_line(spec, rank, line) {
            return Ok(rank);
        }
    }
    Err(OrderError::NoLine)
}

/// Whether these steps are sent at the rank.
fn is_line(spec: &Spec, rank: u64, line: &[u8]) -> bool
    requires { rank < ranks spec.now.run }
    ensures { IsTrue result ↔ (line_of spec.now.run rank ≡ line.now) }
{
    match spec.line(rank) {
        Some(steps) => steps.as_slice() == line,
        None => false,
    }
}
