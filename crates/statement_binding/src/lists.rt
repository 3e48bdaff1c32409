//! Lists of what is bound.

ghost use Rattle.std.specs.Prelude.{◌++◌, ◌∷◌, [], Ok};
ghost use Rattle.binding_model.specs.Refusals.{Bind, Binds, ◌>>=◌ as and_then};

use binding_model::BindStop;

/// Adds what is bound next, if it is.
pub(crate) fn push_bound<T: Drop>(
    all: &mut Vec<T>,
    bound: Result<T, BindStop>,
) -> Result<(), BindStop>
    ensures { (one : Bind T) → Binds (λ x. x) bound one → Binds (λ _. all.new.items) result (and_then one (λ x. Ok (all.old.items ++ (x ∷ [])))) }
{
    all.push(bound?)?;
    Ok(())
}
