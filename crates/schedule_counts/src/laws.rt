//! What the counts of states say of what is shown.

ghost use Rattle.std.specs.Prelude.{ℕ, ◌<◌, ◌≤◌, ◌^◌, List};
ghost use Rattle.binding_model.specs.declared.tables.Table.{Table};
ghost use Rattle.bound_specs.specs.Spec.{Spec, queues_of};
ghost use Rattle.machine_model.specs.World.{World};
ghost use Rattle.spec_schedules.specs.declared.kind.Kind.{Kind};
ghost use Rattle.spec_schedules.specs.Schedules.{permutations};
ghost use Rattle.order_classes.specs.declared.shows.Shows.{Shows};
ghost use Rattle.schedule_counts.specs.declared.counting.FinalState.{FinalState};
ghost use Rattle.schedule_counts.specs.States.{AreFinalStates};
ghost use Rattle.schedule_counts.specs.Classes.{AreClasses};

/// The counts of all states that show the same have the number of the orders that show it as their sum, and no sum of counts is too large. That two entries
/// have one state, or show the same, does no harm.
pub fn sums_are_exact()
    ensures { (kind : Kind) (tables : List Table) (run : Spec) (start : World) (shown : List Shows) (states : List FinalState) → run.sessions ≤ 8 → permutations (queues_of run) < 2 ^ 63
        → AreFinalStates kind tables run start shown states → AreClasses kind tables run start shown states }
{}
