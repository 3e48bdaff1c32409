//! The laws of orders.

ghost use Rattle.std.specs.Prelude.{◌≡◌, ℕ, ◌≤◌, ◌<◌, ◌^◌, List};
ghost use Rattle.bound_specs.specs.Spec.{Spec, queues_of};
ghost use Rattle.machine_model.specs.World.{World};
ghost use Rattle.world_graph.specs.Worlds.{LeadsBack, AreFewWords};
ghost use Rattle.world_graph.specs.Census.{AreFinals};
ghost use Rattle.world_graph.specs.declared.schedules.Final.{Final};
ghost use Rattle.spec_schedules.specs.declared.kind.Kind.{Kind};
ghost use Rattle.spec_schedules.specs.Schedules.{IsSchedule, IsPermutation, NoneIsDropped, HasAllSteps, IsOrder, IsRank, permutations};
ghost use Rattle.spec_schedules.specs.Points.{Point, point_rules, start_point};
ghost use Rattle.spec_schedules.specs.Counted.{AreAllCounted};
ghost use Rattle.spec_schedules.specs.Laws.{OneRankEach, OrdersAreAlone, PermutationsAreRanked, RanksAreUnique};

/// A permutation in which no step is dropped is a schedule, and a schedule that has all steps is one.
pub fn schedules_and_permutations()
    ensures undropped { (run : Spec) (start : World) (ks : List ℕ) → IsPermutation run start ks → NoneIsDropped run start ks → IsSchedule run start ks }
    ensures whole { (run : Spec) (start : World) (ks : List ℕ) → IsSchedule run start ks → HasAllSteps run ks → IsPermutation run start ks × NoneIsDropped run start ks }
{}

/// The orders of a spec are the maximal words of its graph: what is counted of words is counted of orders.
pub fn orders_are_words()
    ensures { (kind : Kind) (run : Spec) (start : World) (seen : List Point) (finals : List Final) → run.sessions ≤ 8 → AreFinals point_rules seen (start_point kind run start) finals
        → AreAllCounted kind run start seen finals }
{}

/// Each order has a rank: that of the least permutation that begins with it.
pub fn each_order_has_a_rank()
    ensures { (kind : Kind) (run : Spec) (start : World) (ks : List ℕ) → run.sessions ≤ 8 → IsOrder kind run.steps (queues_of run) start ks
        → (first : ℕ) × IsRank (queues_of run) ks first }
{}

/// Orders of one kind that have one rank are one, and each has one rank.
pub fn ranks_are_unique()
    ensures orders { RanksAreUnique }
    ensures alone { OrdersAreAlone }
    ensures ranks { OneRankEach }
{}

/// Each rank has its permutation, the one that `line` tells of it.
pub fn permutations_are_ranked()
    ensures { PermutationsAreRanked }
{}

/// No step leads back to a world that was, since fewer are left.
pub fn no_order_leads_back()
    ensures { LeadsBack point_rules → ⊥ }
{}

/// Fewer than 2^64 words lead to a world, of ranks below 2^64, where there are fewer permutations than 2^63.
pub fn orders_are_few()
    ensures { (kind : Kind) (run : Spec) (start : World) → permutations (queues_of run) < 2 ^ 63 → AreFewWords point_rules (start_point kind run start) }
{}
