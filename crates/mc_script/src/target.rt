//! Which slab classes a directive names.
ghost use Rattle.std.specs.Prelude.{◌≡◌, ◌+◌, ◌≤◌};
ghost use Rattle.mc_proto.specs.Grammar.{AreAmong};
ghost use Rattle.mc_script.specs.Script.{classes_from, classes_named};

use mc_proto::{Limits, Target};

/// Returns the number of the first slab class that a target names, and how many in rising order it names from there on.
pub(crate) fn numbers_of(limits: Limits, target: Target) -> (u32, u32)
    requires among { AreAmong limits target }
    ensures named { classes_from result.0 result.1 ≡ classes_named limits target }
    ensures first { 1 ≤ result.0 }
    ensures last { result.0 + result.1 ≤ limits.classes + 1 }
{
    match target {
        Target::All => (1, limits.classes),
        Target::Class(class) => (class.0, 1),
    }
}
