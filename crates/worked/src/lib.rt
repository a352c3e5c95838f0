//! Worked cases: the definitions of a model's classes computed, and what they give on small models.
#![tactic(auto)]

ghost use Rattle.worked.specs.Claims.{RelationComputed, StComputed, NextComputed, LoopComputed, ClassesComputed, ComponentsComputed};
ghost use Rattle.worked.specs.Claims.{SettlingComputed, TruthComputed, TotalityComputed, ReductionComputed};
ghost use Rattle.worked.specs.Cases.{Worked};

/// What is computed by tables is what the definitions say.
pub fn computed() -> u8
    ensures relation { RelationComputed }
    ensures reach { StComputed }
    ensures next { NextComputed }
    ensures looped { LoopComputed }
    ensures classes { ClassesComputed }
    ensures components { ComponentsComputed }
    ensures settling { SettlingComputed }
    ensures truth { TruthComputed }
    ensures totality { TotalityComputed }
    ensures reduction { ReductionComputed }
{
    0
}

/// The worked cases, each by computation.
pub fn worked_cases() -> u8
    ensures { Worked }
{
    0
}
