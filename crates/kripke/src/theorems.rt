//! What follows from the definitions, each theorem asked for by the contract of a function, which does nothing.
ghost use Rattle.kripke.specs.Claims.{RoundsEquivalent, RoundsRefine, RoundsDecided, ComponentsKept, StNarrows};
ghost use Rattle.kripke.specs.Claims.{StableStays, RoundsSettle, SettledOnce, RoundsCounted, ClassFormula, PartedByFormula, StableExact};
ghost use Rattle.kripke.specs.Claims.{ReducedAgrees, ReducedSmallest, ReducedThere, ReducedOnce, GloballyGoesOn, TruthDecided};
ghost use Rattle.kripke.specs.Claims.{NumbersOnce, ClassesOnce, ComponentsOnce, ClassesThere, ComponentsThere};

/// C_r is an equivalence relation on the states that can be decided, and each round refines the one before.
pub fn rounds_relate() -> u8
    ensures equivalent { RoundsEquivalent }
    ensures decided { RoundsDecided }
    ensures refine { RoundsRefine }
{
    0
}

/// States of one component are never parted, and ST of the next round is the old one, filtered by the new relation.
pub fn components_stay() -> u8
    ensures kept { ComponentsKept }
    ensures narrows { StNarrows }
{
    0
}

/// Once a round parts nothing no later round does; one round settles, and the classes bound it.
pub fn rounds_end() -> u8
    ensures stays { StableStays }
    ensures settle { RoundsSettle }
    ensures once { SettledOnce }
    ensures counted { RoundsCounted }
{
    0
}

/// Each class of C_r has a formula of its own, nested at most r deep; so one tells apart what r rounds part.
pub fn parted_by_formula() -> u8
    ensures class { ClassFormula }
    ensures parted { PartedByFormula }
{
    0
}

/// Where one more round parts nothing, the relation is agreement on every formula.
pub fn settled_is_agreement() -> u8
    ensures { StableExact }
{
    0
}

/// The reduced model agrees with the model that it reduces, and is the smallest that can stand for it;
/// there is one, and no other.
pub fn reduced_stands() -> u8
    ensures agrees { ReducedAgrees }
    ensures smallest { ReducedSmallest }
    ensures there { ReducedThere }
    ensures once { ReducedOnce }
{
    0
}

/// EG f is a path of every length, and a path to a cycle, with f throughout.
pub fn globally_goes_on() -> u8
    ensures { GloballyGoesOn }
{
    0
}

/// Whether a formula holds at a state can be decided.
pub fn truth_decided() -> u8
    ensures { TruthDecided }
{
    0
}

/// Classes and components have numbers by first member, in one way only.
pub fn numbered_once() -> u8
    ensures once { NumbersOnce }
    ensures classes { ClassesOnce }
    ensures components { ComponentsOnce }
    ensures classed { ClassesThere }
    ensures joined { ComponentsThere }
{
    0
}
