// Theorems on what can be left out, and on moving in two stages: each function's contract is one of them.
ghost use Rattle.redundancy.specs.Cores.{CoreRight, CoreUniversal, CoresUniversal, HomomorphismTested};
ghost use Rattle.redundancy.specs.Examples.{SmallExamples};
ghost use Rattle.redundancy.specs.Implied.{ImpliedAtUniversal, ImpliedInEveryOrder, ImpliedMayGo, ImpliedWhereItEnds};
ghost use Rattle.redundancy.specs.Reduced.{ReducedRight};
ghost use Rattle.redundancy.specs.Staged.{TwoStagesWhereItEnds};
ghost use Rattle.redundancy.specs.Tgds.{OnlyTgdsTested, TgdsNeverFail, TgdsOnlyAdd, UniversalCarried};
ghost use Rattle.redundancy.specs.TwoStages.{ApartTested, TwoStagesInEveryOrder, TwoStagesRight};

// A test of each dependency tells whether all are tgds.
pub fn only_tgds_tested() -> u8
    ensures { OnlyTgdsTested }
{
    0
}

// Steps by tgds only add facts, of relations that the tgds give.
pub fn tgds_only_add() -> u8
    ensures { TgdsOnlyAdd }
{
    0
}

// Steps by tgds never fail.
pub fn tgds_never_fail() -> u8
    ensures { TgdsNeverFail }
{
    0
}

// A universal solution by tgds, with all numbers of the facts for constants, goes wherever the facts go.
pub fn universal_carried() -> u8
    ensures { UniversalCarried }
{
    0
}

// The chase of a tgd's frozen body tells whether tgds imply it, in whichever order violations are mended.
pub fn implied_in_every_order() -> u8
    ensures { ImpliedInEveryOrder }
{
    0
}

// So it does where the steps that mend the first violation end.
pub fn implied_where_it_ends() -> u8
    ensures { ImpliedWhereItEnds }
{
    0
}

// So does any universal solution of the frozen body.
pub fn implied_at_universal() -> u8
    ensures { ImpliedAtUniversal }
{
    0
}

// A dependency that the others imply may be added or left out.
pub fn implied_may_go() -> u8
    ensures { ImpliedMayGo }
{
    0
}

// Dependencies that the others imply may go one by one: the same instances are solutions, and none of those that stay is implied by the others.
pub fn reduced_right() -> u8
    ensures { ReducedRight }
{
    0
}

// A test of each of the second dependencies tells whether they may come in a second stage.
pub fn apart_tested() -> u8
    ensures { ApartTested }
{
    0
}

// What is moved in two stages is universal for all dependencies at once, in whichever order violations are mended.
pub fn two_stages_in_every_order() -> u8
    ensures { TwoStagesInEveryOrder }
{
    0
}

// So it is with facts of constants and the steps that mend the first violation.
pub fn two_stages_right() -> u8
    ensures { TwoStagesRight }
{
    0
}

// So it is wherever the steps of a move in two stages end.
pub fn two_stages_where_it_ends() -> u8
    ensures { TwoStagesWhereItEnds }
{
    0
}

// Whether an instance goes into another is decided by matching.
pub fn homomorphism_tested() -> u8
    ensures { HomomorphismTested }
{
    0
}

// The core is a part into which the instance goes, and of which nothing can be spared.
pub fn core_right() -> u8
    ensures { CoreRight }
{
    0
}

// Any core of a universal solution of facts of constants is universal.
pub fn cores_universal() -> u8
    ensures { CoresUniversal }
{
    0
}

// So is the core that is computed.
pub fn core_universal() -> u8
    ensures { CoreUniversal }
{
    0
}

// Small examples: homomorphisms, cores, implied tgds and second stages hold somewhere and fail somewhere.
pub fn small_examples() -> u8
    ensures { SmallExamples }
{
    0
}
