// Theorems on solutions: each function's contract is one of them.
ghost use Rattle.relational.specs.Laws.{NoSolutionOfMore, UniversalEquivalent};

// Two universal solutions of the same facts and dependencies go into each other.
pub fn universal_equivalent() -> u8
    ensures { UniversalEquivalent }
{
    0
}

// What has no solution has none with more facts.
pub fn no_solution_of_more() -> u8
    ensures { NoSolutionOfMore }
{
    0
}
