// Theorems on the rules' definitions, each the contract of a function that does nothing else.
ghost use Rattle.shares.specs.Figures.{Figures};
ghost use Rattle.shares.specs.Laws.{FillsLawfully, RefusesRightly};
ghost use Rattle.shares.specs.Nearest.{RoundsToNearest};

// A refusal is given just where its cause is met.
pub fn refusals_stand()
    ensures { RefusesRightly }
{}

// What a rule's laws say of its shares, they say of the places that it fills.
pub fn laws_stand()
    ensures { FillsLawfully }
{}

// Nearest rounds to the nearest cent, halves away from zero.
pub fn nearest_stands()
    ensures { RoundsToNearest }
{}

// The worked figures are what the definitions give.
pub fn figures_stand()
    ensures { Figures }
{}
