// The levels as a whole: theorems, each on a function that does nothing else.
// Callers need not call them; what they promise stands for every month.
ghost use Rattle.levels.specs.Levels.{LevelsAddUp};

// Whatever level is read, its totals add up to all that stands in the month.
pub fn levels_add_up()
    ensures { LevelsAddUp }
{}
