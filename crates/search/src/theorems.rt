// What every search finds: each promise is a theorem on a function's contract, for every cost structure; the function only carries it.
ghost use Rattle.search.specs.Theorems.{VisitsAreFew, IncumbentIsReal, BestIsFound, NoneIsBelow, BottomIsBelow, RunsCompose, EndedIsEnded, SteadyThroughout, PaidIsGranted};

// A search visits each prefix at most once.
pub fn visits_are_few<C>()
    ensures { VisitsAreFew C }
{}

// An incumbent is a full setting below the limit, and the bar is its cost.
pub fn incumbent_is_real<C>()
    ensures { IncumbentIsReal C }
{}

// The incumbent of a search that ended is the best setting.
pub fn best_is_found<C>()
    ensures { BestIsFound C }
{}

// A search that ended without an incumbent shows that no setting is below the limit.
pub fn none_is_below<C>()
    ensures { NoneIsBelow C }
{}

// No setting is below the floor of the empty prefix.
pub fn bottom_is_below<C>()
    ensures { BottomIsBelow C }
{}

// Budgets one after the other come to what one budget does.
pub fn runs_compose<C>()
    ensures { RunsCompose C }
{}

// A search that ended makes no more visits.
pub fn ended_is_ended<C>()
    ensures { EndedIsEnded C }
{}

// A search stays steady, whatever the floors are.
pub fn steady_throughout<C>()
    ensures { SteadyThroughout C }
{}

// What the theorems take for granted can be had: the paid floors give it for every formed problem.
pub fn paid_is_granted<C>()
    ensures { PaidIsGranted C }
{}
