// Theorems on the settled rows. Each function computes nothing; its contract is a theorem.
ghost use Rattle.settling_theory.specs.Meaning.{SettledRowsAgree, SettledRowsAreExact, SettledRowsAreTrue, SettledRowsMean, SettledBoundsFit, RowsMean};

use ordering::OrderSource;

// The rows of fewer nets are the front of the rows of more, and each row is worked out from the rows below it.
pub fn settled_rows_agree()
    ensures { SettledRowsAgree }
{}

// Pins are held exactly by the rule, each class is the narrowest, and all bounds are tight.
pub fn settled_rows_are_exact()
    ensures { SettledRowsAreExact }
{}

// The settled rows are true in every run with its inputs in the classes that meets the separations.
pub fn settled_rows_are_true()
    ensures { SettledRowsAreTrue }
{}

// What the settled rows mean: they are exact, and true in every such run.
pub fn settled_rows_mean()
    ensures { SettledRowsMean }
{}

// The same for the answers of any order source.
pub fn rows_by_a_source_mean<S: OrderSource>()
    ensures { RowsMean S.OrderSource.says }
{}

// All bounds that settling works out are in order and at most 65,535 for each gate up to their net, so at most 15,728,400.
pub fn settled_bounds_fit()
    ensures { SettledBoundsFit }
{}
