// Theorems on rest. Each function computes nothing; its contract is a theorem.
ghost use Rattle.settling_theory.specs.RestTheorems.{RestHolds, RestIsLettersFor, RestIsLettersWhereMet, RunExistsFor, RunExistsWhereMet};

use ordering::OrderSource;

// In every run with its inputs in the classes each net starts and ends as rest tells.
pub fn rest_holds_in_every_run()
    ensures { RestHolds }
{}

// Where input waveforms in the classes meet the separations, there is a run with such inputs.
pub fn run_exists_where_met()
    ensures { RunExistsWhereMet }
{}

// So there is for all that an order source may hold.
pub fn run_exists_for_a_source<S: OrderSource>()
    ensures { RunExistsFor S.OrderSource.held }
{}

// Rest of each net is the start and the end letter of its settled class, where each yes holds and the separations can be met.
pub fn rest_is_letters_where_met()
    ensures { RestIsLettersWhereMet }
{}

// So it is by all that an order source may hold and say.
pub fn rest_is_letters_for_a_source<S: OrderSource>()
    ensures { RestIsLettersFor S.OrderSource.held S.OrderSource.says }
{}
