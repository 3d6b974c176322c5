// Asking any source, with what its answer means in every run.
ghost use Rattle.std.specs.Prelude.{◌≡◌, true};
ghost use Rattle.netlist.specs.View.{plain};
ghost use Rattle.ordering.specs.Source.{OrderedInRuns};
ghost use Rattle.runs.specs.Row.{HasRow};

use crate::source::OrderSource;
use netlist::{Circuit, Net};
use runs::Row;

// The source's answer.
fn answer<S: OrderSource>(source: &S, circuit: &Circuit, rows: &[Row], q: Net, p: Net) -> bool
    ensures { result ≡ S.OrderSource.says (S.OrderSource.held source.now) (plain circuit.now) rows.now q p }
{
    source.before(circuit, rows, q, p)
}

// Whether every flip of net q comes before every flip of net p. A yes holds in every run of the circuit that meets what the
// source holds and in which the rows are true, and is said only of nets that have rows.
pub fn ordered<S: OrderSource>(source: &S, circuit: &Circuit, rows: &[Row], q: Net, p: Net) -> bool
    ensures answer { result ≡ S.OrderSource.says (S.OrderSource.held source.now) (plain circuit.now) rows.now q p }
    ensures holds { result ≡ true → OrderedInRuns (S.OrderSource.held source.now) (plain circuit.now) rows.now q p }
    ensures rowed { result ≡ true → HasRow (plain circuit.now) rows.now q × HasRow (plain circuit.now) rows.now p }
{
    answer(source, circuit, rows, q, p)
}
