// Settling: one row is written at each net, in rising order, from the rows below it.
ghost use Rattle.std.specs.Prelude.{◌≡◌, ◌<◌, take, slice_set};
ghost use Rattle.netlist.specs.Circuit.{net_count};
ghost use Rattle.settling_theory.specs.Meaning.{SettledMeans};
ghost use Rattle.settling_theory.specs.Settled.{row_for, settled};
ghost use Rattle.settling.specs.Asked.{Small, asked};
ghost use Rattle.settling.specs.Tables.{circuit_of, classes_of, rows_of};
ghost use Rattle.settling.specs.Told.{BoundsFit, LettersAreRest};

use crate::gate_at::GateAt;
use crate::rows::{row_for_gate, row_for_input};
use crate::tables::Tables;
use netlist::Net;
use ordering::OrderSource;
use runs::{Row, gate_of};

// The rows below net n: what the source is lent at net n. The net is asked to be one, as an index is asked to be in range: a type
// of nets would have to say of which circuit.
fn rows_below(tables: &Tables, n: Net) -> &[Row]
    requires { n < net_count (circuit_of tables.now) }
    ensures { result.now ≡ take n (rows_of tables.now) }
{
    &tables.rows.as_slice()[..usize::from(n)]
}

// The row of net n.
fn row_for<S: OrderSource>(tables: &Tables, source: &S, n: Net) -> Row
    requires { (n < net_count (circuit_of tables.now)) × (Small (take n (rows_of tables.now))) }
    ensures { result ≡ row_for (asked S.OrderSource source.now tables.now.circuit) (circuit_of tables.now) (classes_of tables.now) (take n (rows_of tables.now)) n }
{
    let net = usize::from(n);
    match gate_of(&tables.circuit, n) {
        None => row_for_input(tables.classes[net], net),
        Some(gate) => {
            let below = rows_below(tables, n);
            row_for_gate(source, &tables.circuit, GateAt { gate, below })
        }
    }
}

// Writes the row of net n. That the rows below are small holds only as `settle` goes up, so no type of the tables has it.
fn settle_net<S: OrderSource>(tables: &mut Tables, source: &S, n: Net)
    requires { (n < net_count (circuit_of tables.old)) × (Small (take n (rows_of tables.old))) }
    ensures rows { rows_of tables.new ≡ slice_set (rows_of tables.old) n (row_for (asked S.OrderSource source.now tables.old.circuit) (circuit_of tables.old) (classes_of tables.old) (take n (rows_of tables.old)) n) }
    ensures circuit { tables.new.circuit ≡ tables.old.circuit }
    ensures classes { classes_of tables.new ≡ classes_of tables.old }
{
    let row = row_for(tables, source, n);
    tables.rows[usize::from(n)] = row;
}

// Settles every net. Only the rows change; they are exact by the source's answers and true in every run with its inputs in their
// classes that meets what the source holds, their letters are rest, and no bound passes 15,728,400.
pub fn settle<S: OrderSource>(tables: &mut Tables, source: &S)
    ensures rows { rows_of tables.new ≡ settled (asked S.OrderSource source.now tables.old.circuit) (circuit_of tables.old) (classes_of tables.old) }
    ensures circuit { tables.new.circuit ≡ tables.old.circuit }
    ensures classes { classes_of tables.new ≡ classes_of tables.old }
    ensures means { SettledMeans S.OrderSource.says (S.OrderSource.held source.now) (circuit_of tables.old) (classes_of tables.old) (rows_of tables.new) }
    ensures letters { LettersAreRest (circuit_of tables.old) (classes_of tables.old) (rows_of tables.new) }
    ensures fit { BoundsFit (circuit_of tables.old) (rows_of tables.new) }
{
    // a row is worked out from the rows below it, so no iterator over the rows can write them; `as` narrows a number
    // below 256, and `try_from` would give a fault that never comes
    for n in 0..tables.rows.len() {
        settle_net(tables, source, n as Net);
    }
}
