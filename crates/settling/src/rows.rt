// The row of one net, from the rows of the nets below it.
ghost use Rattle.std.specs.Prelude.{◌≡◌, ◌<◌};
ghost use Rattle.netlist.specs.Plain.{plain_gate};
ghost use Rattle.settling_theory.specs.Settled.{gate_row, input_row};
ghost use Rattle.settling.specs.Asked.{Small, asked};

use crate::gate_at::GateAt;
use crate::held_gate::HeldGate;
use crate::holding::held_pins;
use classes::Class;
use netlist::Circuit;
use ordering::OrderSource;
use runs::row::{INPUTS, PINS};
use runs::{Bounds, Row};

// The row of input n: its stimulus as class and, unless that is constant, bounds 0 to 0 from itself. The
// number is asked to be below 16, as an index is asked to be in range: a type of such numbers would have to be opened at each use.
pub(crate) fn row_for_input(class: Class, n: usize) -> Row
    requires { n < 16 }
    ensures { result ≡ input_row class n }
{
    let mut bounds = [None; INPUTS];
    if !class.is_constant() {
        bounds[n] = Some(Bounds { lo: 0, hi: 0 });
    }
    Row {
        class,
        bounds,
        held: [None; PINS],
    }
}

// The row of a gate's net. Source, circuit and gate become one `Pin` below, where there is a place too.
pub(crate) fn row_for_gate<S: OrderSource>(
    source: &S,
    circuit: &Circuit,
    at: GateAt<'_, Row>,
) -> Row
    requires { Small at.below.now }
    ensures { result ≡ gate_row (asked S.OrderSource source.now circuit.now) at.entry.below.now (plain_gate at.entry.gate.now) }
{
    let held = held_pins(source, circuit, &at);
    let gate = HeldGate { at, held: &held };
    let class = gate.class();
    let bounds = gate.bounds(class);
    Row {
        class,
        bounds,
        held,
    }
}
