// The gate behind a net.
ghost use Rattle.std.specs.Prelude.{◌≡◌, false, MatchOption};
ghost use Rattle.netlist.specs.Plain.{plain_gate};
ghost use Rattle.netlist.specs.View.{plain};
ghost use Rattle.runs.specs.GateOf.{GateOf, has_gate};

use netlist::{Circuit, Gate, Net};

// The gate whose net has this number, or none for an input and for a number that is no net.
pub fn gate_of(circuit: &Circuit, net: Net) -> Option<&Gate>
    ensures { MatchOption result (has_gate (plain circuit.now) net ≡ false) (λ g. GateOf (plain circuit.now) net (plain_gate g.now)) }
{
    let place = usize::from(net).checked_sub(usize::from(circuit.inputs()))?;
    circuit.gates().get(place)
}
