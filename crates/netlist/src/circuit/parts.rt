// The parts of a circuit.
ghost use Rattle.std.specs.Prelude.{◌≡◌, ◌≤◌, length};
ghost use Rattle.netlist.specs.Circuit.{net_count};
ghost use Rattle.netlist.specs.Plain.{plain_gates};
ghost use Rattle.netlist.specs.View.{plain};

use crate::circuit::Circuit;
use crate::gate::Gate;

impl Circuit {
    // How many inputs there are.
    pub fn inputs(&self) -> u8
        ensures { result ≡ (plain self.now).inputs }
    {
        self.inputs
    }

    // The gates, in file order.
    pub fn gates(&self) -> &[Gate]
        ensures { plain_gates result.now ≡ (plain self.now).gates }
    {
        self.gates.as_slice()
    }

    // How many gates there are.
    pub fn gate_count(&self) -> usize
        ensures value { result ≡ length (plain self.now).gates }
        ensures bound { result ≤ 240 }
    {
        self.gates.len()
    }

    // How many nets there are: the inputs and the gates.
    pub fn nets(&self) -> usize
        ensures { result ≡ net_count (plain self.now) }
    {
        usize::from(self.inputs) + self.gate_count()
    }
}
