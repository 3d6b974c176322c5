// A circuit: its inputs and its gates. Every value of this type keeps all limits.
ghost use Rattle.std.specs.Prelude.{T};
ghost use Rattle.netlist.specs.Circuit.{valid_circuit};
ghost use Rattle.netlist.specs.Plain.{plain_gates};

use crate::gate::Gate;

mod parts;
mod read;

#[derive(Drop)]
pub struct Circuit {
    inputs: u8,
    gates: Vec<Gate>,
    ghost valid: { T (valid_circuit (record { inputs = inputs; gates = plain_gates gates.items })) },
}
