// A pin of a gate, with the source that is asked whether another pin holds it.
ghost use Rattle.std.specs.Prelude.{◌<◌, length};
ghost use Rattle.netlist.specs.Plain.{plain_gate};

use crate::gate_at::GateAt;
use netlist::Circuit;
use runs::Row;

#[derive(Drop)]
pub(crate) struct Pin<'a, S> {
    pub(crate) source: &'a S,
    pub(crate) circuit: &'a Circuit,
    pub(crate) at: &'a GateAt<'a, Row>,
    pub(crate) place: usize,
    ghost there: { place < length (plain_gate at.now.gate.now).pins },
}
