// A gate with its held pins, over rows whose bounds leave room for its delay.
ghost use Rattle.settling.specs.Asked.{Small};

use crate::gate_at::GateAt;
use runs::Row;
use runs::row::PINS;

#[derive(Drop)]
pub(crate) struct HeldGate<'a> {
    pub(crate) at: GateAt<'a, Row>,
    // the value at which each pin is held, or none
    pub(crate) held: &'a [Option<bool>; PINS],
    ghost small: { Small at.below.now },
}
