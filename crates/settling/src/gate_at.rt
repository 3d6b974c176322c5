// A gate with what is known of each net below its own: its row, or its value.
ghost use Rattle.std.specs.Prelude.{◌≡◌, ◌<◌, T, length, slice_index_or};
ghost use Rattle.netlist.specs.Circuit.{valid_gate};
ghost use Rattle.netlist.specs.Plain.{plain_gate};
ghost use Rattle.settling_theory.specs.Settled.{pin_net};

use netlist::{Gate, Net};

#[derive(Drop)]
pub(crate) struct GateAt<'a, K> {
    pub(crate) gate: &'a Gate,
    // what is known of each net below the gate's own
    pub(crate) below: &'a [K],
    ghost valid: { T (valid_gate (length below.now) (plain_gate gate.now)) },
}

// A place is asked to be one of the gate's pins, as an index is asked to be in range: a type of places would have to say of which
// gate.
impl<'a, K> GateAt<'a, K> {
    // The number of pins.
    pub(crate) fn pins(&self) -> usize
        ensures { result ≡ length (plain_gate self.now.gate.now).pins }
    {
        self.gate.pins.len()
    }

    // The net at a pin place.
    pub(crate) fn net(&self, place: usize) -> Net
        requires { place < length (plain_gate self.now.gate.now).pins }
        ensures { result ≡ pin_net (plain_gate self.now.gate.now) place }
    {
        self.gate.pins[place]
    }

    // What is known of the net at a pin place.
    pub(crate) fn known(&self, place: usize) -> &'a K
        requires { place < length (plain_gate self.now.gate.now).pins }
        ensures { (d : K) → result.now ≡ slice_index_or self.now.below.now (pin_net (plain_gate self.now.gate.now) place) d }
    {
        &self.below[usize::from(self.net(place))]
    }
}
