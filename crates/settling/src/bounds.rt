// The bounds of a gate's net: the least delay and the smallest lo, the greatest delay and the largest hi, over the pins that are
// not held.
ghost use Rattle.std.specs.Prelude.{◌≡◌, ◌+◌, ◌*◌, ◌<◌, ◌≤◌, length};
ghost use Rattle.netlist.specs.Plain.{plain_gate};
ghost use Rattle.runs.specs.Gathered.{delayed, from_place, gathered, unless_held};
ghost use Rattle.ordering.specs.TieTable.{AtMost};
ghost use Rattle.settling_theory.specs.Settled.{gate_bounds, listed};

use crate::held_gate::HeldGate;
use classes::Class;
use netlist::Gate;
use runs::row::INPUTS;
use runs::{Bounds, join_bounds};
use std::array;

// The bounds of a pin that is not held.
fn unless_held(held: Option<bool>, bounds: Option<Bounds>) -> Option<Bounds>
    ensures { result ≡ unless_held held bounds }
{
    bounds.filter(|_| held.is_none())
}

// The tick a delay after another; there is room for one more delay.
fn later(tick: u32, delay: u16) -> u32
    requires { tick ≤ 65535 * 255 }
    ensures { result ≡ tick + delay }
{
    tick + u32::from(delay)
}

// The bounds after the gate's delay. `tie_behind` of the stem layer adds the same: one function for both would be public in
// `runs`, and would have to ask that the sums fit, which no public function asks.
fn delay(gate: &Gate, bounds: Option<Bounds>) -> Option<Bounds>
    requires { AtMost (65535 * 255) bounds }
    ensures { result ≡ delayed (plain_gate gate.now) bounds }
{
    bounds.map(|b| Bounds {
        lo: later(b.lo, gate.least),
        hi: later(b.hi, gate.greatest),
    })
}

impl HeldGate<'_> {
    // What one pin place gives from input i: the bounds of its net after the gate's delay, unless the place is held. Number i is
    // asked to be below 16, as an index is asked to be in range: a type of such numbers would have to be opened at each use.
    fn from_place(&self, i: usize, place: usize) -> Option<Bounds>
        requires { (i < 16) × (place < length (plain_gate self.now.at.gate.now).pins) }
        ensures { result ≡ from_place self.now.at.below.now i (plain_gate self.now.at.gate.now) self.now.held.now place }
    {
        let bounds = self.at.known(place).bounds[i];
        delay(self.at.gate, unless_held(self.held[place], bounds))
    }

    // What all places give together from input i.
    fn gather(&self, i: usize) -> Option<Bounds>
        requires { i < 16 }
        ensures { result ≡ gathered (from_place self.now.at.below.now i (plain_gate self.now.at.gate.now) self.now.held.now) (length (plain_gate self.now.at.gate.now).pins) }
    {
        (0..self.at.pins()).fold(
            None,
            |all, place| join_bounds(all, self.from_place(i, place)),
        )
    }

    // The bounds from input i, or none if the class is constant.
    fn bounds_from(&self, class: Class, i: usize) -> Option<Bounds>
        requires { i < 16 }
        ensures { result ≡ gate_bounds self.now.at.below.now (plain_gate self.now.at.gate.now) self.now.held.now class i }
    {
        if class.is_constant() {
            None
        } else {
            self.gather(i)
        }
    }

    // The bounds from each input.
    pub(crate) fn bounds(&self, class: Class) -> [Option<Bounds>; INPUTS]
        ensures { result ≡ listed (gate_bounds self.now.at.below.now (plain_gate self.now.at.gate.now) self.now.held.now class) 16 }
    {
        array::from_fn(|i| self.bounds_from(class, i))
    }
}
