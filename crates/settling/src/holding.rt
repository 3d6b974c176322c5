// Which pins of a gate are held, and at which value: the questions that are put to the source.
ghost use Rattle.std.specs.Prelude.{◌≡◌, ◌<◌, not, ◌&&◌, length, Some, ◌==◌};
ghost use Rattle.netlist.specs.Plain.{plain_gate};
ghost use Rattle.settling_theory.specs.Settled.{fixed_by, held_by, held_pin, held_pins, is_value, some_other};
ghost use Rattle.settling.specs.Asked.{asked};
ghost use Rattle.settling.specs.Holding.{held_there, may_hold};

use crate::gate_at::GateAt;
use crate::letter::{Hold, Letter};
use crate::pin::Pin;
use classes::Three;
use netlist::Circuit;
use ordering::OrderSource;
use runs::Row;
use runs::row::PINS;
use std::array;

// The value that a letter fixes, if it is 0 or 1. Written here, with the rule of holding: to `classes` X is a value like the others.
fn fixed_by(letter: Three) -> Option<bool>
    ensures { result ≡ fixed_by letter }
{
    match letter {
        Three::Zero => Some(false),
        Three::One => Some(true),
        Three::Unknown => None,
    }
}

// Whether the letter is this value.
fn is_value(letter: Three, value: bool) -> bool
    ensures { result ≡ is_value letter value }
{
    fixed_by(letter) == Some(value)
}

impl<S: OrderSource> Pin<'_, S> {
    // Whether place q is another one and may hold this pin at the letter: for the start, q ends at control and is before the pin;
    // for the end, q starts at control and the pin is before it.
    fn is_holder(&self, hold: Hold, q: usize) -> bool
        requires { q < length (plain_gate self.now.at.now.gate.now).pins }
        ensures { result ≡ (not (q == self.now.place) && may_hold (asked S.OrderSource self.now.source.now self.now.circuit.now) self.now.at.now.below.now (plain_gate self.now.at.now.gate.now) hold self.now.place q) }
    {
        let class = self.at.known(q).class;
        let (pin, other) = (self.at.net(self.place), self.at.net(q));
        q != self.place
            && match hold.letter {
                Letter::Start => {
                    is_value(class.end(), hold.control)
                        && self.source.before(self.circuit, self.at.below, other, pin)
                }
                Letter::End => {
                    is_value(class.start(), hold.control)
                        && self.source.before(self.circuit, self.at.below, pin, other)
                }
            }
    }

    // Whether another place may hold this pin at the letter; the first such place ends the questions.
    fn has_holder(&self, hold: Hold) -> bool
        ensures { result ≡ some_other (may_hold (asked S.OrderSource self.now.source.now self.now.circuit.now) self.now.at.now.below.now (plain_gate self.now.at.now.gate.now) hold self.now.place) self.now.place (length (plain_gate self.now.at.now.gate.now).pins) }
    {
        (0..self.at.pins()).any(|q| self.is_holder(hold, q))
    }

    // The value at which this pin is held at the letter: what its own letter fixes, if another place may hold it.
    fn held_at(&self, hold: Hold) -> Option<bool>
        ensures { result ≡ held_there (asked S.OrderSource self.now.source.now self.now.circuit.now) self.now.at.now.below.now (plain_gate self.now.at.now.gate.now) hold self.now.place }
    {
        let value = fixed_by(hold.letter.of(self.at.known(self.place).class))?;
        self.has_holder(hold).then_some(value)
    }

    // The value at which this pin is held, start first, failing that end.
    fn held_by(&self, control: bool) -> Option<bool>
        ensures { result ≡ held_by (asked S.OrderSource self.now.source.now self.now.circuit.now) self.now.at.now.below.now (plain_gate self.now.at.now.gate.now) (Some control) self.now.place }
    {
        let start = Hold {
            letter: Letter::Start,
            control,
        };
        let end = Hold {
            letter: Letter::End,
            control,
        };
        // no `or_else`: the check is told nothing of what its closure gives in a generic function
        match self.held_at(start) {
            None => self.held_at(end),
            held => held,
        }
    }
}

// The value at which a place is held; no pin, or a gate without a control value: none. Source, circuit and gate come one by one,
// here and in `held_pins`: they go into a `Pin` where there is a place that is a pin.
fn held_pin<S: OrderSource>(
    source: &S,
    circuit: &Circuit,
    at: &GateAt<'_, Row>,
    place: usize,
) -> Option<bool>
    ensures { result ≡ held_pin (asked S.OrderSource source.now circuit.now) at.now.below.now (plain_gate at.now.gate.now) place }
{
    if place >= at.pins() {
        return None;
    }
    let control = at.gate.function.control()?;
    let pin = Pin {
        source,
        circuit,
        at,
        place,
    };
    pin.held_by(control)
}

// The value at which each place is held.
pub(crate) fn held_pins<S: OrderSource>(
    source: &S,
    circuit: &Circuit,
    at: &GateAt<'_, Row>,
) -> [Option<bool>; PINS]
    ensures { result ≡ held_pins (asked S.OrderSource source.now circuit.now) at.now.below.now (plain_gate at.now.gate.now) }
{
    array::from_fn(|place| held_pin(source, circuit, at, place))
}
