// The class of a gate's net: its function on the classes of its pins, a held pin being a constant.
ghost use Rattle.std.specs.Prelude.{◌≡◌, ◌<◌, length, take};
ghost use Rattle.netlist.specs.Plain.{plain_gate};
ghost use Rattle.settling_theory.specs.Settled.{class_at, gate_class, pin_class, pin_classes};

use crate::held_gate::HeldGate;
use classes::Class;
use narrowest::evaluate_narrowest;
use runs::row::PINS;
use std::array;

// The class that a pin evaluates as: a constant where it is held, else the class of its net.
fn pin_class(class: Class, held: Option<bool>) -> Class
    ensures { result ≡ pin_class class held }
{
    match held {
        None => class,
        Some(false) => Class::C000,
        Some(true) => Class::C111,
    }
}

impl HeldGate<'_> {
    // The class that the pin at a place evaluates as.
    fn class_at(&self, place: usize) -> Class
        requires { place < length (plain_gate self.now.at.gate.now).pins }
        ensures { result ≡ class_at self.now.at.below.now (plain_gate self.now.at.gate.now) self.now.held.now place }
    {
        pin_class(self.at.known(place).class, self.held[place])
    }

    // The class that each pin evaluates as; past the pins, constant 0. An array and no `ArrayVec`, which would have to be filled
    // push by push, each push with a fault that never comes.
    fn pin_classes(&self) -> [Class; PINS]
        ensures { take (length (plain_gate self.now.at.gate.now).pins) result ≡ pin_classes self.now.at.below.now (plain_gate self.now.at.gate.now) self.now.held.now }
    {
        array::from_fn(|place| {
            if place < self.at.pins() {
                self.class_at(place)
            } else {
                Class::C000
            }
        })
    }

    // The class of the gate's net.
    pub(crate) fn class(&self) -> Class
        ensures { result ≡ gate_class self.now.at.below.now (plain_gate self.now.at.gate.now) self.now.held.now }
    {
        let classes = self.pin_classes();
        evaluate_narrowest(self.at.gate.function, &classes[..self.at.pins()])
    }
}
