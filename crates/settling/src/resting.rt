// Rest: the start value and the end value of a net, worked out without settling.
ghost use Rattle.std.specs.Prelude.{◌≡◌, ◌<◌, map, length, take};
ghost use Rattle.netlist.specs.Circuit.{net_count};
ghost use Rattle.netlist.specs.Plain.{plain_gate};
ghost use Rattle.netlist.specs.View.{plain};
ghost use Rattle.settling_theory.specs.Rest.{gate_value, value_at, value_for, values_to};
ghost use Rattle.settling.specs.Resting.{input_letter, rest_of};
ghost use Rattle.settling.specs.Tables.{circuit_of, classes_of};
ghost use Rattle.settling.specs.Told.{RestTrue};

use crate::gate_at::GateAt;
use crate::letter::Letter;
use crate::tables::Tables;
use classes::{Class, Three};
use narrowest::evaluate_narrowest;
use netlist::{Circuit, Net};
use runs::gate_of;
use runs::row::{INPUTS, NETS, PINS};
use std::array;

// The value of the net at each pin; past the pins, unknown. An array, as in `pin_classes`. One function for this and
// `pin_classes` would take a closure, and its contract would have to name what the closure gives at each place.
fn pin_values(at: &GateAt<'_, Three>) -> [Three; PINS]
    ensures { take (length (plain_gate at.now.gate.now).pins) result ≡ map (value_at at.now.below.now) (plain_gate at.now.gate.now).pins }
{
    array::from_fn(|place| {
        if place < at.pins() {
            *at.known(place)
        } else {
            Three::Unknown
        }
    })
}

// The value of a gate's net.
fn gate_value(at: &GateAt<'_, Three>) -> Three
    ensures { result ≡ gate_value at.now.below.now (plain_gate at.now.gate.now) }
{
    let pins = pin_values(at);
    evaluate_narrowest(at.gate.function, &pins[..at.pins()])
}

// The value of net n from the values of the nets below it. The net is asked to be one, as an index is asked to be in range: a type
// of nets would have to say of which circuit.
fn value_for(
    circuit: &Circuit,
    classes: &[Class; INPUTS],
    letter: Letter,
    values: &[Three],
    n: Net,
) -> Three
    requires { (n < net_count (plain circuit.now)) × (length values.now ≡ n) }
    ensures { result ≡ value_for (input_letter letter classes.now) (plain circuit.now) values.now n }
{
    match gate_of(circuit, n) {
        None => letter.of(classes[usize::from(n)]),
        Some(gate) => gate_value(&GateAt {
            gate,
            below: values,
        }),
    }
}

// The start value or the end value of a net, by working out those of all nets up to it.
fn value_of(circuit: &Circuit, classes: &[Class; INPUTS], letter: Letter, net: Net) -> Three
    requires { net < net_count (plain circuit.now) }
    ensures { result ≡ value_at (values_to (input_letter letter classes.now) (plain circuit.now) (net_count (plain circuit.now))) net }
{
    // each value is worked out from those before it, so the array is filled in rising order (no `ArrayVec`: each push would have a
    // fault that never comes, as `try_from` would in place of the narrowing `as`)
    let mut values = [Three::Unknown; NETS];
    let last = usize::from(net);
    for n in 0..=last {
        values[n] = value_for(circuit, classes, letter, &values[..n], n as Net);
    }
    values[last]
}

// The start value and the end value of a net, or none for a number that is no net.
fn values_of(tables: &Tables, net: Net) -> Option<(Three, Three)>
    ensures { result ≡ rest_of (circuit_of tables.now) (classes_of tables.now) net }
{
    let Tables {
        circuit,
        classes,
        ..
    } = tables;
    (usize::from(net) < circuit.nets()).then(|| {
        let start = value_of(circuit, classes, Letter::Start, net);
        (start, value_of(circuit, classes, Letter::End, net))
    })
}

// The start value and the end value of a net, or none for a number that is no net. The net starts and ends so in every run
// with its inputs in their classes.
pub fn rest(tables: &Tables, net: Net) -> Option<(Three, Three)>
    ensures value { result ≡ rest_of (circuit_of tables.now) (classes_of tables.now) net }
    ensures holds { RestTrue (circuit_of tables.now) (classes_of tables.now) net result }
{
    values_of(tables, net)
}
