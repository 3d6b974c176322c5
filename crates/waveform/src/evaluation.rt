// The evaluation of gate functions, one text for every switching algebra.
ghost use Rattle.std.specs.Prelude.{◌≡◌};
ghost use Rattle.waveform.specs.Algebra.{evaluated, finished, joined, unit_of};
ghost use Rattle.functions.specs.Function.{described};
ghost use Rattle.waveform.specs.Narrowest.{Contains};

use crate::algebra::SwitchingAlgebra;
use functions::Function;

// The value that leaves the other pins as they are.
fn unit<V: SwitchingAlgebra>(function: Function) -> V
    ensures { result ≡ unit_of V.ops function }
{
    match function {
        Function::Buf | Function::Not | Function::And | Function::Nand => V::one(),
        Function::Or | Function::Nor | Function::Xor | Function::Xnor => V::zero(),
    }
}

// One more pin. The function is matched at each pin: an operation chosen before the loop would be a function pointer, and what it
// computes would have to be carried through the loop in words of its own.
fn fold_in<V: SwitchingAlgebra>(function: Function, value: V, pin: V) -> V
    ensures { result ≡ joined V.ops function value pin }
{
    match function {
        Function::Buf | Function::Not | Function::And | Function::Nand => value.and(pin),
        Function::Or | Function::Nor => value.or(pin),
        Function::Xor | Function::Xnor => value.xor(pin),
    }
}

// The inversion after the last pin, for a function that has one.
fn finish<V: SwitchingAlgebra>(function: Function, value: V) -> V
    ensures { result ≡ finished V.ops function value }
{
    match function {
        Function::Buf | Function::And | Function::Or | Function::Xor => value,
        Function::Not | Function::Nand | Function::Nor | Function::Xnor => value.not(),
    }
}

// The value of a gate function on the values of its pins, for any number of pins: the pins folded by the function's
// operation. It contains every output of the function for the waveforms that the pins stand for.
pub fn evaluate<V: SwitchingAlgebra>(function: Function, pins: &[V]) -> V
    ensures fold { result ≡ evaluated V.ops function pins.now }
    ensures contains { Contains V.stands (described function).truth pins.now result }
{
    let mut value = unit(function);
    for pin in pins {
        value = fold_in(function, value, *pin);
    }
    finish(function, value)
}
