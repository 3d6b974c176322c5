// Gate evaluation gives the narrowest value that contains every output, at the thirteen classes and at the three values.
#![tactic(auto)]

ghost use Rattle.std.specs.Prelude.{◌≡◌, List};
ghost use Rattle.functions.specs.declared.function.Function.{Function as GateFunction};
ghost use Rattle.functions.specs.Function.{described};
ghost use Rattle.waveform.specs.Algebra.{evaluated};
ghost use Rattle.waveform.specs.Narrowest.{Contains, Narrower, Narrowest};
ghost use Rattle.narrowest.specs.Narrower.{NarrowerClasses};
ghost use Rattle.narrowest.specs.Classes.{class_narrowest};
ghost use Rattle.narrowest.specs.Values.{three_narrowest};

use classes::{Class, Three};
use functions::Function;
use waveform::{SwitchingAlgebra, evaluate};

// A switching algebra at which the evaluation of every gate function gives the narrowest value.
pub trait NarrowestAlgebra: SwitchingAlgebra {
    ghost narrowest: { (f : GateFunction) (pins : List Self) → Narrowest Self.stands (described f).truth pins (evaluated Self.ops f pins) };
}

impl NarrowestAlgebra for Class {
    ghost narrowest = { class_narrowest };
}

impl NarrowestAlgebra for Three {
    ghost narrowest = { three_narrowest };
}

// The pins folded by the function.
fn folded<V: SwitchingAlgebra>(function: Function, pins: &[V]) -> V
    ensures { result ≡ evaluated V.ops function pins.now }
{
    evaluate(function, pins)
}

// The narrowest value that contains every output of the function, without delay, for all waveforms that its pins stand for,
// each pin's chosen freely; for any number of pins.
pub fn evaluate_narrowest<V: NarrowestAlgebra>(function: Function, pins: &[V]) -> V
    ensures value { result ≡ evaluated V.ops function pins.now }
    ensures narrowest { Narrowest V.stands (described function).truth pins.now result }
    ensures none_narrower { (u : V) → Narrower V.stands u result → Contains V.stands (described function).truth pins.now u → ⊥ }
{
    folded(function, pins)
}

// Of classes, the narrower are just those that hold some, not all, of the waveforms.
pub fn narrower_classes_hold_less()
    ensures { NarrowerClasses }
{}
