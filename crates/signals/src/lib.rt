// Waveforms and the gate rule: theory that every other crate rests on. Each function computes nothing; its contract is a theorem.
#![tactic(auto)]

ghost use Rattle.signals.specs.Holding.{FlipsFromUnheld, HoldingIsHarmless};
ghost use Rattle.signals.specs.Theorems.{Determined, FlipsFromPins, OneOutput};

// The first value and the values at the ticks determine a waveform.
pub fn waveforms_are_determined()
    ensures { Determined }
{}

// For given pins and delay a gate has an output, and just one.
pub fn gate_has_one_output()
    ensures { OneOutput }
{}

// Every flip of a gate's output, before its delay, is a flip of some pin at that tick.
pub fn flips_come_from_pins()
    ensures { FlipsFromPins }
{}

// With pins held by the rule at their constants a gate has the same output.
pub fn holding_is_harmless()
    ensures { HoldingIsHarmless }
{}

// Every flip of a gate's output, before its delay, is a flip at that tick of some pin that is not held.
pub fn flips_come_from_unheld_pins()
    ensures { FlipsFromUnheld }
{}
