// What holds of classes and gates by their definitions alone. Each function computes nothing; its contract is a theorem.
ghost use Rattle.waveform.specs.Control.{ControlFixes, NoneFixes};
ghost use Rattle.waveform.specs.Delay.{ClassesIgnoreDelay};
ghost use Rattle.waveform.specs.Examples.{GateExamples};

// A waveform's classes do not change when all its flips move later.
pub fn classes_ignore_delay()
    ensures { ClassesIgnoreDelay }
{}

// Eight worked gates have the classes that the definition gives for them.
pub fn gate_examples_hold()
    ensures { GateExamples }
{}

// One pin at the control value fixes the output; where there is no control value, neither value of one pin does.
pub fn control_values_fix_outputs()
    ensures fixes { ControlFixes }
    ensures none { NoneFixes }
{}
