// Worked examples of the definitions, as a theorem.
ghost use Rattle.settling_theory.specs.Examples.{TwelveExamples};

// Eight gates, two separations and two settlings give what is written there.
pub fn twelve_examples_hold()
    ensures { TwelveExamples }
{}
