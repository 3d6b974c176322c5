// Worked examples of the definitions, as a theorem.
ghost use Rattle.separations.specs.Examples.{SeparationExamples};

// With (0, 1, 5) alone held, (1, 0, -5) can be met and (1, 0, -4) cannot.
#[tactic(auto, using(crate::proofs::Worked::examples))]
pub fn separation_examples_hold()
    ensures { SeparationExamples }
{}
