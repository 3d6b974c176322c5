// Holding separations: begin with none, hold one more, read one, let go of all.
ghost use Rattle.std.specs.Prelude.{◌≡◌, true, []};
ghost use Rattle.separations.specs.Separations.{spacing_in};
ghost use Rattle.separations.specs.Answer.{Answered};
ghost use Rattle.separations.specs.Holding.{held_by};

use super::{Separation, Separations, Spacings};
use crate::fault::SeparationFault;

impl Separations {
    // Holds none.
    #[tactic(auto, using(crate::proofs::Exact::empty_settles))]
    pub fn new() -> Separations
        ensures { held_by result ≡ [] }
    {
        Separations {
            spacings: Spacings::new(),
        }
    }

    // Lets go of all.
    pub fn clear(&mut self)
        ensures { held_by self.new ≡ [] }
    {
        *self = Separations::new();
    }

    // The spacing that is held at the pair (a, b), if any.
    #[tactic(auto, using(crate::proofs::Exact::spacing_in_lem))]
    pub fn get(&self, a: u8, b: u8) -> Option<i32>
        ensures { result ≡ spacing_in a b (held_by self.now) }
    {
        *self.spacings.rows.get(usize::from(a))?.get(usize::from(b))?
    }

    // Holds that every flip of b comes at least s ticks after every flip of a, beside all that is held.
    #[tactic(auto, using(crate::proofs::Exact::placed_refused))]
    pub fn hold(&mut self, a: u8, b: u8, s: i32) -> Result<(), SeparationFault>
        ensures { Answered true held_by self.old a b s result self.new }
    {
        let separation = Separation::new(a, b, s)?;
        let spacings = self.spacings.with_larger(separation);
        if !spacings.is_settled() {
            return Err(SeparationFault::Contradictory);
        }
        *self = Separations { spacings };
        Ok(())
    }
}
