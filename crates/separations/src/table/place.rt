// Well-formed separations, and the table with one more.
ghost use Rattle.std.specs.Prelude.{◌≡◌, ◌<◌, ◌≤◌, true, replicate, None, List, MatchResult};
ghost use Rattle.separations.specs.Separations.{Separation as Held, larger_than, placed};
ghost use Rattle.separations.specs.Answer.{Refused};

use super::{Separation, Spacings};
use crate::fault::SeparationFault;
use crate::inputs::{INPUTS, input};

// The largest spacing, and the smallest without its sign.
const LIMIT: i32 = 65_535;

impl Separation {
    // The separation (a, b, s), if it is one of two inputs and well formed.
    pub(super) fn new(a: u8, b: u8, s: i32) -> Result<Separation, SeparationFault>
        ensures { MatchResult result (λ x. (x.a ≡ a) × (x.b ≡ b) × (x.s ≡ s)) (λ e. (xs : List Held) → Refused true xs a b s e) }
    {
        let a = input(a)?;
        let b = input(b)?;
        if a != b && (-LIMIT..=LIMIT).contains(&s) {
            Ok(Separation { a, b, s })
        } else {
            Err(SeparationFault::Malformed)
        }
    }
}

// The larger of a spacing and that of a place, if it has one.
fn larger_than(old: Option<i32>, s: i32) -> i32
    ensures { result ≡ larger_than old s }
{
    old.map_or(s, |old| old.max(s))
}

impl Spacings {
    // The table without any spacing.
    pub(super) fn new() -> Spacings
        ensures { result.rows ≡ replicate 16 (replicate 16 None) }
    {
        Spacings {
            rows: [[None; INPUTS]; INPUTS],
        }
    }

    // The table with the larger spacing at the separation's pair.
    pub(super) fn with_larger(&self, new: Separation) -> Spacings
        ensures { result.rows ≡ placed self.now.rows new.a new.b new.s }
    {
        let mut rows = self.rows;
        let (a, b) = (usize::from(new.a), usize::from(new.b));
        rows[a][b] = Some(larger_than(rows[a][b], new.s));
        Spacings { rows }
    }
}
