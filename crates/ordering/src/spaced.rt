// The spaced source: it holds separations, and orders two nets whose inputs all agree.
ghost use Rattle.std.specs.Prelude.{◌≡◌, ◌<◌, true, [], slice_index_or};
ghost use Rattle.netlist.specs.View.{plain};
ghost use Rattle.ordering.specs.Rows.{every_below, some_below};
ghost use Rattle.ordering.specs.Spaced.{spaced_by, agreed, agrees, agrees_with_all, bounded_by, spaced};
ghost use Rattle.separations.specs.Holding.{held_by};
ghost use Rattle.separations.specs.Separations.{spacing_in};
ghost use Rattle.ordering.specs.SpacedLaws.{spaced_first, samples_meet_all, spaced_third};
ghost use Rattle.classes.specs.declared.class.Class.TheVariants.{C000};
ghost use Rattle.separations.proofs.Held.{held_met};
ghost use Rattle.ordering.specs.Samples.{sample, sample_in};

use crate::rows::{Lent, Pair};
use crate::source::OrderSource;
use netlist::{Circuit, Net};
use runs::row::INPUTS;
use runs::{Bounds, Row};
use separations::{Iter, SeparationFault, Separations};

// Whether some number gives bounds at the row.
fn is_bounded(row: &Row) -> bool
    ensures { result ≡ some_below (bounded_by row.now) 16 }
{
    row.bounds.iter().any(Option::is_some)
}

// Whether there is a spacing that spaces the bounds.
fn is_spaced_by(spacing: Option<i32>, x: Bounds, y: Bounds) -> bool
    ensures { result ≡ spaced_by spacing x y }
{
    spacing.is_some_and(|s| i64::from(x.hi) < i64::from(y.lo) + i64::from(s))
}

#[derive(Clone, Copy)]
pub struct Spaced {
    held: Separations,
}

impl Spaced {
    // Holds no separation.
    pub fn new() -> Spaced
        ensures { held_by result.held ≡ [] }
    {
        Spaced {
            held: Separations::new(),
        }
    }

    // The spacing that is held for inputs a and b, if any.
    pub fn spacing(&self, a: Net, b: Net) -> Option<i32>
        ensures { result ≡ spacing_in a b (held_by self.now.held) }
    {
        self.held.get(a, b)
    }

    // The separations that are held, by rising a, then by rising b.
    pub fn separations(&self) -> Iter<'_>
        ensures { result ≡ held_by self.now.held }
    {
        self.held.iter()
    }

    // Whether the bounds that number j gives at one row agree with those that number i gives at another.
    fn is_agreed(&self, lent: Lent, j: Net, i: Net, x: Option<Bounds>, y: Option<Bounds>) -> bool
        ensures { result ≡ agreed (held_by self.now.held) (plain lent.entry.circuit.now) lent.entry.rows.now j i x y }
    {
        match (x, y) {
            (Some(x), Some(y)) if j == i => lent.is_clean_input(i) && x.hi < y.lo,
            (Some(x), Some(y)) => is_spaced_by(self.held.get(j, i), x, y),
            _ => true,
        }
    }

    // Whether number j at the earlier row agrees with number i at the later. Numbers are asked to be below 16, as an index is asked to
    // be in range: a type of such numbers would have to be opened at each use.
    fn is_agreeing(&self, pair: Pair, j: usize, i: usize) -> bool
        requires { (j < 16) × (i < 16) }
        ensures { result ≡ agrees (held_by self.now.held) (plain pair.entry.lent.circuit.now) pair.entry.lent.rows.now pair.entry.earlier.now pair.entry.later.now j i }
    {
        // `as` narrows numbers below 16; `try_from` would give a fault that never comes
        self.is_agreed(
            pair.lent,
            j as Net,
            i as Net,
            pair.earlier.bounds[j],
            pair.later.bounds[i],
        )
    }

    // Whether number j at the earlier row agrees with every number at the later.
    fn is_agreeing_with_all(&self, pair: Pair, j: usize) -> bool
        requires { j < 16 }
        ensures { result ≡ agrees_with_all (held_by self.now.held) (plain pair.entry.lent.circuit.now) pair.entry.lent.rows.now pair.entry.earlier.now pair.entry.later.now j }
    {
        (0..INPUTS).all(|i| self.is_agreeing(pair, j, i))
    }

    // Whether every number at the earlier row agrees with every number at the later.
    fn are_agreeing(&self, pair: Pair) -> bool
        ensures { result ≡ every_below (agrees_with_all (held_by self.now.held) (plain pair.entry.lent.circuit.now) pair.entry.lent.rows.now pair.entry.earlier.now pair.entry.later.now) 16 }
    {
        (0..INPUTS).all(|j| self.is_agreeing_with_all(pair, j))
    }
}

impl OrderSource for Spaced {
    ghost TAKES = { true };

    ghost held = { λ s. held_by s.held };

    ghost says = { spaced };

    const TAKES: bool = true;

    ghost first = { spaced_first };

    ghost second = { λ x classes.
        let met = held_met x.held in
        (λ i. sample (slice_index_or classes i C000) (met.0 i), λ i. sample_in (slice_index_or classes i C000) (met.0 i), samples_meet_all classes met.0 (held_by x.held) met.1) };

    ghost third = { spaced_third };

    fn clear(&mut self) {
        self.held.clear();
    }

    fn separate(&mut self, a: Net, b: Net, s: i32) -> Result<(), SeparationFault> {
        self.held.hold(a, b, s)
    }

    fn before(&self, circuit: &Circuit, rows: &[Row], q: Net, p: Net) -> bool {
        let Some(pair) = Pair::of(Lent { circuit, rows }, q, p) else {
            return false;
        };
        is_bounded(pair.earlier) && is_bounded(pair.later) && self.are_agreeing(pair)
    }
}
