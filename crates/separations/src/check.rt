// The test for a contradiction: times from 0, raised by passes over the table.
ghost use Rattle.std.specs.Prelude.{◌≡◌, ◌^◌, ◌<◌, ◌≤◌, ℤ, pos, ◌≤ℤ◌, Some, Decides};
ghost use Rattle.separations.specs.Check.{raised, Moderate, latest, passed, times_after};

use crate::inputs::INPUTS;
use crate::table::Spacings;
use std::array;

// A time for each input, far below what a sum in 64 bits holds.
#[derive(Clone, Copy)]
struct Times {
    at: [u64; INPUTS],
    ghost moderate: { Moderate at },
}

// The time, raised where the spacing after the other time asks it.
fn raise(spacing: Option<i32>, from: u64, time: u64) -> u64
    requires { (((s : ℤ) → spacing ≡ Some s → s ≤ℤ pos 65535)) × (from ≤ 2 ^ 20) }
    ensures { result ≡ raised spacing from time }
{
    let Some(s) = spacing else { return time };
    let sum = from.cast_signed() + i64::from(s);
    time.max(sum.max(0).cast_unsigned())
}

impl Spacings {
    // The time of input b after one pass; b is asked to be below 16 as an index is asked to be in range.
    fn time_after(&self, times: &Times, b: usize) -> u64
        requires { b < 16 }
        ensures { result ≡ latest self.now.rows times.now.at b 16 }
    {
        self.rows.iter().zip(&times.at).fold(
            times.at[b],
            |time, (row, from)| raise(row[b], *from, time),
        )
    }

    // The times after one pass.
    fn pass(&self, times: &Times) -> [u64; INPUTS]
        ensures { result ≡ passed self.now.rows times.now.at }
    {
        array::from_fn(|b| self.time_after(times, b))
    }

    // The times after sixteen passes.
    #[tactic(auto, using(crate::proofs::Passes::after_none, crate::proofs::Passes::after_more, crate::proofs::Exact::formed_moderate))]
    fn passes(&self) -> Times
        ensures { result.at ≡ times_after self.now.rows 16 }
    {
        let mut at = [0; INPUTS];
        // one step again and again: no index is used
        for _ in 0..INPUTS {
            at = self.pass(&Times { at });
        }
        Times { at }
    }

    // Whether a seventeenth pass would raise no time.
    pub(crate) fn is_settled(&self) -> bool
        ensures { Decides result (times_after self.now.rows 17 ≡ times_after self.now.rows 16) }
    {
        let times = self.passes();
        self.pass(&times) == times.at
    }
}
