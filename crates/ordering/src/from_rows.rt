// Sources that take no separations: each answers from the circuit and its rows alone.
ghost use Rattle.std.specs.Prelude.{◌≡◌, false, [], slice_index_or};
ghost use Rattle.netlist.specs.View.{plain};
ghost use Rattle.ordering.specs.Source.{Says, YesIsBefore, YesHasRows};
ghost use Rattle.classes.specs.declared.class.Class.TheVariants.{C000};
ghost use Rattle.ordering.specs.Samples.{sample, sample_in};

use crate::source::OrderSource;
use netlist::{Circuit, Net};
use runs::Row;
use separations::{SeparationFault, input};

pub trait FromRows: Sized {
    // the answers, worked out from the circuit and the rows
    ghost tells: { Says };

    // Whether every flip of net q comes before every flip of net p, as far as the rows tell.
    fn tells(&self, circuit: &Circuit, rows: &[Row], q: Net, p: Net) -> bool
        ensures { result ≡ tells [] (plain circuit.now) rows.now q p };

    // a yes holds in every run in which the rows are true
    ghost right: { YesIsBefore tells };

    // a yes is said only of nets that have rows
    ghost rowed: { YesHasRows tells };
}

impl<R: FromRows> OrderSource for R {
    ghost TAKES = { false };

    ghost held = { λ s. [] };

    ghost says = { R.tells };

    const TAKES: bool = false;

    ghost first = { R.right };

    ghost second = { λ x classes. (λ i. sample (slice_index_or classes i C000) 0, λ i. sample_in (slice_index_or classes i C000) 0, tt) };

    ghost third = { R.rowed };

    fn clear(&mut self) {}

    fn separate(&mut self, a: Net, b: Net, _s: i32) -> Result<(), SeparationFault> {
        let _first = input(a)?;
        let _second = input(b)?;
        Err(SeparationFault::NotTaken)
    }

    fn before(&self, circuit: &Circuit, rows: &[Row], q: Net, p: Net) -> bool {
        self.tells(circuit, rows, q, p)
    }
}
