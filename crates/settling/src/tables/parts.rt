// The parts of the tables.
ghost use Rattle.std.specs.Prelude.{◌≡◌, true};
ghost use Rattle.ordering.specs.Source.{OrderedInRuns};
ghost use Rattle.settling.specs.Asked.{asked};
ghost use Rattle.settling.specs.Tables.{circuit_of, class_of_input, classes_of, rows_of};
ghost use Rattle.settling.specs.Told.{OrderedOnceSettled};

use crate::tables::Tables;
use classes::Class;
use netlist::Net;
use ordering::{OrderSource, ordered};
use runs::Row;

impl Tables {
    // The row of each net.
    pub fn rows(&self) -> &[Row]
        ensures { result.now ≡ rows_of self.now }
    {
        self.rows.as_slice()
    }

    // The source's answer over the rows as they stand.
    fn answer<S: OrderSource>(&self, source: &S, q: Net, p: Net) -> bool
        ensures answer { result ≡ asked S.OrderSource source.now self.now.circuit (rows_of self.now) q p }
        ensures holds { result ≡ true → OrderedInRuns (S.OrderSource.held source.now) (circuit_of self.now) (rows_of self.now) q p }
    {
        ordered(source, &self.circuit, self.rows.as_slice(), q, p)
    }

    // Whether every flip of net q comes before every flip of net p, as far as the source tells over the rows as they stand:
    // settle first. A yes over rows that `settle` wrote for these classes and for what this source holds is true in every run with its
    // inputs in the classes that meets what is held. Over other rows a yes holds only in the runs in which they are true.
    pub fn order<S: OrderSource>(&self, source: &S, q: Net, p: Net) -> bool
        ensures answer { result ≡ asked S.OrderSource source.now self.now.circuit (rows_of self.now) q p }
        ensures holds { result ≡ true → OrderedInRuns (S.OrderSource.held source.now) (circuit_of self.now) (rows_of self.now) q p }
        ensures settled { result ≡ true → OrderedOnceSettled S.OrderSource.says (S.OrderSource.held source.now) (circuit_of self.now) (classes_of self.now) (rows_of self.now) q p }
    {
        self.answer(source, q, p)
    }

    // The class of an input, or none for a number that is no input.
    pub fn class_of_input(&self, input: Net) -> Option<Class>
        ensures { result ≡ class_of_input (circuit_of self.now) (classes_of self.now) input }
    {
        (input < self.circuit.inputs()).then(|| self.classes[usize::from(input)])
    }
}
