// Reading the rows lent: which nets have rows, and which of them can move or are clean.
ghost use Rattle.std.specs.Prelude.{◌≡◌, ◌≤◌, ◌&&◌, true, false, MatchOption};
ghost use Rattle.netlist.specs.View.{plain};
ghost use Rattle.ordering.specs.Rows.{row_count, has_row, can_move, clean_net, clean_input, below};
ghost use Rattle.runs.specs.Row.{row_at};

use netlist::{Circuit, Net};
use runs::{Bounds, Row};

// A circuit and its rows, as they are lent to a source.
#[derive(Clone, Copy)]
pub(crate) struct Lent<'a> {
    pub(crate) circuit: &'a Circuit,
    pub(crate) rows: &'a [Row],
}

impl<'a> Lent<'a> {
    // How many nets have rows.
    pub(crate) fn row_count(self) -> usize
        ensures count { result ≡ row_count (plain self.entry.circuit.now) self.entry.rows.now }
        ensures few { result ≤ 256 }
    {
        self.circuit.nets().min(self.rows.len())
    }

    // The row of a net, if it has one.
    pub(crate) fn row(self, n: Net) -> Option<&'a Row>
        ensures { MatchOption result (has_row (plain self.entry.circuit.now) self.entry.rows.now n ≡ false) (λ row. (has_row (plain self.entry.circuit.now) self.entry.rows.now n ≡ true) × (row.now ≡ row_at self.entry.rows.now n)) }
    {
        self.has_row(n).then(|| &self.rows[usize::from(n)])
    }

    // Whether the net has a row.
    pub(crate) fn has_row(self, n: Net) -> bool
        ensures { result ≡ has_row (plain self.entry.circuit.now) self.entry.rows.now n }
    {
        usize::from(n) < self.row_count()
    }

    // Whether the net has a row and its class is not constant.
    pub(crate) fn can_move(self, n: Net) -> bool
        ensures { result ≡ can_move (plain self.entry.circuit.now) self.entry.rows.now n }
    {
        self.row(n).is_some_and(|row| !row.class.is_constant())
    }

    // Whether the net has a row and its class is clean.
    pub(crate) fn is_clean(self, n: Net) -> bool
        ensures { result ≡ clean_net (plain self.entry.circuit.now) self.entry.rows.now n }
    {
        // written by index: with a closure the searches that ask this of every net took a fifth longer
        self.has_row(n) && self.rows[usize::from(n)].class.is_clean()
    }

    // Whether the number is an input of the circuit, has a row, and its class is clean.
    pub(crate) fn is_clean_input(self, i: Net) -> bool
        ensures { result ≡ clean_input (plain self.entry.circuit.now) self.entry.rows.now i }
    {
        i < self.circuit.inputs() && self.is_clean(i)
    }
}

// The rows of two nets, of which the first is asked to flip before the second.
#[derive(Clone, Copy)]
pub(crate) struct Pair<'a> {
    pub(crate) lent: Lent<'a>,
    pub(crate) earlier: &'a Row,
    pub(crate) later: &'a Row,
}

impl<'a> Pair<'a> {
    // The rows of nets q and p, if both have one.
    pub(crate) fn of(lent: Lent<'a>, q: Net, p: Net) -> Option<Pair<'a>>
        ensures { MatchOption result ((has_row (plain lent.entry.circuit.now) lent.entry.rows.now q && has_row (plain lent.entry.circuit.now) lent.entry.rows.now p) ≡ false) (λ pair. (has_row (plain lent.entry.circuit.now) lent.entry.rows.now q ≡ true) × (has_row (plain lent.entry.circuit.now) lent.entry.rows.now p ≡ true) × (pair.lent ≡ lent.entry) × (pair.earlier.now ≡ row_at lent.entry.rows.now q) × (pair.later.now ≡ row_at lent.entry.rows.now p)) }
    {
        let (earlier, later) = (lent.row(q)?, lent.row(p)?);
        Some(Pair {
            lent,
            earlier,
            later,
        })
    }
}

// Whether the greatest bound of the one lies below the least of the other.
pub(crate) fn is_below(earlier: Option<Bounds>, later: Option<Bounds>) -> bool
    ensures { result ≡ below earlier later }
{
    matches!((earlier, later), (Some(x), Some(y)) if x.hi < y.lo)
}
