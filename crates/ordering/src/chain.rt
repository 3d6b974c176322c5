// A chain layer: over a source below, it also orders two nets through a clean net between them.
ghost use Rattle.std.specs.Prelude.{◌≡◌};
ghost use Rattle.netlist.specs.View.{plain};
ghost use Rattle.ordering.specs.Chain.{through, chained};
ghost use Rattle.ordering.specs.Rows.{some_below, row_count};
ghost use Rattle.ordering.specs.ChainLaws.{chain_first, chain_third};
ghost use Rattle.std.proofs.Common.{rules};

use crate::rows::Lent;
use crate::source::OrderSource;
use netlist::{Circuit, Net};
use runs::Row;
use separations::SeparationFault;

// Whether net m is clean, and the source says q before m and m before p. The three stay numbers of their own, as they are asked in
// two pairs: q with m, and m with p.
fn is_through<S: OrderSource>(source: &S, lent: Lent, q: Net, p: Net, m: Net) -> bool
    ensures { result ≡ through (S.OrderSource.says (S.OrderSource.held source.now) (plain lent.entry.circuit.now) lent.entry.rows.now) (plain lent.entry.circuit.now) lent.entry.rows.now q p m }
{
    lent.is_clean(m)
        && source.before(lent.circuit, lent.rows, q, m)
        && source.before(lent.circuit, lent.rows, m, p)
}

// Whether for some clean net that has a row the source says q before it and it before p.
fn has_middle<S: OrderSource>(source: &S, lent: Lent, q: Net, p: Net) -> bool
    ensures { result ≡ some_below (through (S.OrderSource.says (S.OrderSource.held source.now) (plain lent.entry.circuit.now) lent.entry.rows.now) (plain lent.entry.circuit.now) lent.entry.rows.now q p) (row_count (plain lent.entry.circuit.now) lent.entry.rows.now) }
{
    // a source below orders no net that has no row; `as` narrows a number below 256, and `try_from` would give a fault that never
    // comes
    lent.has_row(q)
        && lent.has_row(p)
        && (0..lent.row_count()).any(|m| is_through(source, lent, q, p, m as Net))
}

#[derive(Drop)]
pub struct Chain<S> {
    pub below: S,
}

// The other layer passes the same on to its source below: one impl for both would overlap that of `FromRows`, and one struct over a
// source and a rule would make one type of the two layers.
impl<S: OrderSource> OrderSource for Chain<S> {
    ghost TAKES = { S.OrderSource.TAKES };

    ghost held = { λ s. S.OrderSource.held s.below };

    ghost says = { chained S.OrderSource.says };

    const TAKES: bool = S::TAKES;

    ghost first = { chain_first S.OrderSource.says S.OrderSource.first };

    ghost second = { Prim.search rules };

    ghost third = { chain_third S.OrderSource.says S.OrderSource.third };

    fn clear(&mut self) {
        self.below.clear();
    }

    fn separate(&mut self, a: Net, b: Net, s: i32) -> Result<(), SeparationFault> {
        self.below.separate(a, b, s)
    }

    fn before(&self, circuit: &Circuit, rows: &[Row], q: Net, p: Net) -> bool {
        self.below.before(circuit, rows, q, p)
            || has_middle(&self.below, Lent { circuit, rows }, q, p)
    }
}
