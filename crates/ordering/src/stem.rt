// A stem layer: over a source below, it also orders two nets that are tied to one clean net, their stem.
ghost use Rattle.std.specs.Prelude.{◌≡◌, ℕ, ◌+◌, ◌-◌, ◌*◌, ◌<◌, ◌≤◌, false, cond, T, [], ◌∷◌, length, replicate, None, slice_index, slice_index_or};
ghost use Rattle.netlist.specs.Circuit.{valid_gate};
ghost use Rattle.netlist.specs.Plain.{plain_gate};
ghost use Rattle.netlist.specs.View.{plain};
ghost use Rattle.ordering.specs.Rows.{below, has_row, row_count, some_below};
ghost use Rattle.ordering.specs.Stem.{all_tied, live_pin, live_ties, tie_of, ties_below, tie, tied_apart, stemmed};
ghost use Rattle.ordering.specs.TieTable.{AtMost, SmallBelow, is_apart};
ghost use Rattle.runs.specs.Gathered.{delayed};
ghost use Rattle.ordering.specs.StemLaws.{stem_first, stem_third};
ghost use Rattle.std.proofs.Common.{rules};

use crate::rows::{Lent, is_below};
use crate::source::OrderSource;
use netlist::{Circuit, Gate, Net};
use runs::row::NETS;
use runs::{Bounds, Row, gate_of, join_bounds};
use separations::SeparationFault;

// Whether the pin at place k, on net n, of a gate with this row is live.
fn is_live(rows: &[Row], row: &Row, k: usize, n: Net) -> bool
    requires { (k < 8) × (n < length rows.now) }
    ensures { result ≡ live_pin rows.now row.now k n }
{
    row.held[k].is_none() && !rows[usize::from(n)].class.is_constant()
}

// The bounds of all live pins, or none if there is none or one of them is not tied.
fn join(rows: &[Row], ties: &[Option<Bounds>; NETS], row: &Row, pins: &[Net]) -> Option<Bounds>
    requires { (length pins.now ≤ 8) × (((k : ℕ) → k < length pins.now → slice_index pins.now k < length rows.now)) }
    ensures { result ≡ all_tied None (live_ties rows.now ties.now row.now 0 pins.now) }
{
    // a loop: a chain would give the bounds so far and whether one net was not tied as one value, to be taken apart at each pin
    let mut all: Option<Bounds> = None;
    for (k, &n) in pins.iter().enumerate() {
        if is_live(rows, row, k, n) {
            let tie = ties[usize::from(n)]?;
            all = join_bounds(all, Some(tie));
        }
    }
    all
}

// How the net of a gate is tied, from the ties of the nets below it.
fn tie_behind(
    gate: &Gate,
    rows: &[Row],
    ties: &[Option<Bounds>; NETS],
    row: &Row,
    n: Net,
) -> Option<Bounds>
    requires { (T (valid_gate n (plain_gate gate.now))) × ((n < length rows.now) × (SmallBelow ties.now n)) }
    ensures told { result ≡ delayed (plain_gate gate.now) (all_tied None (live_ties rows.now ties.now row.now 0 gate.now.pins.items)) }
    ensures small { AtMost (65535 * n) result }
{
    let all = join(rows, ties, row, gate.pins.as_slice())?;
    Some(Bounds {
        lo: all.lo + u32::from(gate.least),
        hi: all.hi + u32::from(gate.greatest),
    })
}

// How net n is tied to net s, from the ties of the nets below n; a net without a row is not tied.
fn tie_of(lent: Lent, s: Net, ties: &[Option<Bounds>; NETS], n: Net) -> Option<Bounds>
    requires { SmallBelow ties.now n }
    ensures told { result ≡ cond (has_row (plain lent.entry.circuit.now) lent.entry.rows.now n) (tie_of (plain lent.entry.circuit.now) lent.entry.rows.now s ties.now n) None }
    ensures small { AtMost (65535 * n) result }
{
    let row = lent.row(n)?;
    if n == s {
        return Some(Bounds { lo: 0, hi: 0 });
    }
    if row.class.is_constant() {
        return None;
    }
    tie_behind(gate_of(lent.circuit, n)?, lent.rows, ties, row, n)
}

// Whether net n lies below net s or is another input; such a net is never tied to s.
fn is_apart(circuit: &Circuit, s: Net, n: Net) -> bool
    ensures { result ≡ is_apart (plain circuit.now) s n }
{
    n < s || n != s && n < circuit.inputs()
}

// Whether all live pins may be tied to net s, as far as their numbers tell.
fn may_tie_pins(lent: Lent, s: Net, row: &Row, pins: &[Net]) -> bool
    requires { (length pins.now ≤ 8) × (((k : ℕ) → k < length pins.now → slice_index pins.now k < length lent.rows.now)) }
    ensures { result ≡ false → all_tied None (live_ties lent.entry.rows.now (ties_below (plain lent.entry.circuit.now) lent.entry.rows.now s (row_count (plain lent.entry.circuit.now) lent.entry.rows.now)) row.now 0 pins.now) ≡ None }
{
    // a loop: with a chain the check does not find that its closure may be called at each place
    for (k, &n) in pins.iter().enumerate() {
        if is_apart(lent.circuit, s, n) && is_live(lent.rows, row, k, n) {
            return false;
        }
    }
    true
}

// Whether net n may be tied to net s, as far as the net and its own pins tell: a quick look that spares most passes.
fn may_tie(lent: Lent, s: Net, n: Net) -> bool
    ensures { result ≡ false → tie (plain lent.entry.circuit.now) lent.entry.rows.now s n ≡ None }
{
    let Some(row) = lent.row(n) else {
        return false;
    };
    if n == s {
        return true;
    }
    if is_apart(lent.circuit, s, n) {
        return false;
    }
    let Some(gate) = gate_of(lent.circuit, n) else {
        return false;
    };
    may_tie_pins(lent, s, row, gate.pins.as_slice())
}

// A table in which no net is tied.
fn untied() -> [Option<Bounds>; NETS]
    ensures { result ≡ replicate 256 None }
{
    [None; NETS]
}

// How the nets up to `top` are tied to net s.
fn ties_to(lent: Lent, s: Net, top: Net) -> [Option<Bounds>; NETS]
    ensures { (k : ℕ) → k ≤ top → slice_index_or result k None ≡ tie (plain lent.entry.circuit.now) lent.entry.rows.now s k }
{
    // each tie is worked out from those before it, so the table is filled in rising order from s, with no tie below it
    let mut ties = untied();
    for n in s..=top {
        ties[usize::from(n)] = tie_of(lent, s, &ties, n);
    }
    ties
}

// Whether q and p are tied to net s, the greatest of q below the least of p. The three stay numbers of their own, as q and p are each
// asked with s.
fn ties_apart(lent: Lent, q: Net, p: Net, s: Net) -> bool
    ensures { result ≡ below (tie (plain lent.entry.circuit.now) lent.entry.rows.now s q) (tie (plain lent.entry.circuit.now) lent.entry.rows.now s p) }
{
    let ties = ties_to(lent, s, q.max(p));
    is_below(ties[usize::from(q)], ties[usize::from(p)])
}

// Whether net s is clean and ties q and p apart.
fn is_stem(lent: Lent, q: Net, p: Net, s: Net) -> bool
    ensures { result ≡ tied_apart (plain lent.entry.circuit.now) lent.entry.rows.now q p s }
{
    lent.is_clean(s) && may_tie(lent, s, q) && may_tie(lent, s, p) && ties_apart(lent, q, p, s)
}

// Whether some clean net that has a row ties q and p apart. It lies above neither of them, since ties only lead upward.
fn has_stem(lent: Lent, q: Net, p: Net) -> bool
    ensures { result ≡ some_below (tied_apart (plain lent.entry.circuit.now) lent.entry.rows.now q p) (row_count (plain lent.entry.circuit.now) lent.entry.rows.now) }
{
    lent.can_move(q) && lent.can_move(p) && (0..=q.min(p)).any(|s| is_stem(lent, q, p, s))
}

#[derive(Drop)]
pub struct Stem<S> {
    pub below: S,
}

// The other layer passes the same on to its source below: one impl for both would overlap that of `FromRows`, and one struct over a
// source and a rule would make one type of the two layers.
impl<S: OrderSource> OrderSource for Stem<S> {
    ghost TAKES = { S.OrderSource.TAKES };

    ghost held = { λ s. S.OrderSource.held s.below };

    ghost says = { stemmed S.OrderSource.says };

    const TAKES: bool = S::TAKES;

    ghost first = { stem_first S.OrderSource.says S.OrderSource.first };

    ghost second = { Prim.search rules };

    ghost third = { stem_third S.OrderSource.says S.OrderSource.third };

    fn clear(&mut self) {
        self.below.clear();
    }

    fn separate(&mut self, a: Net, b: Net, s: i32) -> Result<(), SeparationFault> {
        self.below.separate(a, b, s)
    }

    fn before(&self, circuit: &Circuit, rows: &[Row], q: Net, p: Net) -> bool {
        self.below.before(circuit, rows, q, p) || has_stem(Lent { circuit, rows }, q, p)
    }
}
