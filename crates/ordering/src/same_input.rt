// The same-input source: it takes no separation, and orders two nets that flip because of one and the same clean input alone.
ghost use Rattle.std.specs.Prelude.{◌≡◌, ◌<◌};
ghost use Rattle.netlist.specs.View.{plain};
ghost use Rattle.ordering.specs.Rows.{every_below, some_below};
ghost use Rattle.ordering.specs.SameInput.{none_but, only_input, same_input};
ghost use Rattle.ordering.specs.SameInputLaws.{same_input_first, same_input_third};

use crate::from_rows::FromRows;
use crate::rows::{Lent, Pair, is_below};
use netlist::{Circuit, Net};
use runs::Row;
use runs::row::INPUTS;

// Whether number j is i, or gives no bounds at either row. Numbers are asked to be below 16, as an index is asked to be in range: a
// type of such numbers would have to be opened at each use.
fn is_none_but(pair: Pair, i: usize, j: usize) -> bool
    requires { j < 16 }
    ensures { result ≡ none_but i pair.entry.earlier.now pair.entry.later.now j }
{
    j == i || !(pair.earlier.bounds[j].is_some() || pair.later.bounds[j].is_some())
}

// Whether no number but i gives bounds at either row.
fn is_alone(pair: Pair, i: usize) -> bool
    ensures { result ≡ every_below (none_but i pair.entry.earlier.now pair.entry.later.now) 16 }
{
    (0..INPUTS).all(|j| is_none_but(pair, i, j))
}

// Whether input i is clean, orders the two rows, and alone gives bounds at them.
fn is_only_input(pair: Pair, i: usize) -> bool
    requires { i < 16 }
    ensures { result ≡ only_input (plain pair.entry.lent.circuit.now) pair.entry.lent.rows.now pair.entry.earlier.now pair.entry.later.now i }
{
    // `as` narrows a number below 16; `try_from` would give a fault that never comes
    is_below(pair.earlier.bounds[i], pair.later.bounds[i])
        && pair.lent.is_clean_input(i as Net)
        && is_alone(pair, i)
}

// Whether some input orders the two rows alone.
fn has_only_input(pair: Pair) -> bool
    ensures { result ≡ some_below (only_input (plain pair.entry.lent.circuit.now) pair.entry.lent.rows.now pair.entry.earlier.now pair.entry.later.now) 16 }
{
    (0..INPUTS).any(|i| is_only_input(pair, i))
}

#[derive(Clone, Copy)]
pub struct SameInput;

impl FromRows for SameInput {
    ghost tells = { same_input };

    ghost right = { same_input_first };

    ghost rowed = { same_input_third };

    fn tells(&self, circuit: &Circuit, rows: &[Row], q: Net, p: Net) -> bool {
        Pair::of(Lent { circuit, rows }, q, p).is_some_and(has_only_input)
    }
}
