// The silent source: it takes no separation and orders nothing.
ghost use Rattle.std.specs.Prelude.{false};
ghost use Rattle.ordering.specs.Silent.{silent};
ghost use Rattle.std.proofs.Common.{rules};

use crate::from_rows::FromRows;
use netlist::{Circuit, Net};
use runs::Row;

#[derive(Clone, Copy)]
pub struct Silent;

impl FromRows for Silent {
    ghost tells = { silent };

    ghost right = { Prim.search rules };

    ghost rowed = { Prim.search rules };

    fn tells(&self, _circuit: &Circuit, _rows: &[Row], _q: Net, _p: Net) -> bool {
        false
    }
}
