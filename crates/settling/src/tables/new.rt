// New tables for a circuit.
ghost use Rattle.std.specs.Prelude.{◌≡◌, replicate, IfOk};
ghost use Rattle.classes.specs.declared.class.Class.TheVariants.{C000};
ghost use Rattle.netlist.specs.Circuit.{net_count};
ghost use Rattle.netlist.specs.View.{plain};
ghost use Rattle.settling.specs.Tables.{classes_of, plain_row, rows_of};

use crate::tables::Tables;
use classes::Class;
use netlist::Circuit;
use runs::Row;
use runs::row::{INPUTS, PINS};
use std::alloc::{AllocError, Global};

impl Tables {
    // Tables with every input constant 0 and rows of class XXX without bounds or held pins (which say nothing until `settle` writes
    // them), or a fault if there is no memory for the rows.
    pub fn new(heap: Global, circuit: Circuit) -> Result<Tables, AllocError>
        ensures circuit { IfOk result (λ t. t.circuit ≡ circuit) }
        ensures classes { IfOk result (λ t. classes_of t ≡ replicate 16 C000) }
        ensures rows { IfOk result (λ t. rows_of t ≡ replicate (net_count (plain circuit)) plain_row) }
    {
        let row = Row {
            class: Class::CXXX,
            bounds: [None; INPUTS],
            held: [None; PINS],
        };
        let rows = vec![in heap; row; circuit.nets()]?;
        Ok(Tables {
            circuit,
            classes: [Class::C000; INPUTS],
            rows,
        })
    }
}
