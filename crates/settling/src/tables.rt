// The tables that settling works on: a circuit, the class of each input, and one row for each net.
ghost use Rattle.std.specs.Prelude.{◌≡◌, length, vec_len};
ghost use Rattle.netlist.specs.Circuit.{net_count};
ghost use Rattle.netlist.specs.View.{plain};

use classes::Class;
use netlist::Circuit;
use runs::Row;
use runs::row::INPUTS;

mod new;
mod parts;
mod stimulate;

#[derive(Drop)]
pub struct Tables {
    pub(crate) circuit: Circuit,
    // the stimulus of each input
    pub(crate) classes: [Class; INPUTS],
    // what is known of each net
    pub(crate) rows: Vec<Row>,
    ghost sixteen: { length classes ≡ 16 },
    ghost covered: { vec_len rows ≡ net_count (plain circuit) },
}
