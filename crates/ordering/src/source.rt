// The order source: it holds separations of inputs, and answers whether every flip of one net comes before every flip of
// another.
ghost use Rattle.std.specs.Prelude.{◌≡◌, Bool, List, []};
ghost use Rattle.netlist.specs.View.{plain};
ghost use Rattle.ordering.specs.Source.{Says, YesIsBefore, HeldIsMet, YesHasRows};
ghost use Rattle.separations.specs.Answer.{Answered};
ghost use Rattle.separations.specs.Separations.{Separation};

use netlist::{Circuit, Net};
use runs::Row;
use separations::SeparationFault;

pub trait OrderSource: Sized {
    // whether separations are taken at all
    ghost TAKES: { Bool };

    // the separations that are held
    ghost held: { Self → List Separation };

    // the answers, worked out from the separations held, the circuit and the rows alone
    ghost says: { Says };

    const TAKES: bool;

    // Gives up every separation.
    fn clear(&mut self)
        ensures { held self.new ≡ [] };

    // Takes the separation of inputs a and b by s ticks, or says why not and stays as it was. The three stay numbers of their own, as
    // a call gives them.
    fn separate(&mut self, a: Net, b: Net, s: i32) -> Result<(), SeparationFault>
        ensures { Answered TAKES held self.old a b s result self.new };

    // Whether every flip of net q comes before every flip of net p, as far as the rows and what is held tell.
    fn before(&self, circuit: &Circuit, rows: &[Row], q: Net, p: Net) -> bool
        ensures { result ≡ says (held self.now) (plain circuit.now) rows.now q p };

    // a yes holds in every run that meets the separations and in which the rows are true
    ghost first: { YesIsBefore says };

    // what is held can be met, whatever the classes of the inputs
    ghost second: { HeldIsMet held };

    // a yes is said only of nets that have rows
    ghost third: { YesHasRows says };
}
