// A new class for an input.
ghost use Rattle.std.specs.Prelude.{◌≡◌, IfErr, OnErr, is_ok, nat_lt};
ghost use Rattle.settling.specs.Tables.{circuit_of, classes_of, stimulated};

use crate::fault::NoSuchInput;
use crate::tables::Tables;
use classes::Class;
use netlist::Net;

impl Tables {
    // Gives an input a class; a number that is no input is refused, and all is as it was. The rows stay as they
    // are: settle again.
    pub fn stimulate(&mut self, input: Net, class: Class) -> Result<(), NoSuchInput>
        ensures told { is_ok result ≡ nat_lt input (circuit_of self.old).inputs }
        ensures refused { IfErr result (λ e. e.input ≡ input) }
        ensures kept { OnErr result (self.new ≡ self.old) }
        ensures classes { classes_of self.new ≡ stimulated (circuit_of self.old) (classes_of self.old) input class }
        ensures circuit { self.new.circuit ≡ self.old.circuit }
        ensures rows { self.new.rows ≡ self.old.rows }
    {
        if input >= self.circuit.inputs() {
            return Err(NoSuchInput { input });
        }
        self.classes[usize::from(input)] = class;
        Ok(())
    }
}
