// A line as a gate: its words, its pins, and the class of its output.
ghost use Rattle.std.specs.Prelude.{◌≡◌, ◌<◌, [], ◌∷◌, ◌++◌, length, MatchResult};
ghost use Rattle.gatelines.specs.declared.fault.LineFault.TheVariants.{TooManyPins};
ghost use Rattle.gatelines.specs.Line.{Classes, NoPins, Says};

use crate::fault::LineFault;
use arrayvec::ArrayVec;
use classes::Class;
use functions::Function;
use waveform::evaluate;
use words::Words;

// the most pins that a gate has; this crate rests on no circuits, which have the number too
const PINS: usize = 8;

// Puts one more class behind the pins, if there is room.
fn add(pins: &mut ArrayVec<Class, PINS>, class: Class) -> Result<(), LineFault>
    ensures { MatchResult result (λ _. (length pins.old.items < 8) × (pins.new.items ≡ pins.old.items ++ class ∷ [])) (λ e. (e ≡ TooManyPins) × (pins.new.items ≡ pins.old.items) × (length pins.old.items ≡ 8)) }
{
    pins.try_push(class).map_err(|_| LineFault::TooManyPins)
}

// The classes that the words name. Each word has to be a class, also past the eight that a gate may have at most.
fn read_pins(words: Words) -> Result<ArrayVec<Class, PINS>, LineFault>
    ensures { MatchResult result (λ pins. Classes words.entry pins.items) (NoPins words.entry) }
{
    let mut pins = ArrayVec::new();
    let mut added = Ok(());
    for word in words {
        let class = word.parse().map_err(|_| LineFault::UnknownClass)?;
        added = add(&mut pins, class);
    }
    added?;
    Ok(pins)
}

// The class of the output of the gate that the line describes, or what is wrong with the line. Words are separated by
// spaces; a line without words names no function.
// not inlined: a caller that prints would no longer have its printing inlined
#[inline(never)]
pub fn class_of_line(line: &str) -> Result<Class, LineFault>
    ensures { Says line.now result }
{
    let mut words = Words::new(line);
    let function = words
        .next()
        .and_then(|name| name.parse::<Function>().ok())
        .ok_or(LineFault::UnknownFunction)?;
    let pins = read_pins(words)?;
    if function.takes_pins(pins.len()) {
        Ok(evaluate(function, &pins))
    } else if pins.len() < 2 {
        Err(LineFault::TooFewPins)
    } else {
        Err(LineFault::TooManyPins)
    }
}
