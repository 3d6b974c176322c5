// A row: the class of a net, its bounds from each input, and its held pins.
ghost use Rattle.std.specs.Prelude.{◌≡◌, Some};
ghost use Rattle.runs.specs.Gathered.{joined};

use classes::Class;

// the most inputs that a circuit has; the reader of files compares with this limit and the next one, and keeps them to itself
pub const INPUTS: usize = 16;

// the most pins that a gate has
pub const PINS: usize = 8;

// the most nets that a circuit has
pub const NETS: usize = 256;

// a flip comes lo to hi ticks after a flip of the input that it comes from
#[derive(Clone, Copy, PartialEq, Eq, Debug)]
pub struct Bounds {
    pub lo: u32,
    pub hi: u32,
}

impl Bounds {
    // The narrowest bounds that contain both.
    pub fn join(self, other: Bounds) -> Bounds
        ensures { Some result ≡ joined (Some self) (Some other) }
    {
        Bounds {
            lo: self.lo.min(other.lo),
            hi: self.hi.max(other.hi),
        }
    }
}

// The narrowest bounds that contain both, where one is missing the other, or none where both are.
pub fn join_bounds(one: Option<Bounds>, other: Option<Bounds>) -> Option<Bounds>
    ensures { result ≡ joined one other }
{
    match (one, other) {
        (Some(x), Some(y)) => Some(x.join(y)),
        _ => one.or(other),
    }
}

#[derive(Clone, Copy, PartialEq, Eq, Debug)]
pub struct Row {
    pub class: Class,
    // the bounds from each input, or none
    pub bounds: [Option<Bounds>; INPUTS],
    // the value at which each pin is held, or none
    pub held: [Option<bool>; PINS],
}
