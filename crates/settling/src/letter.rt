// The two letters of a class that rest and holding are about. A value and no closure: contracts name which of the two it is.
ghost use Rattle.std.specs.Prelude.{◌≡◌};
ghost use Rattle.settling.specs.Resting.{letter_of};

use classes::{Class, Three};

#[derive(Clone, Copy)]
pub(crate) enum Letter {
    Start,
    End,
}

impl Letter {
    // This letter of a class.
    pub(crate) fn of(self, class: Class) -> Three
        ensures { result ≡ letter_of self class }
    {
        match self {
            Letter::Start => class.start(),
            Letter::End => class.end(),
        }
    }
}

// The letter at which a pin may be held, and the control value of its gate.
#[derive(Clone, Copy)]
pub(crate) struct Hold {
    pub(crate) letter: Letter,
    pub(crate) control: bool,
}
