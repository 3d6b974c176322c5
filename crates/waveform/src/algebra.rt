// Switching algebras: values that stand for sets of waveforms, with the operations of gates; the three values and the
// thirteen classes are two of them.
ghost use Rattle.std.specs.Prelude.{◌≡◌};
ghost use Rattle.signals.specs.Waveform.{Waveform};
ghost use Rattle.waveform.specs.Algebra.{Lawful, Ops, Sound, disj};
ghost use Rattle.classes.specs.Class.{In};
ghost use Rattle.waveform.specs.Ops.{class_ops, free_class, three_ops};
ghost use Rattle.classes.specs.Three.{Stands};
ghost use Rattle.waveform.specs.ThreeSound.{three_sound};
ghost use Rattle.std.proofs.Common.{rules};
ghost use Rattle.waveform.specs.Classes.{class_laws};
ghost use Rattle.waveform.specs.ClassSound.{class_sound};

use classes::{Class, Three};

pub trait SwitchingAlgebra: Sized + Copy {
    ghost ops: { Ops Self };

    ghost stands: { Self → Waveform → Type 0 };

    fn zero() -> Self
        ensures { result ≡ ops.zero };

    fn one() -> Self
        ensures { result ≡ ops.one };

    fn not(self) -> Self
        ensures { result ≡ ops.neg self };

    fn and(self, other: Self) -> Self
        ensures { result ≡ ops.conj self other };

    fn xor(self, other: Self) -> Self
        ensures { result ≡ ops.excl self other };

    // Conjunction between inversions.
    fn or(self, other: Self) -> Self
        ensures { result ≡ disj ops self other }
    {
        self.not().and(other.not()).not()
    }

    ghost lawful: { Lawful ops };

    ghost sound: { Sound ops stands };
}

impl SwitchingAlgebra for Three {
    ghost ops = { three_ops };

    ghost stands = { Stands };

    ghost lawful = { Prim.search rules };

    ghost sound = { three_sound };

    fn zero() -> Three {
        Three::Zero
    }

    fn one() -> Three {
        Three::One
    }

    fn not(self) -> Three {
        match self {
            Three::Zero => Three::One,
            Three::One => Three::Zero,
            Three::Unknown => Three::Unknown,
        }
    }

    fn and(self, other: Three) -> Three {
        match (self, other) {
            (Three::Zero, _) | (_, Three::Zero) => Three::Zero,
            (Three::One, Three::One) => Three::One,
            _ => Three::Unknown,
        }
    }

    fn xor(self, other: Three) -> Three {
        match (self, other) {
            (Three::Unknown, _) | (_, Three::Unknown) => Three::Unknown,
            (Three::Zero, Three::Zero) | (Three::One, Three::One) => Three::Zero,
            _ => Three::One,
        }
    }
}

// The class of this start and this end whose middle is X.
fn free_class(start: Three, end: Three) -> Class
    ensures { result ≡ free_class start end }
{
    match (start, end) {
        (Three::Zero, Three::Zero) => Class::C0X0,
        (Three::Zero, Three::One) => Class::C0X1,
        (Three::Zero, Three::Unknown) => Class::C0XX,
        (Three::One, Three::Zero) => Class::C1X0,
        (Three::One, Three::One) => Class::C1X1,
        (Three::One, Three::Unknown) => Class::C1XX,
        (Three::Unknown, Three::Zero) => Class::CXX0,
        (Three::Unknown, Three::One) => Class::CXX1,
        (Three::Unknown, Three::Unknown) => Class::CXXX,
    }
}

impl SwitchingAlgebra for Class {
    ghost ops = { class_ops };

    ghost stands = { In };

    ghost lawful = { class_laws };

    ghost sound = { class_sound };

    fn zero() -> Class {
        Class::C000
    }

    fn one() -> Class {
        Class::C111
    }

    fn not(self) -> Class {
        match self {
            Class::C000 => Class::C111,
            Class::C111 => Class::C000,
            Class::C0R1 => Class::C1F0,
            Class::C1F0 => Class::C0R1,
            Class::C0X0 => Class::C1X1,
            Class::C0X1 => Class::C1X0,
            Class::C1X0 => Class::C0X1,
            Class::C1X1 => Class::C0X0,
            Class::C0XX => Class::C1XX,
            Class::C1XX => Class::C0XX,
            Class::CXX0 => Class::CXX1,
            Class::CXX1 => Class::CXX0,
            Class::CXXX => Class::CXXX,
        }
    }

    fn and(self, other: Class) -> Class {
        match (self, other) {
            (Class::C000, _) | (_, Class::C000) => Class::C000,
            (Class::C111, kept) | (kept, Class::C111) => kept,
            _ if self.is_clean() && self == other => self,
            _ => free_class(self.start().and(other.start()), self.end().and(other.end())),
        }
    }

    fn xor(self, other: Class) -> Class {
        match (self, other) {
            (Class::C000, kept) | (kept, Class::C000) => kept,
            (Class::C111, kept) | (kept, Class::C111) => kept.not(),
            _ => free_class(self.start().xor(other.start()), self.end().xor(other.end())),
        }
    }
}
