// The separations that are held, as a table of spacings.
ghost use Rattle.std.specs.Prelude.{◌≡◌, ◌≤◌, true};
ghost use Rattle.std.specs.List.{list_all};
ghost use Rattle.separations.specs.Separations.{separation, held, is_full, is_formed};
ghost use Rattle.separations.specs.Check.{times_after};

mod held;
mod hold;
mod place;

use crate::inputs::INPUTS;
pub use held::Iter;

// A well-formed separation of two inputs: every flip of b comes at least s ticks after every flip of a.
#[derive(Clone, Copy)]
pub(crate) struct Separation {
    a: u8,
    b: u8,
    s: i32,
    ghost first: { a ≤ 15 },
    ghost second: { b ≤ 15 },
    ghost formed: { is_formed (separation a b s) ≡ true },
}

// A row for each first input, in it a place for each second input: at row a and column b the spacing of the pair (a, b),
// if one is held. Each is well formed.
#[derive(Clone, Copy)]
pub(crate) struct Spacings {
    pub(crate) rows: [[Option<i32>; INPUTS]; INPUTS],
    ghost full: { is_full rows ≡ true },
    ghost formed: { list_all is_formed (held rows) ≡ true },
}

// Separations that are together free of contradiction: a pass after the sixteenth raises no time. It has no `Model`: a
// refusal leaves the whole table as it was, and of the list alone a clause would say less.
#[derive(Clone, Copy)]
pub struct Separations {
    spacings: Spacings,
    ghost settled: { times_after spacings.rows 17 ≡ times_after spacings.rows 16 },
}
