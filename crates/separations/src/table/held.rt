// What is held, one separation after the other.
ghost use Rattle.std.specs.Prelude.{◌≡◌};
ghost use Rattle.std.specs.Iterator.{YieldsFirstBy, item_count};
ghost use Rattle.separations.specs.Separations.{separation};
ghost use Rattle.separations.specs.Holding.{held_by};

use super::Separations;
use crate::inputs::INPUTS;
use std::marker::Model;

// The separations that are held and were not given yet, seen as a list: what is left of row a, from column b on, and the
// rows after it. Row and column are counted here: `enumerate` would give them as `usize`, to be narrowed at each item.
#[derive(Drop)]
pub struct Iter<'a> {
    a: u8,
    b: u8,
    row: &'a [Option<i32>],
    rows: &'a [[Option<i32>; INPUTS]],
}

impl<'a> Model for Iter<'a> {
    ghost use Rattle.std.specs.Prelude.{◌≡◌, ℕ, ◌+◌, ◌≤◌, true, nat_eq, length, List};
    ghost use Rattle.std.specs.List.{list_all};
    ghost use Rattle.separations.specs.Separations.{Separation, held_in_row, held_from};

    ghost Value = { List Separation };

    ghost view = { λ h. held_in_row h.a h.b h.row.now (held_from (h.a + 1) h.rows.now) };

    ghost invariant = { λ h. (h.a + length h.rows.now ≤ 15) × (h.b + length h.row.now ≤ 16) × (list_all (λ row. nat_eq (length row) 16) h.rows.now ≡ true) };
}

impl Separations {
    // The separations that are held, by rising a, then by rising b.
    pub fn iter(&self) -> Iter<'_>
        ensures { result ≡ held_by self.now }
    {
        let rows = &self.spacings.rows[..];
        Iter {
            a: 0,
            b: 0,
            row: &rows[0],
            rows: &rows[1..],
        }
    }
}

impl<'a> Iterator for Iter<'a> {
    type Item = (u8, u8, i32);

    ghost next_gives = { YieldsFirstBy (λ x. separation x.0 x.1 x.2) (λ rest. rest) };

    ghost remaining = { item_count (λ rest. rest) };

    fn next(&mut self) -> Option<(u8, u8, i32)> {
        loop {
            if let Some((place, row)) = self.row.split_first() {
                let b = self.b;
                self.row = row;
                self.b += 1;
                if let Some(s) = place {
                    return Some((self.a, b, *s));
                }
            } else {
                let (row, rows) = self.rows.split_first()?;
                self.a += 1;
                self.b = 0;
                self.row = row;
                self.rows = rows;
            }
        }
    }
}
