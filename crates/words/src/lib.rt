// Words of a text, one after the other.
#![tactic(auto)]

ghost use Rattle.std.specs.Prelude.{◌≡◌, not, length, ◌==◌};
ghost use Rattle.std.specs.Iterator.{YieldsFirstRef, item_count};
ghost use Rattle.words.specs.Words.{words};

use std::marker::Model;

// The words that are left of a text. A contract sees it as the list of these words.
#[derive(Drop)]
pub struct Words<'a> {
    left: &'a str,
}

impl<'a> Model for Words<'a> {
    ghost use Rattle.std.specs.Prelude.{ℕ, List};
    ghost use Rattle.words.specs.Words.{words};

    ghost Value = { List (List ℕ) };

    ghost view = { λ w. words w.left.now };
}

// Whether a part of a text is a word: it is not empty.
fn is_word(part: &str) -> bool
    ensures { result ≡ not (length part.now == 0) }
{
    !part.is_empty()
}

impl<'a> Words<'a> {
    // The words of this text.
    pub fn new(text: &'a str) -> Words<'a>
        ensures { result ≡ words text.now }
    {
        Words { left: text }
    }
}

impl<'a> Iterator for Words<'a> {
    type Item = &'a str;

    ghost next_gives = { YieldsFirstRef (λ left. left) };

    ghost remaining = { item_count (λ left. left) };

    // The next part between spaces that is not empty.
    fn next(&mut self) -> Option<&'a str> {
        // a loop: a search of the parts by `find` took a line of words up to twice the work
        while let Some((part, after)) = self.left.split_once(' ') {
            self.left = after;
            if is_word(part) {
                return Some(part);
            }
        }
        let last = self.left;
        self.left = "";
        is_word(last).then_some(last)
    }
}
