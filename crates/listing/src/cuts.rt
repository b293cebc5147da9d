//! Cutting a text into lines and a line into words, one after another.

ghost use Rattle.std.specs.Prelude.{◌≡◌};
ghost use Rattle.std.specs.Iterator.{YieldsFirstRef, item_count};
ghost use Rattle.listing.specs.Pieces.{lines, words};

use std::marker::Model;

/// The pieces that are still to come: the lines of a text, or the words of a line.
// A type of its own and not what the slice's `split` gives: that type has a closure's in it, so each function that goes
// on with the words would have to be generic, and its clauses could not name the words that are left as they do here.
#[derive(Drop)]
pub(crate) struct Pieces<'a> {
    rest: Option<&'a [u8]>,
    mark: u8,
}

impl<'a> Model for Pieces<'a> {
    ghost use Rattle.std.specs.Prelude.{ℕ, List};
    ghost use Rattle.listing.specs.Pieces.{pieces_left};

    ghost Value = { List (List ℕ) };

    ghost view = { λ p. pieces_left p.mark p.rest };
}

impl<'a> Pieces<'a> {
    /// The lines of a text, each without its end; the last line may lack it.
    pub(crate) fn lines(text: &'a [u8]) -> Pieces<'a>
        ensures { result ≡ lines text.now }
    {
        let rest = match text {
            [] => None,
            _ => Some(text.strip_suffix(b"\n").unwrap_or(text)),
        };
        Pieces { rest, mark: b'\n' }
    }

    /// The words of a line.
    pub(crate) fn words(line: &'a [u8]) -> Pieces<'a>
        ensures { result ≡ words line.now }
    {
        Pieces {
            rest: Some(line),
            mark: b' ',
        }
    }
}

impl<'a> Iterator for Pieces<'a> {
    type Item = &'a [u8];

    ghost next_gives = { YieldsFirstRef (λ ps. ps) };

    ghost remaining = { item_count (λ ps. ps) };

    fn next(&mut self) -> Option<&'a [u8]> {
        let rest = self.rest.take()?;
        let Some(end) = rest.iter().position(|b| *b == self.mark) else {
            return Some(rest);
        };
        self.rest = Some(&rest[end + 1..]);
        Some(&rest[..end])
    }
}
