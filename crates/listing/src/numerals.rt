//! Decimal numbers in a line.

ghost use Rattle.listing.specs.Answers.{Reads};
ghost use Rattle.listing.specs.Numbers.{numeral, max64};
ghost use Rattle.std.specs.Prelude.{◌≡◌};

use std::num::TryFromIntError;

/// The number that a word writes plainly, where its type can hold it.
pub(crate) fn read_number<T: TryFrom<u64, Error = TryFromIntError>>(word: &[u8]) -> Option<T>
    ensures { Reads T.try_from_gives word.now result }
{
    T::try_from(number_of(word)?).ok()
}

// The number of at most 64 bits that a word writes: digits with no needless zero before them. Digit by digit, and not
// by the library's `parse`, which asks for text: to see that a word is text and then to parse it goes over it twice
// more.
fn number_of(word: &[u8]) -> Option<u64>
    ensures { result ≡ numeral max64 word.now }
{
    if let [] | [b'0', _, ..] = word {
        return None;
    }
    let mut number: u64 = 0;
    for b in word {
        if !b.is_ascii_digit() {
            return None;
        }
        number = number.checked_mul(10)?.checked_add((*b - b'0') as u64)?;
    }
    Some(number)
}
