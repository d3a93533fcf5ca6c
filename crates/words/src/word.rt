ghost use Rattle.std.specs.Prelude.{◌≡◌, true, None, MatchOption, slice_index};
ghost use Rattle.std.specs.Char.{is_ascii_digit};
ghost use Rattle.words.specs.Parts.{three_words};
ghost use Rattle.words.specs.Words.{number_of, letter_of, metric_of};
ghost use Rattle.words.specs.Cases.{bytes_of, Sorted, ThreeOf};

use crate::metric_name::{MetricName, metric_of};
use crate::parts::cut;
use std::str;

// The most digits of a number.
const DIGITS: usize = 4;

// A word stays the part of the text that it was.
#[derive(Clone, Copy)]
pub(crate) enum Word<'a> {
    // It begins with a digit.
    Number(&'a [u8]),
    // It is one other byte.
    Letter(u8),
    // It is neither.
    Name(&'a [u8]),
}

#[derive(Clone, Copy)]
pub(crate) struct Words<'a> {
    pub(crate) first: Word<'a>,
    pub(crate) second: Word<'a>,
    pub(crate) third: Word<'a>,
}

// The number of one to four digits. `parse` takes a sign too, but the first byte is a digit.
fn number_of(word: &[u8]) -> Option<usize>
    requires { is_ascii_digit (slice_index word.now 0) ≡ true }
    ensures { result ≡ number_of word.now }
{
    if word.len() > DIGITS {
        return None;
    }
    str::from_utf8(word).ok()?.parse().ok()
}

impl<'a> Word<'a> {
    fn of(part: &'a [u8]) -> Word<'a>
        ensures sorted { Sorted result }
        ensures bytes { bytes_of result ≡ part.now }
    {
        match part {
            [] => Word::Name(part),
            [b'0'..=b'9', ..] => Word::Number(part),
            [letter] => Word::Letter(*letter),
            _ => Word::Name(part),
        }
    }

    pub(crate) fn number(self) -> Option<usize>
        requires { Sorted self }
        ensures { result ≡ number_of (bytes_of self.entry) }
    {
        match self {
            Word::Number(digits) => number_of(digits),
            _ => None,
        }
    }

    pub(crate) fn letter(self) -> Option<char>
        requires { Sorted self }
        ensures { result ≡ letter_of (bytes_of self.entry) }
    {
        match self {
            Word::Letter(letter) => Some(char::from(letter)),
            _ => None,
        }
    }

    pub(crate) fn metric(self) -> Option<MetricName>
        requires { Sorted self }
        ensures { result ≡ metric_of (bytes_of self.entry) }
    {
        match self {
            Word::Name(name) => metric_of(name),
            _ => None,
        }
    }
}

// Three words, parted by commas.
pub(crate) fn three_words(bytes: &[u8]) -> Option<Words<'_>>
    ensures { MatchOption result (three_words bytes.now ≡ None) (ThreeOf bytes.now) }
{
    let (first, rest) = cut(bytes, b',')?;
    let (second, third) = cut(rest, b',')?;
    match cut(third, b',') {
        Some(_) => None,
        None => Some(Words {
            first: Word::of(first),
            second: Word::of(second),
            third: Word::of(third),
        }),
    }
}
