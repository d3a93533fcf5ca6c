ghost use Rattle.std.specs.Prelude.{◌≡◌};
ghost use Rattle.words.specs.Words.{call_of, order_of};
ghost use Rattle.words.specs.Calls.{call_with, call_by, call_in};

use crate::word::three_words;
use sheet::order::Order;

// The calls by their names alone.
#[derive(Clone, Copy, PartialEq, Eq, Debug)]
pub enum CallName {
    Strike,
    Restore,
    Settle,
    Read,
    Peak,
    Reopen,
}

// The calls with what each is asked for. The calls of a bench are an enum of their own: one generic enum below both crates would
// leave unnamed what a settling has, here an order and there a metric with its order.
#[derive(Clone, Copy, PartialEq, Eq, Debug)]
pub enum Call {
    Strike { row: usize, column: usize },
    Restore { row: usize, column: usize },
    Settle(Order),
    Read { row: usize, column: usize },
    Peak,
    Reopen,
}

// The call that a letter stands for. No `TryFrom`: its error would say no more than `None`, and each caller would drop it.
pub fn call_of(letter: char) -> Option<CallName>
    ensures { result ≡ call_of letter }
{
    match letter {
        's' => Some(CallName::Strike),
        'u' => Some(CallName::Restore),
        't' => Some(CallName::Settle),
        'r' => Some(CallName::Read),
        'p' => Some(CallName::Peak),
        'o' => Some(CallName::Reopen),
        _ => None,
    }
}

// The order of work that a letter stands for; an `Option` for the same reason.
pub fn order_of(letter: char) -> Option<Order>
    ensures { result ≡ order_of letter }
{
    match letter {
        'p' => Some(Order::Parallel),
        'd' => Some(Order::Directional),
        'r' => Some(Order::Raster),
        'f' => Some(Order::Free),
        _ => None,
    }
}

// The call of a name with its row, its column and its order's letter.
fn call_with(name: CallName, row: usize, column: usize, letter: char) -> Option<Call>
    ensures { result ≡ call_with name row column letter }
{
    match name {
        CallName::Strike if letter == '-' => Some(Call::Strike { row, column }),
        CallName::Restore if letter == '-' => Some(Call::Restore { row, column }),
        CallName::Settle if row == 0 && column == 0 => Some(Call::Settle(order_of(letter)?)),
        CallName::Read if letter == '-' => Some(Call::Read { row, column }),
        CallName::Peak if row == 0 && column == 0 && letter == '-' => Some(Call::Peak),
        CallName::Reopen if row == 0 && column == 0 && letter == '-' => Some(Call::Reopen),
        _ => None,
    }
}

// The call of a name with the three words that follow its letter.
fn call_by(name: CallName, rest: &[u8]) -> Option<Call>
    ensures { result ≡ call_by name rest.now }
{
    let words = three_words(rest)?;
    let row = words.first.number()?;
    let column = words.second.number()?;
    let letter = words.third.letter()?;
    call_with(name, row, column, letter)
}

// The call of a line, if it is one.
pub fn call_in(line: &[u8]) -> Option<Call>
    ensures { result ≡ call_in line.now }
{
    match line {
        [letter, b',', rest @ ..] => call_by(call_of(char::from(*letter))?, rest),
        _ => None,
    }
}
