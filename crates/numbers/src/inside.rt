// What a text is inside of at a place, and how one character changes it.
ghost use Rattle.numbers.specs.Reading.{after, after_number, with_digit};
ghost use Rattle.std.specs.Prelude.{◌≡◌, ◌≤◌};

use crate::refusal::Fault;

#[derive(Clone, Copy)]
pub enum Inside {
    Nothing,
    // A number, by its digits so far.
    Number(u32),
    Comment,
}

// The number `n` and the digit `c` behind it.
fn number_with_digit(n: u32, c: u8) -> Result<Inside, Fault>
    requires { 48 ≤ c }
    ensures { result ≡ with_digit n c }
{
    let number = u64::from(n) * 10 + u64::from(c - b'0');
    u32::try_from(number)
        .map(Inside::Number)
        .map_err(|_| Fault::TooLarge)
}

// What a text is inside of behind `c`, which stands in no comment and behind the digits of `n`, or behind none.
fn inside_after_number(n: u32, c: u8) -> Result<Inside, Fault>
    ensures { result ≡ after_number n c }
{
    match c {
        b'0'..=b'9' => number_with_digit(n, c),
        b' ' | b'\t' | b'\n' | b'\r' => Ok(Inside::Nothing),
        b'#' => Ok(Inside::Comment),
        _ => Err(Fault::Character),
    }
}

// What a text is inside of behind `c`.
pub fn inside_after(inside: Inside, c: u8) -> Result<Inside, Fault>
    ensures { result ≡ after inside c }
{
    match inside {
        Inside::Nothing => inside_after_number(0, c),
        Inside::Number(n) => inside_after_number(n, c),
        Inside::Comment if c == b'\n' => Ok(Inside::Nothing),
        Inside::Comment => Ok(Inside::Comment),
    }
}
