ghost use Rattle.std.specs.Prelude.{◌≡◌, ◌<◌, ◌↔◌, ◌^◌, IfSome, IfNone, IsSome, true, false, pos, drop};
ghost use Rattle.std.specs.List.{list_all};
ghost use Rattle.pz_lexer.specs.Bytes.{is_digit, begins};
ghost use Rattle.pz_lexer.specs.Numbers.{value_of, begins_fraction};
ghost use Rattle.pz_lexer.specs.devices.Reading.{Reads};
ghost use Rattle.pz_lexer.specs.devices.NumberStep.{integer_step, float_step};
ghost use Rattle.pz_lexer.specs.devices.Gives.{Gives};

use crate::bytes::{begins_digit, begins_letter, digits_len};
use crate::sorts::{Found, Reason, Sort, Stop};
use pz_syntax::TokenKind;

/// The number that a digit begins.
pub fn number(text: &[u8]) -> Result<Found, Stop>
    requires { begins is_digit text.now ≡ true }
    ensures { Reads text.now result }
{
    let (digits, rest) = text.split_at(digits_len(text));
    match fraction(rest) {
        Some(decimals) => float(digits, decimals),
        None => integer(digits, rest),
    }
}

/// What follows the `.` where a `.` and a digit stand first.
fn fraction(text: &[u8]) -> Option<&[u8]>
    ensures some { IfSome result (λ decimals. (begins_fraction text.now ≡ true)
        × (decimals.now ≡ drop 1 text.now)) }
    ensures none { IfNone result (begins_fraction text.now ≡ false) }
{
    let (dot, decimals) = text.split_first()?;
    if *dot == b'.' && begins_digit(decimals) {
        Some(decimals)
    } else {
        None
    }
}

fn integer(digits: &[u8], rest: &[u8]) -> Result<Found, Stop>
    requires { list_all is_digit digits.now ≡ true }
    ensures { Gives (integer_step digits.now rest.now) result }
{
    if begins_letter(rest) {
        return Err(Stop::Refused(Reason::BadNumber, 0));
    }
    match value_of(digits) {
        Some(value) => Ok(Found {
            sort: Sort::Token(TokenKind::Int(value)),
            len: digits.len(),
        }),
        None => Err(Stop::Refused(Reason::BadNumber, 0)),
    }
}

/// The number of these digits, a `.` and the digits that stand first in the last text.
fn float(digits: &[u8], decimals: &[u8]) -> Result<Found, Stop>
    ensures { Gives (float_step digits.now decimals.now) result }
{
    let (decimals, rest) = decimals.split_at(digits_len(decimals));
    if begins_letter(rest) {
        return Err(Stop::Refused(Reason::BadNumber, 0));
    }
    Ok(Found {
        sort: Sort::Token(TokenKind::Float),
        len: digits.len() + 1 + decimals.len(),
    })
}

/// What decimal digits stand for. None exactly where that is more than 2^63 - 1.
fn value_of(digits: &[u8]) -> Option<i64>
    requires { list_all is_digit digits.now ≡ true }
    ensures some { IfSome result (λ value. value ≡ pos (value_of digits.now)) }
    ensures fits { IsSome result ↔ (value_of digits.now < 2 ^ 63) }
{
    let mut value = 0u128;
    for digit in digits {
        value = 10 * value + u128::from(*digit - b'0');
        if value > i64::MAX as u128 {
            return None;
        }
    }
    Some(value as i64)
}
