//! The forms of a field.
ghost use Rattle.std.specs.Prelude.{◌≡◌, ◌≤◌, true, if◌then◌else◌, Some, None, ◌&&◌, ◌==◌, nat_le, nat_lt, length, slice_index};
ghost use Rattle.std.specs.List.{list_all};
ghost use Rattle.sheet.specs.Forms.{digit, value as value_of, number as number_of, period as period_of, is_name as names};
ghost use Rattle.sheet.specs.Tokens.{text_of, Fits};
ghost use Rattle.sheet.specs.Fitting.{Fits-prop};

use crate::limits::{DIGITS, NAME};
use crate::token::Token;

/// Whether a zero stands before other digits.
fn is_padded(digits: &[u8]) -> bool
    ensures { result ≡ (nat_lt 1 (length digits.now) && slice_index digits.now 0 == 48) }
{
    digits.len() > 1 && digits[0] == b'0'
}

/// The number that a few digits write, unless it is too high.
fn value(digits: &[u8]) -> Option<u16>
    requires digits { list_all digit digits.now ≡ true }
    requires few { length digits.now ≤ 5 }
    ensures { result ≡ (if nat_le (value_of digits.now) 65535 then Some (value_of digits.now) else None) }
{
    let mut sum = 0u32;
    for b in digits {
        sum = sum * 10 + u32::from(*b - b'0');
    }
    u16::try_from(sum).ok()
}

/// The number that digits write, if they are not too many, have no zero before others and are not too high.
fn number_of(digits: &[u8]) -> Option<u16>
    requires { list_all digit digits.now ≡ true }
    ensures { result ≡ number_of digits.now }
{
    if digits.is_empty() || digits.len() > DIGITS || is_padded(digits) {
        return None;
    }
    value(digits)
}

/// A field of a line: a token of the kind that its bytes say.
#[derive(Clone, Copy)]
pub(crate) struct Field<'a> {
    pub(crate) token: Token<'a>,
    ghost fits: { Fits token } by { Fits-prop token },
}

impl<'a> Field<'a> {
    /// The number that it writes, if it is of that form.
    pub(crate) fn number(self) -> Option<u16>
        ensures { result ≡ number_of (text_of self.entry.token) }
    {
        match self.token {
            Token::Number { text, .. } => number_of(text),
            Token::Name { .. } | Token::Keyword { .. } => None,
        }
    }

    /// The period that it writes: a number of 1 or more.
    pub(crate) fn period(self) -> Option<u16>
        ensures { result ≡ period_of (text_of self.entry.token) }
    {
        self.number().filter(|n| *n > 0)
    }

    /// Whether it is a name. Digits alone are one too.
    #[tactic(auto, using(crate::proofs::Texts::digits_name, crate::proofs::Texts::short_name))]
    pub(crate) fn is_name(self) -> bool
        ensures { result ≡ names (text_of self.entry.token) }
    {
        match self.token {
            Token::Name { text, .. } | Token::Number { text, .. } => {
                (1..=NAME).contains(&text.len())
            }
            Token::Keyword { .. } => false,
        }
    }
}
