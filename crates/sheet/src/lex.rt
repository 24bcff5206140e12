//! The lexer: cuts a line into its fields, one at a time.
ghost use Rattle.std.specs.Prelude.{◌≡◌, ◌≤◌, length};
ghost use Rattle.std.specs.Option.{option_map};
ghost use Rattle.std.specs.List.{list_all, position_or_len};
ghost use Rattle.sheet.specs.Forms.{digit, name_byte};
ghost use Rattle.sheet.specs.Steps.{of_class};
ghost use Rattle.sheet.specs.Tokens.{Next, Fits, text_of, place_of};

use crate::class::{Class, is_name_byte};
use crate::forms::Field;
use crate::token::Token;

/// The sheet up to the end of a line, and where the next field begins: past the end when there is none.
#[derive(Drop)]
pub struct Lexer<'a> {
    text: &'a [u8],
    at: usize,
}

/// How many bytes stand before the first of a kind: all, if there is none.
pub(crate) fn count_before(text: &[u8], end: Class) -> usize
    ensures count { result ≡ position_or_len (of_class end) text.now }
    ensures within { result ≤ length text.now }
{
    text.iter().position(|b| end.has(*b)).unwrap_or(text.len())
}

/// Whether the text has digits alone.
fn all_digits(text: &[u8]) -> bool
    ensures { result ≡ list_all digit text.now }
{
    text.iter().all(|b| Class::Digit.has(*b))
}

/// Whether the text has capitals and digits alone.
fn all_name_bytes(text: &[u8]) -> bool
    ensures { result ≡ list_all name_byte text.now }
{
    text.iter().all(|b| is_name_byte(*b))
}

/// The token of a text that begins at `place`.
fn token_of(text: &[u8], place: usize) -> Token
    ensures fits { Fits result }
    ensures text { text_of result ≡ text.now }
    ensures place { place_of result ≡ place }
{
    if all_digits(text) {
        Token::Number { text, place }
    } else if all_name_bytes(text) {
        Token::Name { text, place }
    } else {
        Token::Keyword { text, place }
    }
}

impl<'a> Lexer<'a> {
    /// The fields of a line that begins at `at` and ends where the text ends.
    pub fn new(text: &'a [u8], at: usize) -> Lexer<'a>
        ensures { (result.text.now ≡ text.now) × (result.at ≡ at) }
    {
        Lexer { text, at }
    }

    /// The next field, or none when all are read.
    pub fn next_token(&mut self) -> Option<Token<'a>>
        ensures text { self.new.text.now ≡ self.old.text.now }
        ensures next { Next self.old.text.now self.old.at self.new.at result }
    {
        if self.at > self.text.len() {
            return None;
        }
        let place = self.at;
        let end = place + count_before(&self.text[place..], Class::Comma);
        self.at = end + 1;
        Some(token_of(&self.text[place..end], place))
    }

    /// The next field, of the kind that its bytes say.
    pub(crate) fn next_field(&mut self) -> Option<Field<'a>>
        ensures text { self.new.text.now ≡ self.old.text.now }
        ensures next { Next self.old.text.now self.old.at self.new.at (option_map (λ f. f.token) result) }
    {
        let token = self.next_token()?;
        Some(Field { token })
    }
}
