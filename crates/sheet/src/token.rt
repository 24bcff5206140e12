//! A field of a line, and where it stands in the sheet.
ghost use Rattle.std.specs.Prelude.{◌≡◌};
ghost use Rattle.sheet.specs.Tokens.{text_of, place_of};

/// A field: its bytes are those of the sheet from its place on.
#[derive(Clone, Copy)]
pub enum Token<'a> {
    /// capitals and digits
    Name { text: &'a [u8], place: usize },
    /// digits alone; a name may be that too
    Number { text: &'a [u8], place: usize },
    /// any other text: it has to be a word that the reader knows
    Keyword { text: &'a [u8], place: usize },
}

impl<'a> Token<'a> {
    /// Its bytes.
    pub fn text(self) -> &'a [u8]
        ensures { result.now ≡ text_of self.entry }
    {
        match self {
            Token::Name { text, .. } | Token::Number { text, .. } | Token::Keyword { text, .. } =>
                text,
        }
    }

    /// Where it begins.
    pub fn place(self) -> usize
        ensures { result ≡ place_of self.entry }
    {
        match self {
            Token::Name { place, .. }
            | Token::Number { place, .. }
            | Token::Keyword { place, .. } => place,
        }
    }
}
