//! What a byte of a sheet may be part of.
ghost use Rattle.std.specs.Prelude.{◌≡◌};
ghost use Rattle.sheet.specs.Forms.{name_byte};
ghost use Rattle.sheet.specs.Steps.{class_of, of_class};

/// The kinds of bytes; a sheet has no use for the others but in a wrong field.
#[derive(Clone, Copy, PartialEq, Eq)]
pub(crate) enum Class {
    Digit,
    Capital,
    Comma,
    Feed,
    Other,
}

/// The kind of a byte.
fn classify(b: u8) -> Class
    ensures { result ≡ class_of b }
{
    match char::from(b) {
        '0'..='9' => Class::Digit,
        'A'..='Z' => Class::Capital,
        ',' => Class::Comma,
        '\n' => Class::Feed,
        _ => Class::Other,
    }
}

impl Class {
    /// Whether a byte is of this kind.
    pub(crate) fn has(self, b: u8) -> bool
        ensures { result ≡ of_class self b }
    {
        classify(b) == self
    }
}

/// Whether a name may have this byte.
pub(crate) fn is_name_byte(b: u8) -> bool
    ensures { result ≡ name_byte b }
{
    matches!(classify(b), Class::Digit | Class::Capital)
}
