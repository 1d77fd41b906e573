use std::fmt;
use thiserror::Error;

/// Why a text is not a listing, that of a words file or of a lane file.
#[derive(Clone, Copy, Debug, PartialEq, Eq, Error)]
pub enum TextError {
    /// The text does not begin with the line `words` or the line `lane`, whole.
    Head,
    /// The line of this number, counted from 1, is the least that is not a line of its kind, or is not ended, or follows a
    /// line of rest bits.
    Line(u64),
    /// The bits of the lane are no whole number of bytes.
    Length,
}

impl fmt::Display for TextError {
    ghost use Rattle.std.specs.Prelude.{Some};
    ghost use Rattle.words_files.specs.Texts.{text_refusal_text};

    ghost output = { λ e. Some (text_refusal_text e) };

    fn fmt<W: fmt::Write>(&self, f: &mut fmt::Formatter<W>) -> fmt::Result {
        match self {
            TextError::Head => write!(f, "head"),
            TextError::Line(number) => write!(f, "line {number}"),
            TextError::Length => write!(f, "length"),
        }
    }
}
