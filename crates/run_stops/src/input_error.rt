//! Why an input is refused.
use pcap_files::PcapError;
use plan_errors::PlanError;
use std::fmt;
use thiserror::Error;
use words_files::{TextError, WordsError};

/// Why an input is refused.
#[derive(Clone, Copy, Debug, PartialEq, Eq, Error)]
pub enum InputError {
    /// There is no file of the name.
    NoFile,
    /// The file is longer than its limit.
    TooLarge,
    /// The file is no capture, with the first refusal of its bytes.
    Pcap(PcapError),
    /// The file is no words file, with the refusal of its bytes.
    Words(WordsError),
    /// The rows of the file are not accepted, with the first refusal among them.
    Rows(PlanError),
    /// The file is no listing, with why its text is refused.
    Text(TextError),
    /// The file has a byte that is no sample, the least at this offset.
    Samples(u64),
}

impl fmt::Display for InputError {
    ghost use Rattle.std.specs.Prelude.{Some};
    ghost use Rattle.run_stops.specs.Lines.{why_text};

    ghost output = { λ e. Some (why_text e) };

    fn fmt<W: fmt::Write>(&self, f: &mut fmt::Formatter<W>) -> fmt::Result {
        match self {
            InputError::NoFile => write!(f, "no file"),
            InputError::TooLarge => write!(f, "too large"),
            InputError::Pcap(refusal) => write!(f, "{refusal}"),
            InputError::Words(refusal) => write!(f, "{refusal}"),
            InputError::Rows(refusal) => write!(f, "{refusal}"),
            InputError::Text(refusal) => write!(f, "{refusal}"),
            InputError::Samples(offset) => write!(f, "sample at {offset}"),
        }
    }
}
