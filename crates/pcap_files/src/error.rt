ghost use Rattle.std.specs.Prelude.{◌++◌, codes};
ghost use Rattle.std.specs.Fmt.{WritesOnOk, decimal};
ghost use Rattle.pcap_files.specs.declared.error.PcapError.TheVariants.{Magic, Version, Long};
ghost use Rattle.pcap_files.specs.Texts.{refusal_text};

use std::fmt;
use thiserror::Error;

/// Why a capture is refused.
#[derive(Clone, Copy, Debug, PartialEq, Eq, Error)]
pub enum PcapError {
    /// The first four bytes are none of the four magics; they are given read high byte first.
    Magic(u32),
    /// The file is of the newer format, pcapng.
    NgFile,
    /// The version, major and minor, is not 2.4.
    Version(u16, u16),
    /// The header, then at offset 0, or the record at this offset is not whole.
    Short(u64),
    /// The record of this number, from 0, captured no byte.
    Empty(u64),
    /// The record of this number, from 0, captured this many bytes, more than the largest packet has.
    Long(u64, u32),
}

// Writes the text of a wrong magic.
#[tactic(auto, using(crate::proofs::Hex::eight))]
fn write_magic<W: fmt::Write>(f: &mut fmt::Formatter<W>, magic: u32) -> fmt::Result
    ensures { WritesOnOk W.write_str_gives f.old result (refusal_text (Magic magic)) f.new }
{
    write!(f, "magic {magic:08X}")
}

// Writes the text of a wrong version.
fn write_version<W: fmt::Write>(f: &mut fmt::Formatter<W>, major: u16, minor: u16) -> fmt::Result
    ensures { WritesOnOk W.write_str_gives f.old result (refusal_text (Version major minor)) f.new }
{
    write!(f, "version {major}.{minor}")
}

// Writes what is wrong, and at which offset or with which record.
fn write_number<W: fmt::Write>(f: &mut fmt::Formatter<W>, what: &str, number: u64) -> fmt::Result
    ensures { WritesOnOk W.write_str_gives f.old result (what.now ++ (codes " " ++ decimal number)) f.new }
{
    write!(f, "{what} {number}")
}

// Writes the text of a record that is too long.
fn write_long<W: fmt::Write>(f: &mut fmt::Formatter<W>, number: u64, length: u32) -> fmt::Result
    ensures { WritesOnOk W.write_str_gives f.old result (refusal_text (Long number length)) f.new }
{
    write!(f, "long record {number} length {length}")
}

/// `magic XXXXXXXX` with eight upper case hexadecimal digits, `pcapng`, `version A.B`, `short at O`, `empty record N` or
/// `long record N length M`, with no line end.
impl fmt::Display for PcapError {
    ghost use Rattle.std.specs.Prelude.{Some};
    ghost use Rattle.pcap_files.specs.Texts.{refusal_text};

    ghost output = { λ e. Some (refusal_text e) };

    fn fmt<W: fmt::Write>(&self, f: &mut fmt::Formatter<W>) -> fmt::Result {
        match *self {
            PcapError::Magic(magic) => write_magic(f, magic),
            PcapError::NgFile => f.write_str("pcapng"),
            PcapError::Version(major, minor) => write_version(f, major, minor),
            PcapError::Short(offset) => write_number(f, "short at", offset),
            PcapError::Empty(number) => write_number(f, "empty record", number),
            PcapError::Long(number, length) => write_long(f, number, length),
        }
    }
}
