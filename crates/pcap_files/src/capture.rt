ghost use Rattle.std.specs.Prelude.{◌≡◌, ◌+◌, IfOk, MatchResult, Ok, Err, map, length};
ghost use Rattle.std.specs.List.{AllByRecursion};
ghost use Rattle.pcap_files.specs.Capture.{capture_of};
ghost use Rattle.pcap_files.specs.Records.{IsWithin, space_of};
ghost use Rattle.pcap_files.specs.declared.error.PcapError.{PcapError};

use crate::error::PcapError;
use crate::reader::PcapReader;
use std::alloc::{AllocFailed, Global};
use thiserror::Error;

/// Why the packets of a capture are not given.
#[derive(Clone, Copy, Debug, PartialEq, Eq, Error)]
pub enum CaptureError {
    /// The first refusal of the capture.
    #[error(transparent)]
    Refused(PcapError),
    /// Memory ran out.
    #[error("out of memory")]
    OutOfMemory,
}

impl From<PcapError> for CaptureError {
    ghost use Rattle.std.specs.Prelude.{◌≡◌};
    ghost use Rattle.pcap_files.specs.declared.capture.CaptureError.TheVariants as error;

    ghost from_gives = { λ refusal e. e ≡ error.Refused refusal };

    fn from(refusal: PcapError) -> CaptureError {
        CaptureError::Refused(refusal)
    }
}

impl<T: Drop> From<AllocFailed<T>> for CaptureError {
    ghost use Rattle.std.specs.Prelude.{◌≡◌};
    ghost use Rattle.pcap_files.specs.declared.capture.CaptureError.TheVariants as error;

    ghost from_gives = { λ _ e. e ≡ error.OutOfMemory };

    fn from(_: AllocFailed<T>) -> CaptureError {
        CaptureError::OutOfMemory
    }
}

/// Lends all packets of a capture from its bytes. Packets may have up to `most` bytes.
///
/// # Errors
///
/// The first refusal of the capture, if there is one, or `OutOfMemory` if memory ran out.
pub fn packets_of<'a>(
    alloc: Global,
    bytes: &'a [u8],
    most: u32,
) -> Result<Vec<&'a [u8]>, CaptureError>
    ensures answer { MatchResult result
        (λ v. capture_of bytes.now most ≡ Ok (map (λ p. p.now) v.items))
        (λ e. (why : PcapError) → e ≡ CaptureError.Refused why → capture_of bytes.now most ≡ Err why) }
    ensures within { IfOk result (λ v. AllByRecursion (IsWithin most) (map (λ p. p.now) v.items)) }
    ensures whole { IfOk result (λ v. 24 + space_of (map (λ p. p.now) v.items) ≡ length bytes.now) }
{
    let mut reader = PcapReader::begin(bytes, most)?;
    let mut packets: Vec<&'a [u8]> = Vec::new(alloc);
    while let Some(packet) = reader.next()? {
        packets.push(packet)?;
    }
    Ok(packets)
}
