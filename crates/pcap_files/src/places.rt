ghost use Rattle.std.specs.Prelude.{◌≡◌, ℕ, ◌+◌, ◌<◌, ◌^◌, All, IfOk, MatchResult, Ok, Err, map, length};
ghost use Rattle.pcap_files.specs.Capture.{capture_of};
ghost use Rattle.pcap_files.specs.Places.{bytes_at, IsPlace};
ghost use Rattle.pcap_files.specs.Records.{space_of};
ghost use Rattle.pcap_files.specs.declared.error.PcapError.{PcapError};

use crate::capture::CaptureError;
use crate::lengths::{HEAD_BYTES, HEADER_BYTES};
use crate::place::PacketPlace;
use crate::reader::PcapReader;
use std::alloc::Global;

// Returns the place of the packet of a record that begins at this offset.
fn place_at(offset: u32, packet: &[u8]) -> PacketPlace
    requires { offset + (16 + length packet.now) < 2 ^ 32 }
    ensures start { result.start ≡ offset + 16 }
    ensures size { result.size ≡ length packet.now }
{
    PacketPlace {
        start: offset + HEAD_BYTES as u32,
        size: packet.len() as u32,
    }
}

// Returns the offset after a packet.
fn after(place: PacketPlace) -> u32
    requires { place.start + place.size < 2 ^ 32 }
    ensures { result ≡ place.start + place.size }
{
    place.start + place.size
}

/// Finds the places of all packets of a capture, in order. Packets may have up to `most` bytes.
///
/// # Errors
///
/// The first refusal of the capture, if there is one, or `OutOfMemory` if memory ran out.
pub fn places_of(alloc: Global, bytes: &[u8], most: u32) -> Result<Vec<PacketPlace>, CaptureError>
    requires { length bytes.now < 2 ^ 32 }
    ensures answer { MatchResult result
        (λ v. capture_of bytes.now most ≡ Ok (map (bytes_at bytes.now) v.items))
        (λ e. (why : PcapError) → e ≡ CaptureError.Refused why → capture_of bytes.now most ≡ Err why) }
    ensures placed { IfOk result (λ v. All (IsPlace most bytes.now) v.items) }
    ensures whole { IfOk result (λ v. 24 + space_of (map (bytes_at bytes.now) v.items) ≡ length bytes.now) }
{
    let mut reader = PcapReader::begin(bytes, most)?;
    let mut places = Vec::new(alloc);
    let mut offset = HEADER_BYTES as u32;
    while let Some(packet) = reader.next()? {
        let place = place_at(offset, packet);
        places.push(place)?;
        offset = after(place);
    }
    Ok(places)
}
