ghost use Rattle.std.specs.Prelude.{◌≡◌, ◌+◌, ◌^◌, ◌<◌, ◌≤◌, MatchResult, IfOk, IfSome, IfErr, IsOk, OnOk, None, Ok, Err, length, option_map};
ghost use Rattle.pcap_files.specs.Capture.{Packets, answer_of, header_of, packet_at, reading_of, nothing, refused, with_packet};

use crate::error::PcapError;
use crate::lengths::{HEAD_BYTES, HEADER_BYTES};
use crate::order::{Order, order_by_magic, u16_at, u32_at};
use lk_base::tail;
use std::marker::Model;

// Checks the header of a capture, and returns the order of its fields.
#[tactic(auto, unfolding(crate::specs::Capture::header_of))]
fn read_header(bytes: &[u8]) -> Result<Order, PcapError>
    ensures value { result ≡ header_of bytes.now }
    ensures long { OnOk result (24 ≤ length bytes.now) }
{
    if bytes.len() < 4 {
        return Err(PcapError::Short(0));
    }
    let magic = u32_at(Order::Big, 0, bytes);
    if magic == 0x0A0D0D0A {
        return Err(PcapError::NgFile);
    }
    let Some(order) = order_by_magic(magic) else {
        return Err(PcapError::Magic(magic));
    };
    if bytes.len() < HEADER_BYTES {
        return Err(PcapError::Short(0));
    }
    let major = u16_at(order, 4, bytes);
    let minor = u16_at(order, 6, bytes);
    if major == 2 && minor == 4 {
        Ok(order)
    } else {
        Err(PcapError::Version(major, minor))
    }
}

// Lends the packet of the record at the front of the bytes that are left, or returns `None` if none are left.
#[tactic(auto, unfolding(crate::specs::Capture::packet_at))]
fn packet_of(
    order: Order,
    most: u32,
    number: u64,
    offset: u64,
    rest: &[u8],
) -> Result<Option<&[u8]>, PcapError>
    ensures given { MatchResult result
        (λ o. packet_at (record { order = order; most = most; number = number; offset = offset; rest = rest.now }) ≡ Ok (option_map (λ s. s.now) o))
        (λ e. packet_at (record { order = order; most = most; number = number; offset = offset; rest = rest.now }) ≡ Err e) }
    ensures within { IfOk result (λ o. IfSome o (λ s. 16 + length s.now ≤ length rest.now)) }
{
    if rest.is_empty() {
        return Ok(None);
    }
    if rest.len() < HEAD_BYTES {
        return Err(PcapError::Short(offset));
    }
    let size = u32_at(order, 8, rest);
    if size == 0 {
        return Err(PcapError::Empty(number));
    }
    if size > most {
        return Err(PcapError::Long(number, size));
    }
    let captured = &rest[HEAD_BYTES..];
    if captured.len() < size as usize {
        return Err(PcapError::Short(offset));
    }
    Ok(Some(&captured[..size as usize]))
}

/// Lends the packets of a capture in order. A contract sees it as the packets that are left, and the refusal after
/// them, if there is one.
#[derive(Drop)]
pub struct PcapReader<'a> {
    order: Order,
    most: u32,
    number: u64,
    offset: u64,
    rest: &'a [u8],
}

impl<'a> Model for PcapReader<'a> {
    ghost use Rattle.std.specs.Prelude.{◌+◌, ◌^◌, ◌<◌, ◌≤◌, length};
    ghost use Rattle.pcap_files.specs.Capture.{Packets, packets_from};

    ghost Value = { Packets };

    ghost view = { λ a. packets_from (record { order = a.order; most = a.most; number = a.number; offset = a.offset; rest = a.rest.now }) };

    ghost invariant = { λ a. (a.offset + length a.rest.now < 2 ^ 64) × (a.number ≤ a.offset) };
}

impl<'a> PcapReader<'a> {
    /// Checks the header of a capture, and creates a reader of its records. It refuses packets longer than `max_packet` bytes.
    ///
    /// # Errors
    ///
    /// The first refusal of the header.
    pub fn begin(bytes: &'a [u8], max_packet: u32) -> Result<PcapReader<'a>, PcapError>
        ensures header { MatchResult result (λ _. IsOk (header_of bytes.now)) (λ e. header_of bytes.now ≡ Err e) }
        ensures reads { IfOk result (λ r. r ≡ reading_of bytes.now max_packet) }
    {
        let order = read_header(bytes)?;
        Ok(PcapReader {
            order,
            most: max_packet,
            number: 0,
            offset: HEADER_BYTES as u64,
            rest: tail(bytes, HEADER_BYTES),
        })
    }

    /// Lends the captured bytes of the next record, or returns `None` at the end of the bytes and only then. After `None` or a
    /// refusal the reader is unchanged, so the next call has that result too.
    pub fn next(&mut self) -> Result<Option<&'a [u8]>, PcapError>
        ensures answer { MatchResult result
            (λ o. answer_of self.old ≡ Ok (option_map (λ s. s.now) o))
            (λ e. answer_of self.old ≡ Err e) }
        ensures some { IfOk result (λ o. IfSome o (λ packet. self.old ≡ with_packet packet.now self.new)) }
        ensures end { result ≡ Ok None → (self.old ≡ nothing) × (self.new ≡ self.old) }
        ensures err { IfErr result (λ e. (self.old ≡ refused e) × (self.new ≡ self.old)) }
    {
        match packet_of(self.order, self.most, self.number, self.offset, self.rest) {
            Ok(Some(packet)) => {
                let size = HEAD_BYTES + packet.len();
                self.rest = tail(self.rest, size);
                self.number += 1;
                self.offset += size as u64;
                Ok(Some(packet))
            }
            Ok(None) => Ok(None),
            Err(e) => Err(e),
        }
    }
}
