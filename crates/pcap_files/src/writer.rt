ghost use Rattle.std.specs.Prelude.{◌≡◌, ◌≤◌, ◌+◌, ◌++◌, length, take, OnOk, OnErr};
ghost use Rattle.byteorder.specs.Endian.{little_bytes};
ghost use Rattle.pcap_files.specs.Written.{header_bytes, record_head, record_bytes};

use crate::lengths::{HEAD_BYTES, HEADER_BYTES};
use byteorder::{ByteOrder, LittleEndian};
use lk_base::{LONGEST_PACKET, OutOfMemory};

// Writes a number of two bytes after what was written.
fn put_u16(bytes: &mut [u8], at: usize, number: u16)
    requires { at + 2 ≤ length bytes.old }
    ensures { take (at + 2) bytes.new ≡ take at bytes.old ++ little_bytes 2 number }
{
    LittleEndian::write_u16(&mut bytes[at..], number);
}

// Writes a number of four bytes after what was written.
fn put_u32(bytes: &mut [u8], at: usize, number: u32)
    requires { at + 4 ≤ length bytes.old }
    ensures { take (at + 4) bytes.new ≡ take at bytes.old ++ little_bytes 4 number }
{
    LittleEndian::write_u32(&mut bytes[at..], number);
}

#[tactic(auto, unfolding(crate::specs::Written::header_bytes))]
fn put_header(bytes: &mut [u8], link_type: u32)
    requires { length bytes.old ≡ 24 }
    ensures { bytes.new ≡ header_bytes link_type }
{
    put_u32(bytes, 0, 0xA1B2C3D4);
    put_u16(bytes, 4, 2);
    put_u16(bytes, 6, 4);
    put_u32(bytes, 8, 0);
    put_u32(bytes, 12, 0);
    put_u32(bytes, 16, LONGEST_PACKET);
    put_u32(bytes, 20, link_type);
}

/// Writes what is before a packet of this size in its record: two stamps of 0 and both lengths.
#[tactic(auto, unfolding(crate::specs::Written::record_head))]
pub fn put_record_head(bytes: &mut [u8], size: u32)
    requires { length bytes.old ≡ 16 }
    ensures { bytes.new ≡ record_head size }
{
    put_u32(bytes, 0, 0);
    put_u32(bytes, 4, 0);
    put_u32(bytes, 8, size);
    put_u32(bytes, 12, size);
}

/// Appends the header of a capture, 24 bytes: little-endian, version 2.4, packets up to 262,144 bytes, and the link
/// type given. If memory runs out, `out` stays as it was.
pub fn write_header(out: &mut Vec<u8>, link_type: u32) -> Result<(), OutOfMemory>
    ensures ok { OnOk result (out.new.items ≡ out.old.items ++ header_bytes link_type) }
    ensures err { OnErr result (out.new.items ≡ out.old.items) }
{
    let mut header = [0u8; HEADER_BYTES];
    put_header(&mut header, link_type);
    out.extend_from_slice(&header)?;
    Ok(())
}

/// Appends the record of one packet of 1 to 262,144 bytes: both stamps are 0, and both lengths the packet's. If
/// memory runs out, `out` stays as it was.
pub fn write_packet(out: &mut Vec<u8>, bytes: &[u8]) -> Result<(), OutOfMemory>
    requires least { 1 ≤ length bytes.now }
    requires most { length bytes.now ≤ 262144 }
    ensures ok { OnOk result (out.new.items ≡ out.old.items ++ record_bytes bytes.now) }
    ensures err { OnErr result (out.new.items ≡ out.old.items) }
{
    let before = out.len();
    let mut head = [0u8; HEAD_BYTES];
    put_record_head(&mut head, bytes.len() as u32);
    out.extend_from_slice(&head)?;
    if out.extend_from_slice(bytes).is_err() {
        out.truncate(before);
        return Err(OutOfMemory);
    }
    Ok(())
}
