//! The record of a packet whose bytes are lent, made in one piece.
ghost use Rattle.std.specs.Prelude.{◌≡◌, ◌≤◌, ◌+◌, ◌++◌, true, length, take, OnOk};
ghost use Rattle.lk_base.specs.Limits.{longest_packet};
ghost use Rattle.pcap_files.specs.Written.{record_bytes, record_head};

use crate::lender::Lender;
use lk_base::OutOfMemory;
use pcap_files::put_record_head;

// How many bytes of a record are before those of its packet.
const HEAD: usize = 16;

// Writes what is before a packet of this size in its record.
fn put_head(bytes: &mut [u8], size: u32)
    requires { HEAD ≤ length bytes.old }
    ensures { take HEAD bytes.new ≡ record_head size }
{
    put_record_head(&mut bytes[..HEAD], size);
}

// Copies the packet that is lent after what was written.
fn copy_packet<L: Lender>(bytes: &mut [u8], at: usize, lender: &L)
    requires lends { L.lends lender.now ≡ true }
    requires room { length bytes.old ≡ at + length (L.packet lender.now) }
    ensures { bytes.new ≡ take at bytes.old ++ L.packet lender.now }
{
    lender.copy_packet(&mut bytes[at..]);
}

// Writes the record of the packet that is lent over these bytes.
fn write_record<L: Lender>(bytes: &mut [u8], lender: &L, size: u32)
    requires lends { L.lends lender.now ≡ true }
    requires tells { size ≡ length (L.packet lender.now) }
    requires room { length bytes.old ≡ HEAD + size }
    ensures { bytes.new ≡ record_bytes (L.packet lender.now) }
{
    put_head(bytes, size);
    copy_packet(bytes, HEAD, lender);
}

/// Makes the record of the packet that is lent, of this size, in place of what `made` holds. It takes memory only if `made`
/// never held as many bytes.
pub fn make_record<L: Lender>(made: &mut Vec<u8>, lender: &L, size: u32) -> Result<(), OutOfMemory>
    requires lends { L.lends lender.now ≡ true }
    requires tells { size ≡ length (L.packet lender.now) }
    requires fits { size ≤ longest_packet }
    ensures { OnOk result (made.new.items ≡ record_bytes (L.packet lender.now)) }
{
    made.resize(HEAD + size as usize, 0)?;
    write_record(made, lender, size);
    Ok(())
}
