ghost use Rattle.std.specs.Prelude.{◌≡◌, ◌≤◌, ◌+◌, length, drop};
ghost use Rattle.pcap_files.specs.Numbers.{number, order_of};

use byteorder::{BigEndian, ByteOrder, LittleEndian};

/// The order of the bytes in number fields.
#[derive(Clone, Copy)]
pub enum Order {
    /// High byte first.
    Big,
    /// Low byte first.
    Little,
}

/// Returns the order that the first four bytes give, read high byte first.
pub fn order_by_magic(magic: u32) -> Option<Order>
    ensures { result ≡ order_of magic }
{
    match magic {
        0xA1B2C3D4 | 0xA1B23C4D => Some(Order::Big),
        0xD4C3B2A1 | 0x4D3CB2A1 => Some(Order::Little),
        _ => None,
    }
}

/// Reads the number in the two bytes from offset `at`.
#[tactic(auto, unfolding(crate::specs::Numbers::number))]
pub fn u16_at(order: Order, at: usize, bytes: &[u8]) -> u16
    requires { at + 2 ≤ length bytes.now }
    ensures { result ≡ number order 2 at bytes.now }
{
    match order {
        Order::Big => BigEndian::read_u16(&bytes[at..]),
        Order::Little => LittleEndian::read_u16(&bytes[at..]),
    }
}

/// Reads the number in the four bytes from offset `at`.
#[tactic(auto, unfolding(crate::specs::Numbers::number))]
pub fn u32_at(order: Order, at: usize, bytes: &[u8]) -> u32
    requires { at + 4 ≤ length bytes.now }
    ensures { result ≡ number order 4 at bytes.now }
{
    match order {
        Order::Big => BigEndian::read_u32(&bytes[at..]),
        Order::Little => LittleEndian::read_u32(&bytes[at..]),
    }
}
