/// The place of a packet in a capture.
#[derive(Clone, Copy, Debug, PartialEq, Eq)]
pub struct PacketPlace {
    /// The offset of its first byte.
    pub start: u32,
    /// How many bytes it has.
    pub size: u32,
}
