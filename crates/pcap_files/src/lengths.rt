/// The bytes of a capture's header.
pub const HEADER_BYTES: usize = 24;

/// The bytes before the packet of a record: two stamps and two lengths.
pub const HEAD_BYTES: usize = 16;
