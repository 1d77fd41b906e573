ghost use Rattle.std.specs.Prelude.{◌≡◌, IfOk, string_bytes};
ghost use Rattle.pcap_files.specs.Names.{capture_name};

use std::alloc::{AllocError, Global};

/// Makes the name of the capture of a channel: `prefix`, the number of the channel, and `.pcap`.
pub fn capture_name(alloc: Global, prefix: &str, channel: u32) -> Result<String, AllocError>
    ensures { IfOk result (λ name. string_bytes name ≡ capture_name prefix.now channel) }
{
    format!(in alloc; "{prefix}.{channel}.pcap")
}
