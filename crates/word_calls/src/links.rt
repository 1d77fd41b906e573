//! The links of these calls.
ghost use Rattle.std.specs.Prelude.{◌≡◌, IfSome};

use lk_base::{Link, LinkSettings};

/// A link with one Skip word, and with bursts of 64 to 256 bytes; none if the numbers are out of range.
pub fn link_of(lanes: u32, metaframe: u32) -> Option<Link>
    ensures lanes { IfSome result (λ link. link.lanes ≡ lanes) }
    ensures metaframe { IfSome result (λ link. link.metaframe ≡ metaframe) }
{
    Link::new(LinkSettings {
        lanes,
        metaframe,
        skips: 1,
        burst_max: 256,
        burst_short: 64,
        deskew: 7,
        warmup: 4,
        max_packet: 262_144,
    })
}
