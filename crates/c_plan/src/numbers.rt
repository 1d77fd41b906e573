//! The numbers of a plan.
ghost use Rattle.std.specs.Prelude.{◌≡◌, ◌↔◌, true, IfSome, IsSome};
ghost use Rattle.c_plan.specs.Numbers.{ArePlanNumbers, AreWithin, no_numbers, numbers_of, settings_in};

use link_plan::Plan;
use lk_base::{Link, LinkSettings};

/// The numbers of a plan. The ranges are those of a plan file.
#[repr(C)]
#[derive(Clone, Copy)]
pub struct PlanNumbers {
    /// The lanes.
    pub lanes: u32,
    /// The words of a metaframe on each lane.
    pub metaframe: u32,
    /// The Skip words of a metaframe.
    pub skips: u32,
    /// 1 if channel numbers have 16 bits, 0 if they have 8.
    pub wide: u32,
    /// The words by which lanes may be apart.
    pub deskew: u32,
    /// The most bytes of a packet.
    pub max_packet: u32,
    /// The link type of the captures that are written.
    pub link_type: u32,
    /// The entries of the calendar.
    pub entries: u32,
    /// The groups of idle words before the first burst.
    pub warmup: u32,
    /// The listed channels.
    pub channels: u32,
    /// The most bytes of a burst.
    pub burst_max: u32,
    /// The least bytes from one burst word to the next.
    pub burst_short: u32,
    /// The least bytes of a burst whose packet has as many.
    pub burst_min: u32,
    /// The most pieces of the stream that are sent ahead of the acknowledged ones.
    pub window: u32,
}

/// No numbers: all are 0.
pub fn no_numbers() -> PlanNumbers
    ensures { result ≡ no_numbers }
{
    PlanNumbers {
        lanes: 0,
        metaframe: 0,
        skips: 0,
        wide: 0,
        deskew: 0,
        max_packet: 0,
        link_type: 0,
        entries: 0,
        warmup: 0,
        channels: 0,
        burst_max: 0,
        burst_short: 0,
        burst_min: 0,
        window: 0,
    }
}

/// The numbers of a plan.
pub fn numbers_of(plan: &Plan) -> PlanNumbers
    ensures { result ≡ numbers_of plan.now }
{
    let link = &plan.link;
    PlanNumbers {
        lanes: link.lanes(),
        metaframe: link.metaframe(),
        skips: link.skips(),
        wide: plan.wide as u32,
        deskew: link.deskew(),
        max_packet: link.max_packet(),
        link_type: plan.link_type,
        entries: plan.entries.len() as u32,
        warmup: link.warmup(),
        channels: plan.channels.len() as u32,
        burst_max: link.burst_max(),
        burst_short: link.burst_short(),
        burst_min: plan.burst_min,
        window: plan.window,
    }
}

// Whether the numbers beside those of the link are within their limits.
fn are_within(numbers: &PlanNumbers) -> bool
    ensures { (result ≡ true) ↔ AreWithin numbers.now }
{
    let n = numbers;
    let most = if n.wide == 1 { 1024 } else { 256 };
    n.wide <= 1
        && n.link_type <= 65535
        && matches!(n.entries, 1..=1024)
        && n.channels >= 1
        && n.channels <= most
        && n.burst_min % 32 == 0
        && n.burst_min <= n.burst_max / 2
        && matches!(n.window, 1..=255)
}

/// The link of numbers, if they are within the limits of a plan's numbers.
pub fn link_of(numbers: &PlanNumbers) -> Option<Link>
    ensures limits { IsSome result ↔ ArePlanNumbers numbers.now }
    ensures value { IfSome result (λ link. link ≡ settings_in numbers.now) }
{
    if !are_within(numbers) {
        return None;
    }
    Link::new(LinkSettings {
        lanes: numbers.lanes,
        metaframe: numbers.metaframe,
        skips: numbers.skips,
        burst_max: numbers.burst_max,
        burst_short: numbers.burst_short,
        deskew: numbers.deskew,
        warmup: numbers.warmup,
        max_packet: numbers.max_packet,
    })
}
