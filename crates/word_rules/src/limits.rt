ghost use Rattle.std.specs.Prelude.{◌≡◌};
ghost use Rattle.link_plan.specs.Views.{plan_value};
ghost use Rattle.word_rules.specs.Limits.{limits_of};

use link_plan::Plan;

/// The numbers of a plan that the rules of words read.
#[derive(Clone, Copy, Debug, PartialEq, Eq)]
pub struct WordLimits {
    /// The most bytes of a burst, a multiple of 8.
    pub burst_max: u32,
    /// The least bytes from one burst word to the next, a multiple of 8.
    pub burst_short: u32,
    /// The least bytes of a burst that is not the whole of a packet.
    pub burst_min: u32,
    /// The most bytes of a packet.
    pub max_packet: u32,
    /// Whether channel numbers are wide: 16 bits in place of 8.
    pub wide: bool,
}

impl WordLimits {
    /// Returns the numbers of this plan that the rules read.
    pub fn of(plan: &Plan) -> WordLimits
        ensures { result ≡ limits_of (plan_value plan.now) }
    {
        WordLimits {
            burst_max: plan.link.burst_max(),
            burst_short: plan.link.burst_short(),
            burst_min: plan.burst_min,
            max_packet: plan.link.max_packet(),
            wide: plan.wide,
        }
    }
}
