/// A key of a plan file. The table of keys is in the same order, which `PlanKey::rules` proves.
#[derive(Clone, Copy, Debug, PartialEq, Eq)]
pub enum PlanKey {
    /// `lanes`
    Lanes,
    /// `metaframe`
    Metaframe,
    /// `skips`
    Skips,
    /// `burst_max`
    BurstMax,
    /// `burst_short`
    BurstShort,
    /// `deskew`
    Deskew,
    /// `warmup`
    Warmup,
    /// `max_packet`
    MaxPacket,
    /// `link_type`
    LinkType,
    /// `channel`
    Channel,
    /// `entry`
    Entry,
    /// `flow`
    Flow,
    /// `local`
    Local,
    /// `schedule`
    Schedule,
    /// `out`
    Out,
    /// `wide`
    Wide,
    /// `burst_min`
    BurstMin,
    /// `oob`
    Oob,
    /// `window`
    Window,
    /// `events`
    Events,
}
