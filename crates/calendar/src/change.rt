/// A channel that is turned on or off.
#[derive(Clone, Copy, Debug, Default, PartialEq, Eq)]
pub struct Change {
    /// The number of the channel.
    pub channel: u16,
    /// True if the channel is turned on.
    pub on: bool,
}
