/// The state of a lane of a transmitter, and what is left to send.
#[derive(Clone, Copy, Debug, PartialEq, Eq)]
pub struct Status {
    /// The bytes of the lane that were made and not taken: 4,096 at most.
    pub waiting: u64,
    /// The packets that were given, to all channels, whose last burst was not sent. If these are more than 64 bits can say, it is the
    /// most that they can.
    pub left: u64,
    /// The lanes have ended: no byte more is made. All bytes of this lane were taken if none waits.
    pub ended: bool,
    /// Some lane has so many bytes that wait, 4,088 or more, that no word is made before some of them are taken.
    pub held: bool,
}
