//! Out-of-band status: the states of a calendar's entries as samples of three lines, and the flow words that samples give.
// why: "After the rows of a frame" begins at the frame's last sample (IsAfterFrame). It ends before the first row of the next
// frame, which comes with the last checksum bit of that frame's first block. Between the first and the last row of a frame
// of several blocks, some channels show this frame and some the one before. After the last frame it never ends.
// why: A wrong block gives the word 0. It is not a control word, so no word after it counts before one with the reset bit. A
// channel then stays as it was until the next frame.
#![tactic(auto)]

mod block;
mod checking;
pub mod examples;
mod frame_writer;
mod incoming;
pub mod laws;
mod outgoing;

pub use checking::bad_sample;
pub use frame_writer::FrameWriter;
pub use incoming::OobIn;
pub use outgoing::OobOut;
