//! The words that a link sends: what a payload stream is made of, its words one after another, and what they send of its packets.
// why: link and the transmitter list sent packets as the words are made (SentList::pass, pass_data, pass_block), and count by
// that list, so that no word is scanned again. burst needs only the counts, so its maker of words counts bursts and keeps
// no list.
// why: Counts and lists of sent packets are kept by channel number, 65,536 of them, so that a word finds its channel at once.
#![tactic(auto)]

mod bursts;
mod counts;
pub mod laws;
mod packet;
mod rows;
mod sent;
mod sent_list;
mod source;
mod stream;
mod stream_packets;
mod stream_words;
mod word_maker;

pub use counts::{count_listed, count_sent};
pub use packet::{MadeStream, Packet};
pub use sent::Sent;
pub use sent_list::SentList;
pub use source::StreamSource;
pub use stream::words_of;
pub use stream_packets::sent_in;
pub use stream_words::StreamWords;
pub use word_maker::WordMaker;
