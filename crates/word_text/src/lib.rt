//! Listings: the text of a words file or of a lane file, one line for each word, and its bytes again.
// why: The contract on a text that lists no file says: no text lists none and is refused for none. The definitions decide no
// line; the code does.
// why: Listings are appended to the caller's list line by line. After a refusal, and if memory runs out, the list is cut to
// what it was.
// why: A line is read as the only line that it can be. That one is spelled again and compared, so each other spelling is
// refused without a rule of its own.
// why: Line ends and equals signs are found by memchr, and decimals are written by itoa: fewer proofs than a loop. Hexadecimal
// digits are not read and written by hex. Its encode_upper makes a String of whole bytes, and listings append 16, 15, 6 or
// 4 digits to a line. Its decode takes whole texts of even length, and a listing's number ends at the first other byte.
// The programs of calls use hex.
#![tactic(auto)]

mod bytes_of_text;
mod code_of_line;
mod cut;
mod digits;
mod lane_of_text;
pub mod laws;
mod line_of_code;
mod line_of_word;
mod piece;
mod rest;
mod text_of_lane;
mod text_of_words;
mod word_of_line;
mod words_of_text;

pub use bytes_of_text::assemble;
pub use text_of_lane::list_lane;
pub use text_of_words::list_words;
pub use words_files::{TextError, WordsError};
