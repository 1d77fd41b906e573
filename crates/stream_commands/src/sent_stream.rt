//! The stream of a source with the packets that it sends, which are listed while its words are made.
ghost use Rattle.std.specs.Prelude.{◌≡◌, ◌<◌, ◌^◌, List, [], length, IfOk, OnOk};
ghost use Rattle.lk_base.specs.declared.word.Word.{Word as SentWord};
ghost use Rattle.stream_model.specs.BurstStream.{Source, IsBurstStream};
ghost use Rattle.tx_words.specs.Making.{GaveWords};
ghost use Rattle.tx_words.specs.Sent.{AreSent};
ghost use Rattle.tx_end.specs.SentLanes.{IsListed};
ghost use Rattle.stream_commands.specs.Payload.{IsSentStreamOf};
ghost use Rattle.stream_commands.specs.Stream.{stream_text};

use crate::stream::PayloadStream;
use crate::text::stream_lines;
use lk_base::OutOfMemory;
use std::alloc::Global;
use tx_words::{Sent, SentList, StreamSource, WordMaker, count_listed};
use word_list::WordList;

/// A stream with the packets that it sends.
#[derive(Drop)]
pub struct SentStream {
    /// The stream, and what is reported of it.
    pub stream: PayloadStream,
    /// The packets whose SOP word is in the stream, in the order of these words.
    pub sent: Vec<Sent>,
}

// Makes the data words of the burst under way, or the one next word, puts them after the others, and lists the packet that starts in
// them.
fn make_few(
    maker: &mut WordMaker,
    list: &mut SentList,
    words: &mut WordList,
) -> Result<(), OutOfMemory>
    requires { (source : Source) × IsListed maker.old list.old source words.old }
    ensures lists { OnOk result ((source : Source) → IsListed maker.old list.old source words.old → IsListed maker.new list.new source words.new) }
    ensures more { OnOk result ((source : Source) → IsListed maker.old list.old source words.old → (IsBurstStream source words.old → ⊥) → length words.old < length words.new) }
{
    let count = maker.next_data(usize::MAX);
    if count > 0 {
        words.extend_data(maker.last_data(count))?;
        list.pass_data(count);
        return Ok(());
    }
    match maker.next() {
        Some(word) => {
            words.push(word)?;
            list.pass(word);
            Ok(())
        }
        None => Ok(()),
    }
}

// Makes the words of a stream that are still to be made, and lists the packets that start in them.
fn make_all(
    maker: &mut WordMaker,
    list: &mut SentList,
    words: &mut WordList,
) -> Result<(), OutOfMemory>
    requires { (source : Source) × IsListed maker.old list.old source words.old }
    ensures { OnOk result ((source : Source) → IsListed maker.old list.old source words.old → IsListed maker.new list.new source words.new × IsBurstStream source words.new) }
{
    while !maker.is_over() {
        make_few(maker, list, words)?;
    }
    Ok(())
}

/// The lines of the source's stream of this many words, which sends these packets.
pub fn listed_lines(
    alloc: Global,
    source: &StreamSource,
    sent: &[Sent],
    slots: u64,
) -> Result<Vec<u8>, OutOfMemory>
    requires { (words : List SentWord) × AreSent words sent.now }
    ensures { IfOk result (λ lines. (words : List SentWord) → IsBurstStream source.now words → AreSent words sent.now → slots ≡ length words → lines.items ≡ stream_text source.now words) }
{
    let counts = count_listed(alloc, source, sent)?;
    stream_lines(alloc, &counts, slots)
}

// The stream of a source by a maker of its words, which made none yet.
fn sent_stream_by(
    alloc: Global,
    source: &StreamSource,
    maker: &mut WordMaker,
) -> Result<SentStream, OutOfMemory>
    requires few { length source.now.packets < 2 ^ 32 }
    requires maker { GaveWords maker.old source.now [] }
    ensures { IfOk result (IsSentStreamOf source.now) }
{
    let mut list = SentList::new(alloc, source.packet_count())?;
    let mut words = WordList::new(alloc);
    make_all(maker, &mut list, &mut words)?;
    let lines = listed_lines(alloc, source, list.sent(), words.len() as u64)?;
    let held = maker.held();
    let sent = list.into_sent();
    let stream = PayloadStream { words, held, lines };
    Ok(SentStream { stream, sent })
}

/// The stream of a source, as `stream_of` gives it, with the packets whose SOP word is in it. Its channels are counted by these
/// packets, so that its words are not gone over again.
pub fn sent_stream_of(alloc: Global, source: &StreamSource) -> Result<SentStream, OutOfMemory>
    requires few { length source.now.packets < 2 ^ 32 }
    ensures { IfOk result (IsSentStreamOf source.now) }
{
    let mut maker = WordMaker::new(alloc, source)?;
    sent_stream_by(alloc, source, &mut maker)
}
