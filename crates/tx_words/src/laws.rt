ghost use Rattle.tx_words.specs.SentExamples.{CountExamples, SentExamples};
ghost use Rattle.tx_words.specs.SentLaw.{ListsTheSent, NumbersArePackets, OneList, SomeList, StartsAreFew, StartsItsPackets};
ghost use Rattle.tx_words.specs.Sources.{ArgumentsAreSource};
ghost use Rattle.tx_words.specs.Streaming.{GivesFirstWords};

/// Different listed channels, entries among them, packets of listed channels and rows in order are a source that keeps all
/// that a source keeps.
pub fn arguments_are_source()
    ensures { ArgumentsAreSource }
{}

/// A packet is listed with its end word exactly where it is sent, and a stream starts no packet but those of its source.
/// In any first words of a stream each listed packet is the one of its channel with its number, whether its end word is there
/// or not, and there are no more than the source has. Any words have one list.
pub fn listed_packets_are_sent()
    ensures sent { ListsTheSent }
    ensures few { StartsItsPackets }
    ensures one { OneList }
    ensures some { SomeList }
    ensures numbers { NumbersArePackets }
    ensures starts { StartsAreFew }
{}

/// The words that were made so far are the first of the whole stream.
pub fn made_words_are_first()
    ensures { GivesFirstWords }
{}

/// What is counted and listed of a few small streams.
pub fn small_streams()
    ensures counts { CountExamples }
    ensures sent { SentExamples }
{}
