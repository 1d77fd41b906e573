ghost use Rattle.rule_laws.specs.Law.{LawOnRules};
ghost use Rattle.rule_laws.specs.WordsWithoutFault.{LawOnDelivered, LawOnDrops, LawOnPackets, LawOnSpans, LawOnStretches};
ghost use Rattle.rule_laws.specs.PremisesMet.{RulesPremisesMet, WholePremisesMet};

/// The law on rules: the payload stream of a source breaks none of the rules of a sender's words, where it is checked by a plan
/// that says the source's own numbers.
///
/// Its premises: the source keeps its rules and the words are its stream. The plan says the source's BurstMax, BurstShort and
/// BurstMin, its calendar and its flow rows; it lists each channel of the source; each packet has 1 to `max_packet` bytes; and
/// where channel numbers are narrow, each channel of the source is below 256.
pub fn rules_law()
    ensures { LawOnRules }
{}

/// The premises of the law are met: by a stream of two channels in turn, by one of two wide channels of one remainder by 256,
/// and by one whose first burst is shortened so that the second has BurstMin.
pub fn premises_are_met()
    ensures { RulesPremisesMet }
{}

/// Words without a fault are received whole: each stretch of the words passes, so each Control word but the first is verified,
/// and there are no fault spans but the one up to the first verified word and the one from the last on, or one over all where no
/// word is verified.
pub fn whole_law()
    ensures stretches { LawOnStretches }
    ensures spans { LawOnSpans }
{}

/// What a receiver gives of words without a fault, where their plan says its settings: on each channel exactly one output for each
/// packet that begins with SOP at a Control word after the first, in order. It is delivered where the sender ended it without an
/// error, dropped for that error, or dropped for the end of the words where it is open there. So no drop has another reason.
pub fn packets_law()
    ensures packets { LawOnPackets }
    ensures delivered { LawOnDelivered }
    ensures drops { LawOnDrops }
{
    // what becomes of the pieces of a channel is what the outputs show of it
    receive_model::laws::pieces_are_shown();
}

/// The premises of the laws on words without a fault are met: by a stream of two channels in turn, of which both packets of a channel
/// are delivered; and by words that begin a packet at the first Control word, then one that they end with an error, one that they
/// end rightly, and one that they leave open.
pub fn whole_premises_are_met()
    ensures { WholePremisesMet }
{
    receive_model::laws::pieces_are_shown();
}
