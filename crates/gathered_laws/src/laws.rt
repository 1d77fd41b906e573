ghost use Rattle.gathered_laws.specs.LaterWords.{LawOnLaterWords, LawOnFourthGroup, LawOnWarmup};
ghost use Rattle.gathered_laws.specs.PremisesMet.{LaterPremisesMet};

/// Words without a fault, of which the first are idles, have no fault without these, where no rows of flow control are given: no rule
/// finds a word before a place that it would miss.
pub fn later_words_law()
    ensures { LawOnLaterWords }
{}

/// The payload stream of a source without flow rows has no fault from any place of its warm-up on, so from the fourth group on, where
/// the warm-up has three groups or more, as that of every plan has.
pub fn warmup_law()
    ensures places { LawOnWarmup }
    ensures groups { LawOnFourthGroup }
{}

/// The premises of the laws are met by a stream whose warm-up has four groups.
pub fn later_premises_are_met()
    ensures { LaterPremisesMet }
{}
