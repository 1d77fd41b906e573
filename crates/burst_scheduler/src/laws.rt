ghost use Rattle.burst_scheduler.specs.Asked.{Asked};
ghost use Rattle.burst_scheduler.specs.Gives.{HasWords};
ghost use Rattle.burst_scheduler.specs.Ring.{OneReadyList};
ghost use Rattle.burst_scheduler.specs.declared.scheduler.Scheduler.{Scheduler};
ghost use Rattle.duplex_model.specs.OpenStream.{IsOpenStream};

/// The channels that are ready at a slot, and the order of their turns, are determined: any two rings that hold them hold
/// one list.
pub fn one_ready_list()
    ensures { OneReadyList }
{}

/// The words that a scheduler gave are an open stream of its packets and the rows so far: all that the whole stream asks of its
/// words, without a finish. So are they after `step_open`, which keeps `HasWords`.
pub fn words_are_open()
    ensures { (s : Scheduler) (a : Asked) → HasWords s a → IsOpenStream a.source a.words }
{}
