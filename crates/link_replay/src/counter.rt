ghost use Rattle.std.specs.Prelude.{◌≡◌, ◌%◌, [], ℕ, List, IfOk, length, map};
ghost use Rattle.lk_base.specs.Checksum.{bits_of_bytes};
ghost use Rattle.lk_base.specs.Link.{Settings, group_of};
ghost use Rattle.link_laws.specs.Accidents.{AreAccidents};
ghost use Rattle.rx_front.specs.States.{State as FrontState};
ghost use Rattle.link_replay.specs.Counting.{Counts, HasCounted, HasCountedAll, HasCountedSome, given_to};

use crate::accident_watch::AccidentWatch;
use lk_base::{Aligned, Link, OutOfMemory};
use report_model::Accidents;
use rx_end::Observer;
use rx_front::Front;
use std::alloc::Global;
use std::marker::Model;
use word_list::WordList;

/// Counts the accidents on the lanes of a link that sent these words, while the lanes are received. It observes the receiver.
#[derive(Drop)]
pub struct Counter<'w> {
    watch: AccidentWatch,
    sent: &'w WordList,
}

impl<'w> Model for Counter<'w> {
    ghost use Rattle.link_replay.specs.Counting.{Counter as CounterModel};

    ghost Value = { CounterModel };

    ghost view = { λ c. record { watch = c.watch; words = c.sent.now } };
}

impl<'w> Counter<'w> {
    /// Creates a counter that has seen nothing. There is one skew for each lane of the link, and the words are a whole number of
    /// groups. No later call takes memory.
    ///
    /// # Errors
    ///
    /// `OutOfMemory` if memory ran out, and only then.
    pub fn new(
        alloc: Global,
        link: &Link,
        skews: &[u32],
        sent: &'w WordList,
    ) -> Result<Counter<'w>, OutOfMemory>
        requires skews { length skews.now ≡ link.now.lanes }
        requires whole { length sent.now % group_of link.now ≡ 0 }
        ensures given { IfOk result (λ c. given_to c ≡ record { settings = link.now; words = sent.now; skews = skews.now }) }
        ensures counts { IfOk result (λ c. Counts c link.now (λ i. []) []) }
        ensures counted { IfOk result (λ c. (lanes : List (List ℕ)) → HasCounted c link.now lanes (λ i. []) []) }
    {
        let watch = AccidentWatch::new(alloc, link, skews)?;
        Ok(Counter { watch, sent })
    }

    /// Returns the accidents on the lanes, all of which were received.
    pub fn counts(&self) -> Accidents
        requires { HasCountedSome self.now }
        ensures { (f : FrontState) (s : Settings) (lanes : List (List ℕ)) → HasCountedAll self.now f s lanes →
            AreAccidents (given_to self.now) (map bits_of_bytes lanes) result }
    {
        self.watch.counts()
    }
}

impl Observer for Counter<'_> {
    ghost use Rattle.std.specs.Prelude.{true};
    ghost use Rattle.link_laws.specs.Accidents.{Sent};
    ghost use Rattle.link_replay.specs.Counting.{Counts, HasCounted, given_to};

    ghost Fixed = { Sent };

    ghost fixed = { given_to };

    ghost asks = { true };

    ghost keeps = { Counts };

    ghost saw = { HasCounted };

    // why: Accidents are counted in runs: while the words of a block are the sent ones they are only compared. The checksum is
    // computed from the first word that is not as sent, with the sent words before it taken first. The view of Stretch
    // lags by these words (caught_up), and a run is a fold of word.
    fn words(&mut self, front: &Front, count: usize) {
        self.watch.words(self.sent, front, count);
    }

    fn item(&mut self, front: &Front, item: Aligned) {
        self.watch.item(front, self.sent, item);
    }

    fn moved(&mut self, front: &Front) {
        self.watch.locks(front, self.sent);
    }
}
