ghost use Rattle.std.specs.Prelude.{◌≡◌, ◌≤◌, ℕ, Bool, List, true, false, length};
ghost use Rattle.lk_base.specs.Link.{Settings};
ghost use Rattle.lk_base.specs.declared.word.Aligned.{Aligned as Item};
ghost use Rattle.rx_end.specs.Observing.{AsksItem, AsksLocks, AsksWords, TakesItem, TakesLocks, TakesWords};

use lk_base::Aligned;
use rx_front::Front;

/// Observes the front of a receiver: it is told each item that is taken of the front, and each lock that a lane declares, at once,
/// once each, and in order.
pub trait Observer {
    /// What is fixed of an observer: no call changes it.
    ghost Fixed: { Type 0 };

    /// What is fixed of this observer.
    ghost fixed: { Self → Fixed };

    /// True if each call asks that `keeps` held before it, as those of a counter do. An observer that does not ask may be told
    /// anything.
    ghost asks: { Bool };

    /// What holds of it once the lanes of a link declared these locks (lane number `i` those of `i`, each by its bit position), and
    /// these items were taken: its own bounds.
    ghost keeps: { Self → Settings → (ℕ → List ℕ) → List Item → Type 0 };

    /// What holds of it once it has seen these locks and items, of lanes that have these bytes in the end.
    ghost saw: { Self → Settings → List (List ℕ) → (ℕ → List ℕ) → List Item → Type 0 };

    /// Takes note of the first `count` of the words that wait in the front, which are taken.
    fn words(&mut self, front: &Front, count: usize)
        requires most { count ≤ length front.now.waiting }
        requires told { asks ≡ true → AsksWords keeps self.old front.now }
        ensures fixed { fixed self.new ≡ fixed self.old }
        ensures takes { TakesWords keeps saw self.old self.new front.now count };

    /// Takes note of the item that the front gave last; no word waits in it.
    fn item(&mut self, front: &Front, item: Aligned)
        requires none { length front.now.waiting ≡ 0 }
        requires told { asks ≡ true → AsksItem keeps self.old front.now item }
        ensures fixed { fixed self.new ≡ fixed self.old }
        ensures takes { TakesItem keeps saw self.old self.new front.now item };

    /// Takes note that the front's clock moved on: each lane may have declared a lock at the bit that it passed last.
    fn moved(&mut self, front: &Front)
        requires { asks ≡ true → AsksLocks keeps self.old front.now }
        ensures fixed { fixed self.new ≡ fixed self.old }
        ensures takes { TakesLocks keeps saw self.old self.new front.now };
}

/// Takes note of nothing.
impl Observer for () {
    ghost Fixed = { Unit {0} };

    ghost fixed = { λ o. tt };

    ghost asks = { false };

    ghost keeps = { λ o s locks items. Unit {0} };

    ghost saw = { λ o s lanes locks items. Unit {0} };

    fn words(&mut self, _front: &Front, _count: usize) {}

    fn item(&mut self, _front: &Front, _item: Aligned) {}

    fn moved(&mut self, _front: &Front) {}
}
