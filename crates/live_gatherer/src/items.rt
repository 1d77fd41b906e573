//! The items of a front, one after another.
ghost use Rattle.std.specs.Prelude.{◌≡◌, ◌≤◌, ◌<◌, true, List, IfNone, OnSome, Some, length};
ghost use Rattle.lk_base.specs.Link.{Settings};
ghost use Rattle.lk_base.specs.declared.word.Aligned.{Aligned as Item};
ghost use Rattle.event_model.specs.Fed.{Fed};
ghost use Rattle.rx_front.specs.Standing.{GivesItem, Progress, Stands, items_left, weight};
ghost use Rattle.live_gatherer.specs.Bits.{AreWords};

use lk_base::Aligned;
use rx_front::Front;

// Takes the first of the words that wait; there is one.
fn next_word(front: &mut Front) -> Aligned
    requires { 1 ≤ length front.old.waiting }
    ensures gives { (s : Settings) (fed : List Fed) (items : List Item) (t : Progress) →
        Stands front.old s fed items t → GivesItem (Some result) front.new s fed items t }
    ensures fewer { items_left front.new < items_left front.old }
    ensures weight { weight front.new ≡ weight front.old }
    ensures words { AreWords front.new.waiting }
{
    let at = front.at();
    let word = front.word(0);
    front.pass(1);
    Aligned::Word(at, word)
}

/// Takes the next item of what the clock has shown. `None` if all items that are known of it were taken.
pub fn next_item(front: &mut Front) -> Option<Aligned>
    ensures gives { (s : Settings) (fed : List Fed) (items : List Item) (t : Progress) →
        Stands front.old s fed items t → GivesItem result front.new s fed items t }
    ensures settled { IfNone result (front.new.deskew.settled ≡ true) }
    ensures fewer { OnSome result (items_left front.new < items_left front.old) }
    ensures weight { weight front.new ≡ weight front.old }
    ensures words { AreWords front.new.waiting }
{
    front.fill();
    if front.is_empty() {
        return front.item();
    }
    Some(next_word(front))
}
