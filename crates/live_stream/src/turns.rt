ghost use Rattle.std.specs.Prelude.{◌≡◌, ℕ, ◌+◌, ◌<◌, ◌≤◌, List, [], ◌∷◌, ◌++◌, length, reverse, Bool, Contains, slice_index, slice_index_or};
ghost use Rattle.std.specs.List.{remove};
ghost use Rattle.lk_base.specs.declared.word.Word.{Word};
ghost use Rattle.stream_model.specs.Calendar.{Told};
ghost use Rattle.stream_model.specs.BurstStream.{Source};
ghost use Rattle.stream_model.specs.declared.rows.FlowRow.{FlowRow};
ghost use Rattle.calendar.specs.Changes.{changes, told_back, state_in};
ghost use Rattle.calendar.specs.Incoming.{Stands};
ghost use Rattle.burst_scheduler.specs.Gives.{AreLater};
ghost use Rattle.burst_scheduler.specs.declared.sizes.BurstSizes.{BurstSizes};
ghost use Rattle.live_stream.specs.Waiting.{channels_of};
ghost use Rattle.live_stream.specs.Turns.{AreInTurn, HaveLeft, IsFirstReady, IsTurn, may_burst};
ghost use Rattle.live_stream.specs.declared.waiting.Waiting.{Waiting};

use super::waiting::Waiting;
use arrayvec::ArrayVec;
use calendar::{CalendarIn, Change};

/// The place of a channel's queue, or the number of queues where it has none.
pub fn place(turns: &[Waiting], channel: u16) -> usize
    ensures found { result < length turns.now → slice_index (channels_of turns.now) result ≡ channel }
    ensures missing { result ≡ length turns.now → Contains (channels_of turns.now) channel → ⊥ }
    ensures within { result ≤ length turns.now }
{
    for at in 0..turns.len() {
        if turns[at].channel == channel {
            return at;
        }
    }
    turns.len()
}

// Whether a channel is on and has bytes left.
fn is_ready(queue: &Waiting, incoming: &CalendarIn) -> bool
    requires { (entries : List ℕ) × (rows : List FlowRow) × Stands incoming.now entries rows }
    ensures { (entries : List ℕ) (rows : List FlowRow) → Stands incoming.now entries rows → result ≡ may_burst (told_back entries rows) queue.now }
{
    let on = incoming.is_on(queue.channel);
    let left = queue.is_left();
    on && left
}

/// The place of the first channel in turn that is on and has bytes left.
pub fn first_ready(turns: &[Waiting], incoming: &CalendarIn) -> Option<usize>
    requires { (entries : List ℕ) × (rows : List FlowRow) × Stands incoming.now entries rows }
    ensures { (entries : List ℕ) (rows : List FlowRow) → Stands incoming.now entries rows → IsFirstReady (told_back entries rows) turns.now result }
{
    for at in 0..turns.len() {
        if is_ready(&turns[at], incoming) {
            return Some(at);
        }
    }
    None
}

/// Moves a queue to the back.
pub fn to_back(turns: &mut Vec<Waiting>, at: usize)
    requires { at < length turns.old.items }
    ensures { (q : Waiting) → turns.new.items ≡ remove turns.old.items at ++ slice_index_or turns.old.items at q ∷ [] }
{
    turns[at..].rotate_left(1);
}

// A channel is on or off from now on, by an entry that changes it.
fn turn(turns: &mut Vec<Waiting>, channel: u16, on: bool)
    ensures turns { (channels : List ℕ) (told : List Told) (w : List Word) (e : Told) → AreInTurn channels told w (channels_of turns.old.items) → e.channel ≡ channel → e.on ≡ on → IsTurn told w e → AreInTurn channels (e ∷ told) w (channels_of turns.new.items) }
    ensures left { (sizes : BurstSizes) (source : Source) (w : List Word) → HaveLeft turns.old.items sizes source w → HaveLeft turns.new.items sizes source w }
{
    if !on {
        return;
    }
    let at = place(turns, channel);
    if at < turns.len() {
        to_back(turns, at);
    }
}

/// Channels are on or off from now on, by the entries of one word that change them.
pub fn turn_all(turns: &mut Vec<Waiting>, changed: &ArrayVec<Change, 16>)
    ensures turns { (channels : List ℕ) (told : List Told) (w : List Word) (es : List Told) → AreInTurn channels told w (channels_of turns.old.items) → changed.now.items ≡ changes told es → AreLater told w es → AreInTurn channels (reverse es ++ told) w (channels_of turns.new.items) }
    ensures left { (sizes : BurstSizes) (source : Source) (w : List Word) → HaveLeft turns.old.items sizes source w → HaveLeft turns.new.items sizes source w }
{
    for i in 0..changed.len() {
        let Change { channel, on } = changed[i];
        turn(turns, channel, on);
    }
}
