ghost use Rattle.std.specs.Prelude.{◌≡◌, ◌<◌, ◌≤◌, ◌+◌, ◌^◌, ◌≤ℤ◌, [], ◌∷◌, ◌++◌, pos, negsuc, IfSome, if◌then◌else◌};
ghost use Rattle.std.specs.Int.Count.{ones_in};
ghost use Rattle.lane_model.specs.Coding.{excess};
ghost use Rattle.arrayvec.specs.ArrayVec.{array_vec_len};
ghost use Rattle.lane_events.specs.Events.{is_no_skip as no_skip, is_unhealthy as unhealthy, loss_kind as kind_of_loss};
ghost use Rattle.lane_events.specs.Inspection.{events_in};
ghost use Rattle.lane_events.specs.Steps.{balance_before as before_step, balance_behind, covered_has, event_of, events_at, is_plain_word as plain_word, told as told_of, unbalances as unbalanced};

use crate::balance::balance_with;
use crate::types::EventKind;
use crate::word_events::WordEvents;
use arrayvec::ArrayVec;
use lane_model::{Role, SKIP, SYNC};
use lk_base::RxWord;
use lock_model::{LaneReport, LaneStep, LostWhy};

/// Returns the events of the word of a step, given the reports before and after it. `unbalances` if its code unbalances its lock.
pub fn told(step: LaneStep, before: &LaneReport, after: &LaneReport, unbalances: bool) -> WordEvents
    ensures { events_in result ≡ told_of step before.now after.now unbalances }
{
    match step {
        LaneStep::Nothing => WordEvents::new(0),
        LaneStep::Word(word, role, at) => covered(at, word, role, before, after, unbalances),
        LaneStep::Locked(at) => covered(
            at,
            RxWord::Control(SYNC),
            Role::Sync,
            before,
            after,
            unbalances,
        ),
        LaneStep::Lost(why, at) => lost(at, loss_kind(after.unframed == before.unframed, why)),
        LaneStep::Ended => WordEvents::new(0),
    }
}

/// True if a covered word can cause no event but balance: a payload word with a legal header.
pub fn is_plain(word: RxWord, role: Role) -> bool
    ensures { result ≡ plain_word word role }
{
    if matches!(word, RxWord::Bad) {
        return false;
    }
    matches!(role, Role::Payload(_))
}

/// Returns the balance before the word of a step: that of no code at a declaring Sync.
pub fn balance_before(step: LaneStep, balance: Option<i32>) -> Option<i32>
    requires { IfSome balance (λ n. (negsuc 128 ≤ℤ n) × (n ≤ℤ pos 129)) }
    ensures value { result ≡ before_step step balance }
    ensures bound { IfSome result (λ n. (negsuc 128 ≤ℤ n) × (n ≤ℤ pos 129)) }
{
    match step {
        LaneStep::Locked(_) => Some(0),
        LaneStep::Nothing => balance,
        LaneStep::Word(_, _, _) => balance,
        LaneStep::Lost(_, _) => balance,
        LaneStep::Ended => balance,
    }
}

/// Returns the balance after the word of a step, given its code.
pub fn balance_after(step: LaneStep, balance: Option<i32>, code: u128) -> Option<i32>
    requires code { code < 2 ^ 67 }
    requires bound { IfSome balance (λ n. (negsuc 128 ≤ℤ n) × (n ≤ℤ pos 129)) }
    ensures value { result ≡ balance_behind step balance (excess 67 (ones_in 67 code)) }
    ensures bound { IfSome result (λ n. (negsuc 128 ≤ℤ n) × (n ≤ℤ pos 129)) }
{
    match step {
        LaneStep::Locked(_) => balance_with(balance, code),
        LaneStep::Word(_, _, _) => balance_with(balance, code),
        LaneStep::Nothing => balance,
        LaneStep::Lost(_, _) => balance,
        LaneStep::Ended => balance,
    }
}

/// True if a code unbalances its lock: it is balanced before it and not after it.
pub fn unbalances(before: Option<i32>, after: Option<i32>) -> bool
    ensures { result ≡ unbalanced before after }
{
    before.is_some() && after.is_none()
}

// Makes the events of a covered word.
fn covered(
    bit: u64,
    word: RxWord,
    role: Role,
    before: &LaneReport,
    after: &LaneReport,
    unbalances: bool,
) -> WordEvents
    ensures { events_in result ≡ events_at bit (covered_has word role before.now after.now unbalances) }
{
    let diag = after.diag != before.diag;
    let skips = matches!(role, Role::Skip);
    let checks = matches!(role, Role::Diagnostic);
    let no_skip = is_no_skip(word);
    let unhealthy = is_unhealthy(word);
    let mut kinds = ArrayVec::new();
    push_if(&mut kinds, after.bad != before.bad, EventKind::Bad);
    push_if(&mut kinds, after.sync != before.sync, EventKind::Sync);
    push_if(&mut kinds, after.state != before.state, EventKind::State);
    push_if(&mut kinds, skips && no_skip, EventKind::Skip);
    push_if(&mut kinds, diag, EventKind::Diagnostic);
    push_if(&mut kinds, checks && !diag && unhealthy, EventKind::Health);
    push_if(&mut kinds, unbalances, EventKind::Balance);
    push_if(&mut kinds, after.locks != before.locks, EventKind::Lock);
    WordEvents { bit, kinds }
}

// Appends `kind` if the word has an event of it. There must be room.
fn push_if(kinds: &mut ArrayVec<EventKind, 12>, has: bool, kind: EventKind)
    requires { array_vec_len kinds.old < 12 }
    ensures kinds { kinds.new.items ≡ kinds.old.items ++ (if has then kind ∷ [] else []) }
    ensures room { array_vec_len kinds.new ≤ array_vec_len kinds.old + 1 }
{
    if has {
        kinds.push(kind);
    }
}

// Makes the event of a losing word.
fn lost(bit: u64, kind: EventKind) -> WordEvents
    ensures { events_in result ≡ event_of bit kind ∷ [] }
{
    let mut kinds = ArrayVec::new();
    kinds.push(kind);
    WordEvents { bit, kinds }
}

// Returns the kind of the loss of a declared lock, or of a search.
fn loss_kind(declared: bool, why: LostWhy) -> EventKind
    ensures { result ≡ kind_of_loss declared why }
{
    if !declared {
        return EventKind::Unframed;
    }
    match why {
        LostWhy::Headers => EventKind::LostHeaders,
        LostWhy::Sync => EventKind::LostSync,
        LostWhy::State => EventKind::LostState,
        LostWhy::Unframed => EventKind::Unframed,
    }
}

// True if a descrambled word is neither Bad nor the Skip word that is sent.
fn is_no_skip(word: RxWord) -> bool
    ensures { result ≡ no_skip word }
{
    match word {
        RxWord::Data(_) => true,
        RxWord::Control(x) => x != SKIP,
        RxWord::Bad => false,
    }
}

// True if a descrambled Diagnostic word lacks one of the two health bits.
fn is_unhealthy(word: RxWord) -> bool
    ensures { result ≡ unhealthy word }
{
    word.number_or_zero() >> 32 & 3 != 3
}
