ghost use Rattle.std.specs.Prelude.{◌≡◌, ◌+◌, ◌-◌, ◌^◌, ◌<◌, ◌≤◌, true, map, take, length, slice_index_or};
ghost use Rattle.std.specs.List.Sorted.{IsNonDecreasing};
ghost use Rattle.stream_model.specs.declared.rows.FlowRow.{FlowRow as PassedFlow};
ghost use Rattle.stream_model.specs.declared.rows.LocalRow.{LocalRow as PassedLocal};
ghost use Rattle.burst_scheduler.specs.Asked.{Asked, having_local};
ghost use Rattle.burst_scheduler.specs.Gives.{Gives};
ghost use Rattle.tx_words.specs.Driving.{PassesFlow, FlowLater, LocalLater};

use burst_scheduler::Scheduler;
use stream_model::{FlowRow, LocalRow};

// Passes the local rows of this slot, and says how many were passed so far.
pub fn pass_local(scheduler: &mut Scheduler, local: &[LocalRow], passed: usize, slot: u64) -> usize
    requires gives { (a : Asked) × Gives scheduler.old a × (a.source.local ≡ take passed local.now) × (slot ≡ length a.words) }
    requires within { passed ≤ length local.now }
    ensures gives { (a : Asked) → Gives scheduler.old a → a.source.local ≡ take passed local.now → slot ≡ length a.words → Gives scheduler.new (having_local a (take result local.now)) }
    ensures within { result ≤ length local.now }
    ensures later { IsNonDecreasing (map (λ row. row.slot) local.now) → LocalLater local.now passed slot → LocalLater local.now result (slot + 1) }
{
    let mut count = passed;
    while count < local.len() && local[count].slot == slot {
        scheduler.local(local[count].channel, local[count].on);
        count += 1;
    }
    count
}

// Passes the flow rows of this slot, and says how many were passed so far.
pub fn pass_flow(scheduler: &mut Scheduler, flow: &[FlowRow], passed: usize, slot: u64) -> usize
    requires gives { (a : Asked) × Gives scheduler.old a × (a.source.flow ≡ take passed flow.now) × (slot ≡ length a.words) × (a.closed ≡ true → length flow.now ≤ passed) }
    requires within { passed ≤ length flow.now }
    ensures gives { (a : Asked) → Gives scheduler.old a → a.source.flow ≡ take passed flow.now → slot ≡ length a.words → (a.closed ≡ true → length flow.now ≤ passed) → PassesFlow scheduler.new a flow.now passed result }
    ensures within { result ≤ length flow.now }
    ensures more { passed ≤ result }
    ensures later { IsNonDecreasing (map (λ row. row.slot) flow.now) → FlowLater flow.now passed slot → FlowLater flow.now result (slot + 1) }
{
    let mut count = passed;
    while count < flow.len() && flow[count].slot == slot {
        scheduler.flow(flow[count].word);
        count += 1;
    }
    count
}

// How many slots from this one on are before that of the next local row: all, where none is left.
pub fn before_local(local: &[LocalRow], passed: usize, slot: u64) -> u64
    ensures later { IsNonDecreasing (map (λ row. row.slot) local.now) → LocalLater local.now passed slot → LocalLater local.now passed (slot + result) }
    ensures next { (d : PassedLocal) → passed < length local.now → result ≡ (slice_index_or local.now passed d).slot - slot }
    ensures none { length local.now ≤ passed → result ≡ 2 ^ 64 - 1 }
{
    if passed < local.len() {
        local[passed].slot.saturating_sub(slot)
    } else {
        u64::MAX
    }
}

// How many slots from this one on are before that of the next flow row: all, where none is left.
pub fn before_flow(flow: &[FlowRow], passed: usize, slot: u64) -> u64
    ensures later { IsNonDecreasing (map (λ row. row.slot) flow.now) → FlowLater flow.now passed slot → FlowLater flow.now passed (slot + result) }
    ensures next { (d : PassedFlow) → passed < length flow.now → result ≡ (slice_index_or flow.now passed d).slot - slot }
    ensures none { length flow.now ≤ passed → result ≡ 2 ^ 64 - 1 }
{
    if passed < flow.len() {
        flow[passed].slot.saturating_sub(slot)
    } else {
        u64::MAX
    }
}
