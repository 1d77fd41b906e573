ghost use Rattle.std.specs.Prelude.{◌≡◌, ◌+◌, ◌<◌, ◌≤◌, ℕ, List, [], ◌∷◌, ◌++◌, length, filter, slice_index, All, Contains, true, if◌then◌else◌, IfOk};
ghost use Rattle.std.specs.List.{AllPairs};
ghost use Rattle.lk_index_lists.specs.Held.{without, IsSameSize, IsApart};
ghost use Rattle.burst_scheduler.specs.Ring.{ring_list, has_chunk, places_of, IsInOrder};

use super::queue::Queue;
use lk_base::OutOfMemory;
use lk_index_lists::Lists;
use std::alloc::Global;

// Returns each channel with its place, in order of number.
pub fn numbers(alloc: Global, channels: &[u16]) -> Result<Vec<(u16, u32)>, OutOfMemory>
    requires { length channels.now ≤ 1024 }
    ensures { IfOk result (λ v. IsInOrder channels.now v.items) }
{
    let mut order = Vec::new(alloc);
    for i in 0..channels.len() {
        order.push((channels[i], i as u32))?;
    }
    order.sort_unstable_by_key(|pair| pair.0);
    Ok(order)
}

// Returns the place that stands with a channel in this order of number, looked up by halves: where a channel is listed and the
// order is that of its list, its place.
pub fn place_in(order: &[(u16, u32)], channel: u16) -> usize
    ensures { (channels : List ℕ) → IsInOrder channels order.now → Contains channels channel → (result < length channels) × (slice_index channels result ≡ channel) }
{
    let at = order.partition_point(|pair| pair.0 < channel);
    if at < order.len() {
        order[at].1 as usize
    } else {
        order.len()
    }
}

// Links the channels that have a chunk left into a ring that is empty, in order of number.
pub fn link_all(ring: &mut Lists, order: &[(u16, u32)], queues: &[Queue])
    requires one { length ring.old.lists ≡ 1 }
    requires sound { IsApart ring.old }
    requires empty { ring_list ring.old ≡ [] }
    requires nodes { All (λ place. place < ring.old.nodes) (places_of order.now) }
    requires queues { All (λ place. place < length queues.now) (places_of order.now) }
    requires apart { AllPairs (λ p q. p ≡ q → ⊥) (places_of order.now) }
    ensures line { ring_list ring.new ≡ filter (has_chunk queues.now) (places_of order.now) }
    ensures size { IsSameSize ring.old ring.new }
    ensures apart { IsApart ring.new }
    ensures links { ring.new.links ≤ ring.old.links + length order.now }
{
    for i in 0..order.len() {
        let place = order[i].1;
        if queues[place as usize].is_left() {
            ring.push_back(0, place);
        }
    }
}

// Takes a place out of the ring, and puts it at the back if it stays, as one change at most.
pub fn relink(ring: &mut Lists, place: u32, stays: bool)
    requires one { length ring.old.lists ≡ 1 }
    requires place { place < ring.old.nodes }
    ensures line { ring_list ring.new ≡ without place (ring_list ring.old) ++ (if stays then place ∷ [] else []) }
    ensures size { IsSameSize ring.old ring.new }
    ensures apart { IsApart ring.new }
    ensures links { ring.new.links ≤ ring.old.links + 1 }
{
    let linked = ring.is_linked(place);
    if stays && linked {
        ring.move_to_back(place);
    } else if stays {
        ring.push_back(0, place);
    } else if linked {
        ring.unlink(place);
    }
}
