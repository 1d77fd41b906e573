ghost use Rattle.std.specs.Prelude.{◌≡◌, ◌↔◌, ℕ, ◌≤◌, List, length, All, Some};
ghost use Rattle.lk_base.specs.declared.word.Word.{Word};
ghost use Rattle.stream_model.specs.BurstStream.{IsBurstStream};
ghost use Rattle.stream_model.specs.declared.rows.FlowRow.{FlowRow};
ghost use Rattle.stream_model.specs.declared.rows.LocalRow.{LocalRow};
ghost use Rattle.duplex_model.specs.OpenStream.{IsOpenStream};
ghost use Rattle.live_stream.specs.LiveStream.{LivePacket, Given, source_at, warmup_of, with_more, AreGivenFrom, IsGivenAtOnce, IsLiveStream, IsWholeLiveStream};
ghost use Rattle.live_stream.specs.Gives.{Gives, IsAccepted, packets_closed_in, refusal_of};
ghost use Rattle.live_stream.specs.declared.scheduler.LiveScheduler.{LiveScheduler};

/// What was given has at most one live stream of each length, and at most one whole one.
pub fn one_live_stream()
    ensures live { (given : Given) (v w : List Word) → IsLiveStream given v → IsLiveStream given w → length v ≡ length w → v ≡ w }
    ensures whole { (given : Given) (v w : List Word) → IsWholeLiveStream given v → IsWholeLiveStream given w → v ≡ w }
{}

/// What is given after the words that are there changes none of them.
pub fn later_is_not_heard()
    ensures { (given : Given) (packets : List LivePacket) (flow : List FlowRow) (local : List LocalRow) (w : List Word) → AreGivenFrom (length w) packets flow local → IsLiveStream given w ↔ IsLiveStream (with_more given packets flow local) w }
{}

/// Where all packets were given before the first word a live stream is an open stream of them. Where it was closed in the warm-up at
/// the latest, and no flow row came after that, the whole one is their stream.
pub fn given_at_once()
    ensures open { (given : Given) (w : List Word) → IsGivenAtOnce given → IsLiveStream given w ↔ IsOpenStream (source_at given 0) w }
    ensures whole { (given : Given) (w : List Word) (closed : ℕ) → IsGivenAtOnce given → given.closed ≡ Some closed → closed ≤ warmup_of given → All (λ (row : FlowRow). row.slot ≤ closed) given.flow → IsWholeLiveStream given w ↔ IsBurstStream (source_at given 0) w }
{}

/// The words that a scheduler made are the live stream of what it was given.
pub fn words_are_live()
    ensures { (s : LiveScheduler) (g : Given) (w : List Word) → Gives s g w → IsLiveStream g w }
{}

/// Where the packets are closed, the words that are right stay the same. Where they were closed before, nothing changes. Nor does it where
/// the stream was closed before: each packet is refused as it was.
pub fn closed_packets_change_no_word()
    ensures again { (given : Given) → packets_closed_in (packets_closed_in given) ≡ packets_closed_in given }
    ensures live { (given : Given) (w : List Word) → IsLiveStream given w ↔ IsLiveStream (packets_closed_in given) w }
    ensures whole { (given : Given) (w : List Word) → IsWholeLiveStream given w ↔ IsWholeLiveStream (packets_closed_in given) w }
    ensures refused { (given : Given) (slot channel : ℕ) (bytes : List ℕ) → given.closed ≡ Some slot → refusal_of (packets_closed_in given) channel bytes ≡ refusal_of given channel bytes }
{}

/// Each packet that a scheduler was given is one of a listed channel, and has 1 to `max_packet` bytes.
pub fn packets_are_accepted()
    ensures { (s : LiveScheduler) (g : Given) (w : List Word) → Gives s g w → All (λ (p : LivePacket). IsAccepted g.channels g.max_packet p) g.packets }
{}
