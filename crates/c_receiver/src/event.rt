//! Events as C sees them.
ghost use Rattle.std.specs.Prelude.{◌≡◌};
ghost use Rattle.c_receiver.specs.Shown.{drop_number, dropped, fault_span, flow, no_event, packet, shown};

use c_parts::codes::{DROPPED, ENDED, FLOW, NONE, PACKET, SPAN, fault_number};
use c_parts::place::{CPlace, place_of};
use lk_base::{DropWhy, Pos};
use receive_model::Span;
use rx_end::RxEvent;

/// An event, or none. A field that its kind lacks is 0.
#[repr(C)]
#[derive(Clone, Copy)]
pub struct CEvent {
    /// One of the kinds in `codes`, `NONE` to `ENDED`.
    pub kind: u32,
    /// The channel of a packet, or of a dropped piece.
    pub channel: u32,
    /// How many bytes a packet has.
    pub length: u32,
    /// Why a piece is dropped, the place of a `DropWhy`; or what a span is for, the place of a `Why`.
    pub why: u32,
    /// A packet's SOP word, the verified word before a span, or the place of a control word.
    pub first: CPlace,
    /// The word that ends a packet, or the verified word after a span.
    pub last: CPlace,
    /// A control word.
    pub word: u64,
}

// An event of this kind with no field.
fn no_event(kind: u32) -> CEvent
    ensures { result ≡ no_event kind }
{
    CEvent {
        kind,
        channel: 0,
        length: 0,
        why: 0,
        first: place_of(None),
        last: place_of(None),
        word: 0,
    }
}

fn drop_number(why: DropWhy) -> u32
    ensures { result ≡ drop_number why }
{
    why as u32
}

fn packet(channel: u16, length: u32, first: Pos, last: Pos) -> CEvent
    ensures { result ≡ packet channel length first last }
{
    let mut event = no_event(PACKET);
    event.channel = channel as u32;
    event.length = length;
    event.first = place_of(Some(first));
    event.last = place_of(Some(last));
    event
}

fn fault_span(found: Span) -> CEvent
    ensures { result ≡ fault_span found }
{
    let mut event = no_event(SPAN);
    event.why = fault_number(found.why);
    event.first = place_of(found.after);
    event.last = place_of(found.before);
    event
}

fn flow(at: Pos, word: u64) -> CEvent
    ensures { result ≡ flow at word }
{
    let mut event = no_event(FLOW);
    event.first = place_of(Some(at));
    event.word = word;
    event
}

fn dropped(channel: u16, why: DropWhy) -> CEvent
    ensures { result ≡ dropped channel why }
{
    let mut event = no_event(DROPPED);
    event.channel = channel as u32;
    event.why = drop_number(why);
    event
}

/// An event, or none, as C sees it.
pub fn shown(event: Option<RxEvent>) -> CEvent
    ensures { result ≡ shown event }
{
    match event {
        None => no_event(NONE),
        Some(
            RxEvent::Packet {
                channel,
                length,
                first,
                last,
            },
        ) => packet(channel, length, first, last),
        Some(RxEvent::Dropped { channel, why }) => dropped(channel, why),
        Some(RxEvent::Span(found)) => fault_span(found),
        Some(RxEvent::Flow { at, word }) => flow(at, word),
        Some(RxEvent::Ended) => no_event(ENDED),
    }
}
