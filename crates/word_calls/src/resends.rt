//! The calls of `retransmit`.
ghost use Rattle.std.specs.Prelude.{◌≡◌, ◌+◌, ◌^◌, ◌<◌, ◌≤◌, length, IfOk};

use crate::lines::tell_no_memory;
use crate::values::{tell_value, tell_words};
use lk_base::{OutOfMemory, RxWord, Shape, Word};
use retransmit::{Did, Event, Resend};
use std::alloc::Global;
use std::io;
use tx_words::{Packet, StreamSource, words_of};

// The stream of a packet of 16 bytes in groups of one word: an idle, a burst word, two data words, the word with the packet's end,
// and an idle. Two pieces may be sent without an acknowledgement.
fn carried(alloc: Global) -> Result<Resend, OutOfMemory>
    ensures { IfOk result (λ r. r.state.sends ≡ 0) }
{
    let shape = Shape {
        burst_max: 256,
        burst_short: 64,
        burst_min: 0,
        group: 1,
        warmup: 1,
    };
    let bytes = [7; 16];
    let packets = [Packet {
        channel: 1,
        bytes: &bytes,
    }];
    let source = StreamSource::new(shape, &[1], &[1], &packets, &[], &[]);
    let made = words_of(alloc, &source)?;
    Resend::new(alloc, &made.words, 2)
}

// Does these events, and returns how many of them did something.
fn do_all(resend: &mut Resend, events: &[Event]) -> u32
    requires { resend.old.state.sends + length events.now < 2 ^ 60 }
    ensures { resend.new.state.sends ≤ resend.old.state.sends + length events.now }
{
    let mut done = 0u32;
    for event in events {
        match resend.event(*event) {
            Did::Done => done = done.saturating_add(1),
            Did::Nothing => {}
        }
    }
    done
}

fn as_received(word: Word) -> RxWord {
    match word {
        Word::Data(x) => RxWord::Data(x),
        Word::Control(x) => RxWord::Control(x),
    }
}

// What a number of events that did something came to.
fn tell_state(rt: &HostRuntime, name: &str, resend: &Resend, done: u32) -> io::Result<()> {
    tell_value(
        rt,
        name,
        &(
            done,
            resend.pieces(),
            resend.accepted(),
            resend.acknowledged(),
            resend.sent(),
        ),
    )
}

// The piece with the packet's end is the first on its way.
fn tell_on_way(rt: &HostRuntime, resend: &Resend) -> io::Result<()> {
    tell_words(
        rt,
        &[
            ("word 0 on its way", resend.first_word(0).map(as_received)),
            ("word 2 on its way", resend.first_word(2).map(as_received)),
            ("word 3 on its way", resend.first_word(3).map(as_received)),
            (
                "the first acknowledgement",
                resend.first_back().map(as_received),
            ),
        ],
    )
}

// Three pieces were accepted, and two acknowledgements are on their way back.
fn tell_accepted(rt: &HostRuntime, resend: &Resend) -> io::Result<()> {
    tell_value(rt, "words accepted", &resend.words().len())?;
    tell_words(
        rt,
        &[
            ("word 1 accepted", resend.word(1).map(as_received)),
            ("word 4 accepted", resend.word(4).map(as_received)),
            ("word 5 accepted", resend.word(5).map(as_received)),
            ("word 0 on its way", resend.first_word(0).map(as_received)),
            (
                "the first acknowledgement",
                resend.first_back().map(as_received),
            ),
        ],
    )
}

// The second piece is lost, and the third is dropped; both are sent again.
fn lose_one(rt: &HostRuntime, resend: &mut Resend) -> io::Result<()>
    requires { resend.old.state.sends ≡ 0 }
{
    let first = [
        Event::Send,
        Event::Take,
        Event::TakeBack,
        Event::Send,
        Event::Send,
        Event::Send,
        Event::Lose,
    ];
    let again = [
        Event::Take,
        Event::TakeBack,
        Event::Rewind,
        Event::Send,
        Event::Send,
        Event::Take,
        Event::Take,
    ];
    let done = do_all(resend, &first);
    tell_state(rt, "a lost piece", resend, done)?;
    tell_on_way(rt, resend)?;
    let done = do_all(resend, &again);
    tell_state(rt, "sent again", resend, done)?;
    tell_accepted(rt, resend)?;
    let done = do_all(resend, &[Event::TakeBack, Event::TakeBack]);
    tell_state(rt, "all acknowledged", resend, done)
}

/// Prints what comes of a stream of which a piece is lost: after each part of the events how many did something, and the pieces of
/// the stream, those accepted, those acknowledged and how many were sent; and words on their way and accepted.
pub fn tell_all(rt: &HostRuntime) -> io::Result<()> {
    match carried(rt.alloc()) {
        Ok(mut resend) => lose_one(rt, &mut resend),
        Err(_) => tell_no_memory(rt, "a lost piece"),
    }
}
