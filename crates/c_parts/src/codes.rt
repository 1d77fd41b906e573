//! The numbers that C sees. A kind that is an enum has the number of its place in the enum, in the order of the header: a result, a
//! cause and a missing key, a drop, a fault, a state or an event of a lane, a rule of words. The other kinds have constants, by the names
//! of the header without its prefix.
ghost use Rattle.std.specs.Prelude.{◌≡◌};
ghost use Rattle.c_parts.specs.Codes.{cause_number, code_of, fault_number, number_of, plan_code, state_code};

use crate::misuse::Misuse;
use lk_base::Why;
use lock_model::LaneState;
use plan_errors::PlanError;

// ---- results

/// The result of a call. Its number, as in the header, is its place in this list.
#[derive(Clone, Copy, Debug, PartialEq, Eq)]
pub enum Code {
    /// The call did what it was asked.
    Done,
    /// Memory ran out.
    OutOfMemory,
    /// The plan is refused.
    BadPlan,
    /// There is no such lane.
    NoLane,
    /// The lane, or the transmitter, was finished before.
    Finished,
    /// The lane has 2^40 bytes or more, or the piece has; or the channel would be given more than 2^60 bytes.
    TooMany,
    /// The last event is no packet.
    NoPacket,
    /// There is no receiver behind the handle.
    NoReceiver,
    /// There is a receiver, a transmitter, or damage, behind the handle already.
    InUse,
    /// There is no damage behind the handle.
    NoDamage,
    /// There are no such numbers of lanes or of bits; or a call has more than 64 bits.
    OutOfRange,
    /// All bits that a row names have passed.
    Passed,
    /// There is no transmitter behind the handle.
    NoTransmitter,
    /// The plan does not list the channel.
    NoChannel,
    /// A packet has no bytes, or too many.
    BadLength,
    /// There is no inspector behind the handle.
    NoInspector,
    /// There is no checker behind the handle.
    NoChecker,
    /// Faults wait that were not given yet: nothing was taken.
    Waiting,
    /// There is no gatherer behind the handle.
    NoGatherer,
    /// A part of a byte of the lane is left: a call on whole bytes must wait for the rest of its bits.
    PartByte,
}

impl Code {
    /// Returns the number of the result, as in the header.
    pub fn number(self) -> u32
        ensures { result ≡ number_of self }
    {
        self as u32
    }
}

/// `Code::Done`.
pub const DONE: u32 = Code::Done as u32;

/// `Code::OutOfMemory`.
pub const OUT_OF_MEMORY: u32 = Code::OutOfMemory as u32;

/// `Code::BadPlan`.
pub const BAD_PLAN: u32 = Code::BadPlan as u32;

/// `Code::NoLane`.
pub const NO_LANE: u32 = Code::NoLane as u32;

/// `Code::Finished`.
pub const FINISHED: u32 = Code::Finished as u32;

/// `Code::TooMany`.
pub const TOO_MANY: u32 = Code::TooMany as u32;

/// `Code::NoPacket`.
pub const NO_PACKET: u32 = Code::NoPacket as u32;

/// `Code::NoReceiver`.
pub const NO_RECEIVER: u32 = Code::NoReceiver as u32;

/// `Code::InUse`.
pub const IN_USE: u32 = Code::InUse as u32;

/// `Code::NoDamage`.
pub const NO_DAMAGE: u32 = Code::NoDamage as u32;

/// `Code::OutOfRange`.
pub const OUT_OF_RANGE: u32 = Code::OutOfRange as u32;

/// `Code::Passed`.
pub const PASSED: u32 = Code::Passed as u32;

/// `Code::NoTransmitter`.
pub const NO_TRANSMITTER: u32 = Code::NoTransmitter as u32;

/// `Code::NoChannel`.
pub const NO_CHANNEL: u32 = Code::NoChannel as u32;

/// `Code::BadLength`.
pub const BAD_LENGTH: u32 = Code::BadLength as u32;

/// `Code::NoInspector`.
pub const NO_INSPECTOR: u32 = Code::NoInspector as u32;

/// `Code::NoChecker`.
pub const NO_CHECKER: u32 = Code::NoChecker as u32;

/// `Code::Waiting`.
pub const WAITING: u32 = Code::Waiting as u32;

/// `Code::NoGatherer`.
pub const NO_GATHERER: u32 = Code::NoGatherer as u32;

/// `Code::PartByte`.
pub const PART_BYTE: u32 = Code::PartByte as u32;

// ---- causes of refusals

/// The cause of a refusal. Its number, as in the header, is its place in this list.
#[derive(Clone, Copy, Debug, PartialEq, Eq)]
pub enum Cause {
    /// There is no refusal.
    NoCause,
    /// A field of the row is not UTF-8.
    Text,
    /// The row's first field names no key.
    UnknownKey,
    /// The row has another number of fields.
    Fields,
    /// A field of the row is not of its form.
    Number,
    /// A number, a length or a count of rows is out of range.
    Range,
    /// The row is a second one of what may stand once.
    Repeat,
    /// No row has the key.
    Missing,
    /// The row contradicts others.
    Clash,
}

impl Cause {
    /// Returns the number of the cause, as in the header.
    pub fn number(self) -> u32
        ensures { result ≡ cause_number self }
    {
        self as u32
    }
}

// ---- keys that can be missing: `Key` from 1 on

/// No key is missing.
pub const NO_KEY: u32 = 0;

// ---- kinds of events

/// No event.
pub const NONE: u32 = 0;

/// A packet.
pub const PACKET: u32 = 1;

/// A dropped piece of a packet.
pub const DROPPED: u32 = 2;

/// A fault span.
pub const SPAN: u32 = 3;

/// A verified control word.
pub const FLOW: u32 = 4;

/// The end.
pub const ENDED: u32 = 5;

// ---- kinds of events of lanes: `EventKind` from 1 on

/// No event is due.
pub const NO_LANE_EVENT: u32 = 0;

// ---- kinds of what a gatherer gives

/// Nothing.
pub const GATHERED_NONE: u32 = 0;

/// A word.
pub const GATHERED_WORD: u32 = 1;

/// The end of an epoch.
pub const GATHERED_BREAK: u32 = 2;

/// The end.
pub const GATHERED_ENDED: u32 = 3;

// ---- kinds of words, the tags of a words file

/// A data word.
pub const WORD_DATA: u32 = 1;

/// A control word.
pub const WORD_CONTROL: u32 = 2;

/// A Bad word, whose number is not looked at.
pub const WORD_BAD: u32 = 3;

// ---- the rules of a sender's words: `WordRule` from 1 on

/// No rule is broken.
pub const RULE_NONE: u32 = 0;

/// `LaneState::Searching`: the lane has no word lock.
pub const LANE_SEARCHING: u32 = LaneState::Searching as u32;

/// Returns the number of a lane's state.
pub fn state_code(state: LaneState) -> u32
    ensures { result ≡ state_code state }
{
    state as u32
}

/// Returns the number of why a span of words cannot be trusted, or of why an epoch ended.
pub fn fault_number(why: Why) -> u32
    ensures { result ≡ fault_number why }
{
    why as u32
}

/// The result of a misuse.
pub fn code_of(why: Misuse) -> u32
    ensures { result ≡ code_of why }
{
    match why {
        Misuse::NoLane => NO_LANE,
        Misuse::Finished => FINISHED,
        Misuse::TooMany => TOO_MANY,
        Misuse::NoPacket => NO_PACKET,
    }
}

/// The result of a plan that is refused.
pub fn plan_code(why: PlanError) -> u32
    ensures { result ≡ plan_code why }
{
    match why {
        PlanError::OutOfMemory => OUT_OF_MEMORY,
        _ => BAD_PLAN,
    }
}
