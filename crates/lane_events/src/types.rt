ghost use Rattle.std.specs.Prelude.{◌≡◌};
ghost use Rattle.lane_events.specs.Names.{name_of};

/// What a lane shows at a word: what is wrong with a word that a lock covers, and that a lock is declared or lost. The order is
/// that of the events of one word.
#[derive(Clone, Copy, Debug, PartialEq, Eq)]
pub enum EventKind {
    /// A covered word is Bad.
    Bad,
    /// A covered word at the place of a Sync word is not Sync.
    Sync,
    /// A covered word at the place of a Scrambler State word is not the one of the running key.
    State,
    /// A covered word at the place of a Skip word is, descrambled, neither Bad nor the Skip word that is sent.
    Skip,
    /// A covered word at the place of a Diagnostic word is not right.
    Diagnostic,
    /// A right Diagnostic word does not have both of its health bits.
    Health,
    /// From the declaring Sync up to and with this word, the bits of the codes have over 129 more ones than zeros, or zeros than
    /// ones: at the first such word of a lock alone.
    Balance,
    /// A lock is declared: at its declaring Sync.
    Lock,
    /// A declared lock is lost for its headers.
    LostHeaders,
    /// A declared lock is lost for its Sync words.
    LostSync,
    /// A declared lock is lost for its Scrambler State words.
    LostState,
    /// A search is lost before a declaration, or given up.
    Unframed,
}

/// An event of a lane.
#[derive(Clone, Copy, Debug, PartialEq, Eq)]
pub struct LaneEvent {
    /// The bit position of the word concerned: of its first bit, from the first bit of the lane on.
    pub bit: u64,
    /// What it is.
    pub kind: EventKind,
}

impl Default for EventKind {
    ghost use Rattle.std.specs.Prelude.{◌≡◌};
    ghost use Rattle.lane_events.specs.declared.types.EventKind.{EventKind};

    ghost is_default = { λ kind. kind ≡ EventKind.Bad };

    /// Returns the first kind: a list of kinds contains it in the places that have no kind yet.
    fn default() -> Self {
        EventKind::Bad
    }
}

impl EventKind {
    /// Returns the name of the kind, as written in the table of events.
    pub fn name(self) -> &'static str
        ensures { result.now ≡ name_of self }
    {
        match self {
            EventKind::Bad => "bad",
            EventKind::Sync => "sync",
            EventKind::State => "state",
            EventKind::Skip => "skip",
            EventKind::Diagnostic => "diag",
            EventKind::Health => "health",
            EventKind::Balance => "balance",
            EventKind::Lock => "lock",
            EventKind::LostHeaders => "lost-headers",
            EventKind::LostSync => "lost-sync",
            EventKind::LostState => "lost-state",
            EventKind::Unframed => "unframed",
        }
    }
}
