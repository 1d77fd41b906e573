//! The commands of the program: the word of each, and the rule of its arguments.
ghost use Rattle.std.specs.Prelude.{◌≡◌, map, option_map};
ghost use Rattle.command_words.specs.Table.{shown, rows, row_in};

/// What a command is given.
#[derive(Clone, Copy, Debug, PartialEq, Eq)]
pub enum Rule {
    /// A file.
    File,
    /// A number and the prefix of files.
    NumberAndPrefix,
}

/// The commands.
#[derive(Clone, Copy, Debug, PartialEq, Eq)]
pub enum Name {
    /// A capture or a plan becomes a words file.
    Burst,
    /// A words file, or that of a plan, becomes captures and a span table.
    Join,
    /// A plan becomes lane files.
    Send,
    /// The lane files of a plan become captures and a span table.
    Receive,
    /// A plan is sent over the lanes of its link, and received.
    Link,
    /// A case of a number is written, sent and received.
    Generate,
    /// Two ends that hold each other back become the captures of what each got.
    Duplex,
    /// The calendar of a plan and its local rows become samples.
    OobWrite,
    /// The samples of a plan become a flow file.
    OobRead,
    /// The stream of a plan is carried over a link that loses, repeats and delays.
    Resend,
    /// The words file of a plan becomes lane files.
    Stripe,
    /// The words of a plan's lanes are gathered in one order.
    Gather,
    /// The schedule of a plan is applied to its lanes.
    Damage,
    /// What each lane of a plan shows is told, and where.
    Inspect,
    /// The words file of a plan is judged by the rules of a sender.
    Check,
    /// A words file or a lane file becomes its listing.
    List,
    /// A text becomes the file of which it is the listing.
    Assemble,
}

/// A command: its word, and the rule of its arguments.
#[derive(Clone, Copy, Debug, PartialEq, Eq)]
pub struct Row {
    /// The word that calls it.
    pub word: &'static str,
    /// The command.
    pub command: Name,
    /// What it is given.
    pub rule: Rule,
}

static ROWS: &[Row] = &[
    Row {
        word: "burst",
        command: Name::Burst,
        rule: Rule::File,
    },
    Row {
        word: "join",
        command: Name::Join,
        rule: Rule::File,
    },
    Row {
        word: "send",
        command: Name::Send,
        rule: Rule::File,
    },
    Row {
        word: "receive",
        command: Name::Receive,
        rule: Rule::File,
    },
    Row {
        word: "link",
        command: Name::Link,
        rule: Rule::File,
    },
    Row {
        word: "generate",
        command: Name::Generate,
        rule: Rule::NumberAndPrefix,
    },
    Row {
        word: "duplex",
        command: Name::Duplex,
        rule: Rule::File,
    },
    Row {
        word: "oobwrite",
        command: Name::OobWrite,
        rule: Rule::File,
    },
    Row {
        word: "oobread",
        command: Name::OobRead,
        rule: Rule::File,
    },
    Row {
        word: "resend",
        command: Name::Resend,
        rule: Rule::File,
    },
    Row {
        word: "stripe",
        command: Name::Stripe,
        rule: Rule::File,
    },
    Row {
        word: "gather",
        command: Name::Gather,
        rule: Rule::File,
    },
    Row {
        word: "damage",
        command: Name::Damage,
        rule: Rule::File,
    },
    Row {
        word: "inspect",
        command: Name::Inspect,
        rule: Rule::File,
    },
    Row {
        word: "check",
        command: Name::Check,
        rule: Rule::File,
    },
    Row {
        word: "list",
        command: Name::List,
        rule: Rule::File,
    },
    Row {
        word: "assemble",
        command: Name::Assemble,
        rule: Rule::File,
    },
];

/// The table.
#[tactic(auto, unfolding(crate::specs::Table::rows))]
pub fn rows() -> &'static [Row]
    ensures { map shown result.now ≡ rows }
{
    ROWS
}

/// The row of a word.
pub fn row_in(table: &[Row], word: &str) -> Option<Row>
    ensures { option_map shown result ≡ row_in (map shown table.now) word.now }
{
    for i in 0..table.len() {
        if word == table[i].word {
            return Some(table[i]);
        }
    }
    None
}
