//! What words ask for.
// why: FILE.plan is told from another file when a request is made, and not by a rule of arguments of its own.
ghost use Rattle.std.specs.Prelude.{◌≡◌, map, is_some, IfOk, IfErr, IsSome, string_bytes};
ghost use Rattle.interlaken.specs.Request.{is_plan_name, burst_of, join_of, IsGivenTo, request_for, request_by, request_of};
ghost use Rattle.command_words.specs.CommandLine.{words_of};

use case_commands::GenerateCase;
use check_commands::Check;
use command_words::{Arguments, CommandLine, Name, arguments_of, line_of, read_line, row_in, rows};
use damage_commands::Damage;
use duplex_commands::DuplexFile;
use gather_commands::Gather;
use inspect_commands::Inspect;
use join_commands::{JoinPlan, JoinWords};
use lane_commands::Stripe;
use link_commands::LinkPlan;
use listing_commands::{AssembleText, ListFile};
use lk_base::OutOfMemory;
use lk_outside::Store;
use oob_commands::{OobRead, OobWrite};
use receive_commands::Receive;
use resend_commands::ResendPlan;
use run_shell::{Command, Finished, WithFile};
use run_stops::Stop;
use std::alloc::Global;
use stream_commands::{BurstCapture, BurstPlan, SendPlan};

/// A command of the program, with its arguments.
#[derive(Drop)]
pub enum Request<'w> {
    /// A capture becomes a words file.
    BurstCapture(WithFile<'w, BurstCapture>),
    /// A plan becomes a words file.
    BurstPlan(WithFile<'w, BurstPlan>),
    /// A words file becomes a capture and a span table.
    JoinWords(WithFile<'w, JoinWords>),
    /// The words file of a plan becomes captures and a span table.
    JoinPlan(WithFile<'w, JoinPlan>),
    /// A plan becomes lane files.
    SendPlan(WithFile<'w, SendPlan>),
    /// The lane files of a plan become captures and a span table.
    Receive(WithFile<'w, Receive>),
    /// A plan is sent over the lanes of its link, and received.
    Link(WithFile<'w, LinkPlan>),
    /// A case of a number is written, sent and received.
    Generate(GenerateCase<'w>),
    /// Two ends that hold each other back become the captures of what each got.
    Duplex(WithFile<'w, DuplexFile>),
    /// The calendar of a plan and its local rows become samples.
    OobWrite(WithFile<'w, OobWrite>),
    /// The samples of a plan become a flow file.
    OobRead(WithFile<'w, OobRead>),
    /// The stream of a plan is carried over a link that loses, repeats and delays.
    Resend(WithFile<'w, ResendPlan>),
    /// The words file of a plan becomes lane files.
    Stripe(WithFile<'w, Stripe>),
    /// The words of a plan's lanes are gathered in one order.
    Gather(WithFile<'w, Gather>),
    /// The schedule of a plan is applied to its lanes.
    Damage(WithFile<'w, Damage>),
    /// What each lane of a plan shows is told, and where.
    Inspect(WithFile<'w, Inspect>),
    /// The words file of a plan is judged by the rules of a sender.
    Check(WithFile<'w, Check>),
    /// A words file or a lane file becomes its listing.
    ListFile(WithFile<'w, ListFile>),
    /// A text becomes the file of which it is the listing.
    AssembleText(WithFile<'w, AssembleText>),
}

impl Command for Request<'_> {
    ghost use Rattle.interlaken.specs.Meanings.{meaning_of};

    ghost meaning = { meaning_of };

    fn obey<S: Store>(&self, alloc: Global, store: &mut S) -> Result<Finished, Stop> {
        match self {
            Request::BurstCapture(burst) => burst.obey(alloc, store),
            Request::BurstPlan(burst) => burst.obey(alloc, store),
            Request::JoinWords(join) => join.obey(alloc, store),
            Request::JoinPlan(join) => join.obey(alloc, store),
            Request::SendPlan(send) => send.obey(alloc, store),
            Request::Receive(receive) => receive.obey(alloc, store),
            Request::Link(link) => link.obey(alloc, store),
            Request::Generate(generate) => generate.obey(alloc, store),
            Request::Duplex(duplex) => duplex.obey(alloc, store),
            Request::OobWrite(write) => write.obey(alloc, store),
            Request::OobRead(read) => read.obey(alloc, store),
            Request::Resend(resend) => resend.obey(alloc, store),
            Request::Stripe(stripe) => stripe.obey(alloc, store),
            Request::Gather(gather) => gather.obey(alloc, store),
            Request::Damage(damage) => damage.obey(alloc, store),
            Request::Inspect(inspect) => inspect.obey(alloc, store),
            Request::Check(check) => check.obey(alloc, store),
            Request::ListFile(list) => list.obey(alloc, store),
            Request::AssembleText(assemble) => assemble.obey(alloc, store),
        }
    }
}

// Whether a word names a plan.
fn is_plan_name(word: &str) -> bool
    ensures { result ≡ is_plan_name word.now }
{
    word.as_bytes().ends_with(b".plan")
}

// What `burst` makes of a file, by its name.
fn burst_of<'w>(file: &'w str) -> Request<'w>
    ensures { result ≡ burst_of file.now }
{
    if is_plan_name(file) {
        Request::BurstPlan(WithFile::new(file))
    } else {
        Request::BurstCapture(WithFile::new(file))
    }
}

// What `join` makes of a file, by its name.
fn join_of<'w>(file: &'w str) -> Request<'w>
    ensures { result ≡ join_of file.now }
{
    if is_plan_name(file) {
        Request::JoinPlan(WithFile::new(file))
    } else {
        Request::JoinWords(WithFile::new(file))
    }
}

// A command with its arguments.
fn request_for<'w>(command: Name, arguments: &Arguments<'w>) -> Request<'w>
    requires { IsGivenTo command arguments.now }
    ensures { result ≡ request_for command arguments.now }
{
    match command {
        Name::Burst => burst_of(arguments.file),
        Name::Join => join_of(arguments.file),
        Name::Send => Request::SendPlan(WithFile::new(arguments.file)),
        Name::Receive => Request::Receive(WithFile::new(arguments.file)),
        Name::Link => Request::Link(WithFile::new(arguments.file)),
        Name::Generate => Request::Generate(GenerateCase::new(arguments.number, arguments.file)),
        Name::Duplex => Request::Duplex(WithFile::new(arguments.file)),
        Name::OobWrite => Request::OobWrite(WithFile::new(arguments.file)),
        Name::OobRead => Request::OobRead(WithFile::new(arguments.file)),
        Name::Resend => Request::Resend(WithFile::new(arguments.file)),
        Name::Stripe => Request::Stripe(WithFile::new(arguments.file)),
        Name::Gather => Request::Gather(WithFile::new(arguments.file)),
        Name::Damage => Request::Damage(WithFile::new(arguments.file)),
        Name::Inspect => Request::Inspect(WithFile::new(arguments.file)),
        Name::Check => Request::Check(WithFile::new(arguments.file)),
        Name::List => Request::ListFile(WithFile::new(arguments.file)),
        Name::Assemble => Request::AssembleText(WithFile::new(arguments.file)),
    }
}

// What a command line asks for, where it is accepted.
fn request_by<'w>(line: &CommandLine<'w>) -> Option<Request<'w>>
    ensures { result ≡ request_of (words_of line.now) }
{
    let row = row_in(rows(), line.command)?;
    let arguments = arguments_of(row.rule, line)?;
    Some(request_for(row.command, &arguments))
}

// Whether the words are accepted.
fn are_accepted(words: &[String]) -> bool
    ensures { result ≡ is_some (request_of (map string_bytes words.now)) }
{
    match line_of(words) {
        Some(line) => request_by(&line).is_some(),
        None => false,
    }
}

/// What the words ask for, where they are accepted.
///
/// The rule is judged first: `Ok(None)` comes exactly where the words are not accepted, and `OutOfMemory` only where they
/// are, from the reading.
pub fn request_of<'w>(
    alloc: Global,
    words: &'w [String],
) -> Result<Option<Request<'w>>, OutOfMemory>
    ensures memory { IfErr result (λ e. IsSome (request_of (map string_bytes words.now))) }
    ensures request { IfOk result (λ r. r ≡ request_of (map string_bytes words.now)) }
{
    if !are_accepted(words) {
        return Ok(None);
    }
    let line = read_line(alloc, words)?;
    Ok(request_by(&line))
}
