ghost use Rattle.std.specs.Prelude.{◌≡◌, ◌+◌, ◌*◌, ◌≤◌, ◌<◌, ◌^◌, ◌++◌, ◌⊎◌, ℕ, Bool, false, List, [], ◌∷◌, None, length, All, IsTrue};
ghost use Rattle.std.specs.List.Sorted.{IsNonDecreasingBy};
ghost use Rattle.lk_base.specs.Checksum.{control_crc};
ghost use Rattle.control_words.specs.ControlWord.{IsWordOf};
ghost use Rattle.control_words.specs.declared.fields.Control.{Control};
ghost use Rattle.control_words.specs.declared.fields.Eop.TheVariants.{Going};
ghost use Rattle.stream_model.specs.Calendar.{is_valid, is_reset, word_number};
ghost use Rattle.stream_model.specs.declared.rows.FlowRow.{FlowRow};
ghost use Rattle.stream_model.specs.declared.rows.LocalRow.{LocalRow};
ghost use Rattle.oob_flow.specs.Frames.{frame_samples, frame_length};
ghost use Rattle.oob_flow.specs.Samples.{is_sample, first_bad};
ghost use Rattle.oob_flow.specs.Words.{idle_word};
ghost use Rattle.oob_flow.specs.Written.{AreWritten};
ghost use Rattle.oob_flow.specs.Reading.{rows_of_samples};
ghost use Rattle.oob_flow.specs.ReadBack.{ShowsFrame};

/// A frame has as many samples as its entries say, and each is a sample.
pub fn frames_have_one_length()
    ensures length { (states : List Bool) → 1 ≤ length states → length (frame_samples states) ≡ frame_length (length states) }
    ensures samples { (states : List Bool) → All (λ sample. IsTrue (is_sample sample)) (frame_samples states) }
{}

/// A calendar and local rows have at most one list of samples that is written.
pub fn one_writing()
    ensures { (entries : List ℕ) (local : List LocalRow) (first second : List ℕ) → AreWritten entries local first → AreWritten entries local second → first ≡ second }
{}

/// A calendar with an entry and any local rows have one.
pub fn some_writing()
    ensures { (entries : List ℕ) (local : List LocalRow) → 1 ≤ length entries → (samples : List ℕ) × AreWritten entries local samples }
{}

/// No byte of what is written is refused when it is read.
pub fn written_samples_are_accepted()
    ensures { (entries : List ℕ) (local : List LocalRow) (samples : List ℕ) → AreWritten entries local samples → first_bad samples ≡ None }
{}

/// What samples give stands, whatever comes after them.
pub fn rows_go_on()
    ensures { (entries : ℕ) (samples more : List ℕ) → 1 ≤ entries → (later : List FlowRow) × (rows_of_samples entries (samples ++ more) ≡ rows_of_samples entries samples ++ later) }
{}

/// The rows that any samples give are in order of slots; each slot is the number of a sample, and each word has 64 bits.
pub fn rows_are_in_order()
    ensures order { (entries : ℕ) (samples : List ℕ) → 1 ≤ entries → IsNonDecreasingBy (λ (row : FlowRow). row.slot) (rows_of_samples entries samples) }
    ensures slots { (entries : ℕ) (samples : List ℕ) → 1 ≤ entries → All (λ (row : FlowRow). row.slot < length samples) (rows_of_samples entries samples) }
    ensures words { (entries : ℕ) (samples : List ℕ) → 1 ≤ entries → All (λ (row : FlowRow). row.word < 2 ^ 64) (rows_of_samples entries samples) }
{}

/// Each row takes ten samples at least.
pub fn rows_are_few()
    ensures { (entries : ℕ) (samples : List ℕ) → 1 ≤ entries → 10 * length (rows_of_samples entries samples) ≤ length samples + 1 }
{}

/// The word 0, which stands for a wrong checksum, is an invalid word: no word after it counts before one with the reset bit. Each
/// word that samples give is 0 or valid.
pub fn a_wrong_block_is_an_invalid_word()
    ensures invalid { is_valid 0 ≡ false }
    ensures ends_counting { (later earlier : List ℕ) → All (λ word. is_reset word ≡ false) later → word_number (later ++ 0 ∷ earlier) ≡ None }
    ensures words { (entries : ℕ) (samples : List ℕ) → 1 ≤ entries → All (λ (row : FlowRow). (row.word ≡ 0) ⊎ IsTrue (is_valid row.word)) (rows_of_samples entries samples) }
{}

/// Let what was written be read. After the rows of a frame each channel that has a calendar entry is on exactly where it
/// was on in that frame.
pub fn read_what_was_written()
    ensures { (entries : List ℕ) (local : List LocalRow) (samples : List ℕ) (written : AreWritten entries local samples) (k : ℕ) → 1 ≤ length entries → k ≤ written.last → ShowsFrame entries local samples written k }
{}

/// An idle word is the control word with its reset bit and its flow bits, without a start and an end, of channel 0, with no
/// multiple use, and with the checksum of the word alone.
pub fn idle_words_are_control_words()
    ensures fields { (reset : Bool) (flow : ℕ) (c : Control) → flow < 2 ^ 16 → c.burst ≡ false → c.sop ≡ false → c.eop ≡ Going → c.reset ≡ reset → c.flow ≡ flow → c.channel ≡ 0 → c.multi ≡ 0 → IsWordOf c (control_crc [] (idle_word reset flow)) (idle_word reset flow) }
    ensures valid { (reset : Bool) (flow : ℕ) → flow < 2 ^ 16 → IsTrue (is_valid (idle_word reset flow)) }
{}
