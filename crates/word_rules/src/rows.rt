//! The rows of one word, put after those of the words before it.
ghost use Rattle.std.specs.Prelude.{◌≡◌, ◌≤◌, ◌+◌, ◌++◌, ◌<◌, ◌^◌, IsOk, List, OnOk, vec_capacity, vec_len};
ghost use Rattle.std.specs.Option.{option_to_list};
ghost use Rattle.lk_base.specs.declared.word.RxWord.{RxWord};
ghost use Rattle.word_rules.specs.Rules.{breaks_control, breaks_empty, is_next_control};
ghost use Rattle.word_rules.specs.Faults.{empty_rows, row};
ghost use Rattle.word_rules.specs.Stands.{IsBefore};
ghost use Rattle.word_rules.specs.ByFields.{burst_rows_by, channel_by, data_rows_by, word_rows_by};

use crate::before::{Before, is_burst_word};
use crate::fault::Fault;
use crate::limits::WordLimits;
use crate::rule::WordRule;
use control_words::ControlWord;
use lk_base::{OutOfMemory, RxWord};

/// Puts a row after the others where the rule is broken.
pub fn tell(
    faults: &mut Vec<Fault>,
    word: u64,
    rule: WordRule,
    channel: Option<u16>,
    broken: bool,
) -> Result<(), OutOfMemory>
    ensures rows { OnOk result (faults.new.items ≡ faults.old.items ++ row word rule channel broken) }
    ensures room { vec_len faults.old + 1 ≤ vec_capacity faults.old → IsOk result }
    ensures kept { vec_capacity faults.old ≤ vec_capacity faults.new }
    ensures few { vec_len faults.new ≤ vec_len faults.old + 1 }
{
    if broken {
        faults.push(Fault {
            word,
            rule,
            channel,
        })?;
    }
    Ok(())
}

// Whether the next word is there, and is a Control word.
fn is_next_control(next: Option<RxWord>) -> bool
    ensures { result ≡ is_next_control next }
{
    matches!(next, Some(RxWord::Control(_)))
}

/// Whether a Control word breaks `empty`.
pub fn breaks_empty(word: ControlWord, next: Option<RxWord>) -> bool
    ensures { result ≡ breaks_empty word.0 next }
{
    is_burst_word(word) && is_next_control(next)
}

impl Before {
    /// The channel of the burst right before the place.
    pub fn channel(self, wide: bool) -> Option<u16>
        ensures { result ≡ channel_by wide self }
    {
        self.burst.map(|word| ControlWord(word).channel(wide))
    }

    /// The row of `empty` of the word right before the place, if the word at the place shows that it is broken.
    pub fn empty_before(self, limits: WordLimits, next: RxWord) -> Option<Fault>
        requires { (earlier : List RxWord) × IsBefore self earlier }
        ensures { (earlier : List RxWord) → IsBefore self earlier → option_to_list result ≡ empty_rows limits earlier next }
    {
        let word = self.burst?;
        if self.size != 0 || !is_next_control(Some(next)) {
            return None;
        }
        Some(Fault {
            word: self.number - 1,
            rule: WordRule::Empty,
            channel: Some(ControlWord(word).channel(limits.wide)),
        })
    }

    /// Adds the rows of a Data word.
    pub fn data_rows(self, limits: WordLimits, faults: &mut Vec<Fault>) -> Result<(), OutOfMemory>
        ensures rows { OnOk result (faults.new.items ≡ faults.old.items ++ data_rows_by limits self) }
        ensures room { vec_len faults.old + 2 ≤ vec_capacity faults.old → IsOk result }
        ensures kept { vec_capacity faults.old ≤ vec_capacity faults.new }
        ensures few { vec_len faults.new ≤ vec_len faults.old + 2 }
    {
        let channel = self.channel(limits.wide);
        let (data, max) = (self.breaks_data(), self.breaks_max(limits));
        tell(faults, self.number, WordRule::Data, None, data)?;
        tell(faults, self.number, WordRule::Max, channel, max)
    }

    /// Adds the rows of a Control word by how it stands among the words.
    pub fn word_rows(
        self,
        limits: WordLimits,
        word: ControlWord,
        next: Option<RxWord>,
        faults: &mut Vec<Fault>,
    ) -> Result<(), OutOfMemory>
        ensures rows { OnOk result (faults.new.items ≡ faults.old.items ++ word_rows_by limits self word.0 next) }
        ensures room { vec_len faults.old + 5 ≤ vec_capacity faults.old → IsOk result }
        ensures kept { vec_capacity faults.old ≤ vec_capacity faults.new }
        ensures few { vec_len faults.new ≤ vec_len faults.old + 5 }
    {
        let number = self.number;
        let own = Some(word.channel(limits.wide));
        let refused = !word.is_accepted();
        let empty = breaks_empty(word, next);
        let short = self.breaks_short(limits, word);
        tell(faults, number, WordRule::Control, None, refused)?;
        tell(faults, number, WordRule::Crc, None, self.breaks_crc(word))?;
        tell(faults, number, WordRule::Empty, own, empty)?;
        tell(faults, number, WordRule::Short, own, short)?;
        tell(faults, number, WordRule::End, None, self.breaks_end(word))
    }

    /// Adds the rows of a Control word by the burst that it closes.
    pub fn burst_rows(
        self,
        limits: WordLimits,
        word: ControlWord,
        faults: &mut Vec<Fault>,
    ) -> Result<(), OutOfMemory>
        requires { self.size < 2 ^ 60 }
        ensures rows { OnOk result (faults.new.items ≡ faults.old.items ++ burst_rows_by limits self word.0) }
        ensures room { vec_len faults.old + 3 ≤ vec_capacity faults.old → IsOk result }
        ensures kept { vec_capacity faults.old ≤ vec_capacity faults.new }
        ensures few { vec_len faults.new ≤ vec_len faults.old + 3 }
    {
        let number = self.number;
        let channel = self.channel(limits.wide);
        let (fill, part) = (self.breaks_fill(word), self.breaks_part(word));
        tell(faults, number, WordRule::Fill, channel, fill)?;
        tell(faults, number, WordRule::Part, channel, part)?;
        let min = self.breaks_min(limits, word);
        tell(faults, number, WordRule::Min, channel, min)
    }
}
