//! The numbers of words and breaks.
ghost use Rattle.std.specs.Prelude.{◌≡◌, ◌++◌, [], ◌∷◌, List};
ghost use Rattle.lk_base.specs.declared.word.Aligned.{Aligned as Item};
ghost use Rattle.lane_words.specs.Gathered.{between, is_break, own_words};
ghost use Rattle.live_gatherer.specs.Numbers.{Counts, as_number, count_words, next_number};

use lk_base::Aligned;

/// What was counted of items.
#[derive(Clone, Copy, Debug)]
pub struct Numbering {
    /// How many words stand before the next item, or 2^64 - 1 if there are more; the one for a break right before it is not among them.
    pub words: u64,
    /// The last item was a break.
    pub broken: bool,
}

// Whether an epoch ends with the item.
fn is_break(item: Aligned) -> bool
    ensures { result ≡ is_break item }
{
    matches!(item, Aligned::Break(_, _))
}

// How many words the item is: one or none.
fn word_count(item: Aligned) -> u64
    ensures { result ≡ count_words (own_words item) }
{
    match item {
        Aligned::Word(_, _) => 1,
        Aligned::Group(_) | Aligned::Break(_, _) => 0,
    }
}

// How many words stand for a break right before the next item.
fn between_count(broken: bool) -> u64
    ensures { result ≡ count_words (between broken) }
{
    if broken { 1 } else { 0 }
}

impl Numbering {
    /// No item was counted.
    pub fn new() -> Numbering
        ensures { Counts result [] }
    {
        Numbering {
            words: 0,
            broken: false,
        }
    }

    /// Counts the next item, and returns its number.
    pub fn number(&mut self, item: Aligned) -> u64
        ensures counts { (items : List Item) → Counts self.old items → Counts self.new (items ++ item ∷ []) }
        ensures number { (items : List Item) → Counts self.old items → result ≡ as_number (next_number items) }
    {
        let number = self.words.saturating_add(between_count(self.broken));
        self.words = number.saturating_add(word_count(item));
        self.broken = is_break(item);
        number
    }
}
