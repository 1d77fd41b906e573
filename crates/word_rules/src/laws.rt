//! Laws on the definitions.
ghost use Rattle.std.specs.Prelude.{◌≡◌, ◌<◌, ◌==◌, ℕ, Option, List, ◌∷◌, ◌++◌, filter, length, map, reverse};
ghost use Rattle.std.specs.List.{range_with_len};
ghost use Rattle.lk_base.specs.declared.word.RxWord.{RxWord};
ghost use Rattle.receive_model.specs.Lists.{first_of};
ghost use Rattle.word_rules.specs.Examples.{Examples};
ghost use Rattle.word_rules.specs.Faults.{Plan, faults, faults_at, with_flow};
ghost use Rattle.word_rules.specs.Flows.{with_row};
ghost use Rattle.word_rules.specs.Names.{all_rules, rule_place};
ghost use Rattle.word_rules.specs.Order.{InOrderOfWord};
ghost use Rattle.word_rules.specs.declared.fault.Fault.{Fault};

use crate::rule::WordRule;

/// Worked examples: the faults of short lists of words.
pub fn examples()
    ensures { Examples }
{}

/// Returns `rule`: `WordRule::ALL` has each rule at its place.
pub fn rule_at_its_place(rule: WordRule) -> WordRule
    ensures { result ≡ rule }
{
    WordRule::ALL[rule.place()]
}

/// The places of the rules are 0 to 18 in the order of `WordRule::ALL`: it has each rule once.
pub fn rules_have_places()
    ensures { map rule_place all_rules ≡ range_with_len 0 19 }
{}

/// The rows of a word among those of a list are the word's own, by the words before it and the one after it.
pub fn rows_of_a_word()
    ensures { (p : Plan) (before after : List RxWord) (word : RxWord) → filter (λ (f : Fault). f.word == length before) (faults p (before ++ word ∷ after)) ≡ faults_at p (reverse before) word (first_of after) }
{}

/// Rows stand in order of word.
pub fn rows_stand_in_order()
    ensures { (p : Plan) (words : List RxWord) → InOrderOfWord (faults p words) }
{}

/// A row of flow control whose slot is after a word changes no row of the word.
pub fn rows_to_come_change_nothing()
    ensures { (p : Plan) (earlier : List RxWord) (word : RxWord) (next : Option RxWord) (slot heard : ℕ) → length earlier < slot →
        faults_at (with_flow p (with_row p.flow slot heard)) earlier word next ≡ faults_at p earlier word next }
{}
