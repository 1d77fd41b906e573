//! Worked examples of numbers and prefixes.
ghost use Rattle.std.specs.Prelude.{◌≡◌, [], ◌∷◌, Some, None, codes, replicate};
ghost use Rattle.command_words.specs.declared.table.Rule.TheVariants as rules;
ghost use Rattle.command_words.specs.Arguments.{arguments_of, number_of_word};

/// Worked examples: a number and a prefix. A number has 1 to 20 decimal digits, zeros before it among them, and is below
/// 2^64; a prefix has 1 to 180 bytes and begins with no dash.
#[tactic(auto, unfolding(csv_rows::specs::Fields::decimal_from))]
pub fn numbers()
    ensures one_digit { number_of_word (codes "7") ≡ Some 7 }
    ensures zeros { number_of_word (codes "00000000000000000007") ≡ Some 7 }
    ensures too_many { number_of_word (codes "000000000000000000007") ≡ None }
    ensures greatest { number_of_word (codes "18446744073709551615") ≡ Some 18446744073709551615 }
    ensures too_great { number_of_word (codes "18446744073709551616") ≡ None }
    ensures no_digit { number_of_word [] ≡ None }
    ensures a_sign { number_of_word (codes "+1") ≡ None }
    ensures a_letter { number_of_word (codes "1x") ≡ None }
    ensures both { arguments_of rules.NumberAndPrefix (codes "7" ∷ codes "g" ∷ []) ≡ Some (record { number = 7; file = codes "g" }) }
    ensures longest { arguments_of rules.NumberAndPrefix (codes "7" ∷ replicate 180 97 ∷ []) ≡ Some (record { number = 7; file = replicate 180 97 }) }
    ensures too_long { arguments_of rules.NumberAndPrefix (codes "7" ∷ replicate 181 97 ∷ []) ≡ None }
    ensures no_prefix { arguments_of rules.NumberAndPrefix (codes "7" ∷ []) ≡ None }
    ensures empty { arguments_of rules.NumberAndPrefix (codes "7" ∷ [] ∷ []) ≡ None }
    ensures dash { arguments_of rules.NumberAndPrefix (codes "7" ∷ codes "-g" ∷ []) ≡ None }
    ensures no_number { arguments_of rules.NumberAndPrefix (codes "1x" ∷ codes "p" ∷ []) ≡ None }
{}
