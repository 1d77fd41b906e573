//! Numbers of the command line.
ghost use Rattle.std.specs.Prelude.{◌≡◌, ◌≤◌, length, true};
ghost use Rattle.std.specs.Char.{is_ascii_digit};
ghost use Rattle.std.specs.List.{list_all};
ghost use Rattle.csv_rows.specs.Fields.{decimal_from};
ghost use Rattle.command_words.specs.Arguments.{number_of_word};

use csv_rows::are_digits;

// What at most 20 digits spell.
fn decimal(bytes: &[u8]) -> u128
    requires few { length bytes.now ≤ 20 }
    requires digits { list_all is_ascii_digit bytes.now ≡ true }
    ensures { result ≡ decimal_from 0 bytes.now }
{
    let mut number: u128 = 0;
    for b in bytes {
        number = 10 * number + (*b - b'0') as u128;
    }
    number
}

/// The number that a word of 1 to 20 decimal digits spells, where it is below 2^64.
pub fn number_of_word(word: &str) -> Option<u64>
    ensures { result ≡ number_of_word word.now }
{
    let bytes = word.as_bytes();
    if bytes.is_empty() || bytes.len() > 20 || !are_digits(bytes) {
        return None;
    }
    let number = decimal(bytes);
    if number <= u64::MAX as u128 {
        Some(number as u64)
    } else {
        None
    }
}
