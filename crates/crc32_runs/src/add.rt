ghost use Rattle.std.specs.Prelude.{◌≡◌, ◌-◌, ◌<◌, bit_xor, length};
ghost use Rattle.crc32_runs.specs.Registers.{later, register_of, taken};

/// Adds a word to the one at this place. The register that the words lead to adds up with the one that the word leads to later.
#[inline(always)]
pub fn add_at(words: &mut [u64], at: usize, word: u64)
    requires { at < length words.old }
    ensures register { register_of words.new ≡ bit_xor (register_of words.old) (later (length words.old - 1 - at) (taken word)) }
    ensures length { length words.new ≡ length words.old }
{
    words[at] ^= word;
}
