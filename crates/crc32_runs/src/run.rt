ghost use Rattle.std.specs.Prelude.{◌≡◌, ◌^◌};
ghost use Rattle.lk_base.specs.Checksum.{bits_of_words, register_after};

use crate::far::fold_far;
use crate::near::fold_near;
use lk_crc::crc32_words;

// So few words are taken as they are.
const FEW: usize = 86;

/// Returns the register of CRC32 after the bits of these words, in order, as `crc32_words` does. The words are used up: what is
/// left in their places says nothing.
pub fn crc32_run(register: u32, words: &mut [u64]) -> u32
    ensures { result ≡ register_after 32 0x1EDC6F41 register (bits_of_words words.old) }
{
    if words.len() <= FEW {
        return crc32_words(register, words);
    }
    words[0] ^= (register as u64) << 32;
    let at = fold_far(words);
    crc32_near(&mut words[at..])
}

// Returns the register of CRC32 after the bits of these words, from zeros.
fn crc32_near(words: &mut [u64]) -> u32
    ensures { result ≡ register_after 32 0x1EDC6F41 0 (bits_of_words words.old) }
{
    let at = fold_near(words);
    crc32_words(0, &words[at..])
}
