ghost use Rattle.std.specs.Prelude.{◌≡◌, ◌*◌, ◌-◌, ◌^◌, ◌%◌, ◌≤◌, ◌<◌, ◌++◌, ℕ, [], get_or};
ghost use Rattle.lk_base.specs.Checksum.{bits_of, bits_of_words, register_after};
ghost use Rattle.lk_crc.specs.Slices.{AreSlices};

/// The entry of a row for the lowest eight bits of a number.
#[inline(always)]
pub fn entry<const ROW: usize>(rows: &[[u32; 256]; 8], number: u64) -> u32
    requires row { ROW < 8 }
    ensures { result ≡ get_or (get_or rows.now ROW []) (number % 256) 0 }
{
    rows[ROW][(number % 256) as usize]
}

// The register, from zeros, after the 64 bits of a word and then the zeros of the table. The highest bytes come last, as a
// register that is mixed into them may.
#[inline(always)]
fn by_bytes(rows: &[[u32; 256]; 8], word: u64) -> u32
    ensures { (w p tail : ℕ) → AreSlices w p tail rows.now → result ≡ register_after w p 0 (bits_of 64 word ++ bits_of tail 0) }
{
    entry::<0>(rows, word)
        ^ entry::<1>(rows, word >> 8)
        ^ entry::<2>(rows, word >> 16)
        ^ entry::<3>(rows, word >> 24)
        ^ entry::<4>(rows, word >> 32)
        ^ entry::<5>(rows, word >> 40)
        ^ entry::<6>(rows, word >> 48)
        ^ entry::<7>(rows, word >> 56)
}

/// The register after the 64 bits of a word, by the table of the bytes of one word.
#[inline(always)]
pub fn after_word<const WIDTH: u32>(near: &[[u32; 256]; 8], register: u32, word: u64) -> u32
    requires width { (1 ≤ WIDTH) × (WIDTH ≤ 32) }
    ensures { (p : ℕ) → AreSlices WIDTH p 0 near.now → result ≡ register_after WIDTH p register (bits_of 64 word) }
{
    by_bytes(near, word ^ ((register as u64) << (64 - WIDTH)))
}

// The register after the bits of two words, by the tables of one word and of the word before it. The second word does not wait
// for the register.
#[inline(always)]
fn after_pair<const WIDTH: u32>(
    near: &[[u32; 256]; 8],
    far: &[[u32; 256]; 8],
    register: u32,
    first: u64,
    second: u64,
) -> u32
    requires width { (1 ≤ WIDTH) × (WIDTH ≤ 32) }
    ensures { (p : ℕ) → AreSlices WIDTH p 0 near.now → AreSlices WIDTH p 64 far.now → result ≡ register_after WIDTH p register (bits_of 64 first ++ bits_of 64 second) }
{
    by_bytes(near, second) ^ by_bytes(far, first ^ ((register as u64) << (64 - WIDTH)))
}

/// The register after the bits of these words, two words a step.
#[inline(always)]
pub fn after_words<const WIDTH: u32>(
    near: &[[u32; 256]; 8],
    far: &[[u32; 256]; 8],
    register: u32,
    words: &[u64],
) -> u32
    requires width { (1 ≤ WIDTH) × (WIDTH ≤ 32) }
    ensures { (p : ℕ) → AreSlices WIDTH p 0 near.now → AreSlices WIDTH p 64 far.now → result ≡ register_after WIDTH p register (bits_of_words words.now) }
{
    let mut stepped = register;
    let mut rest = words;
    while let [first, second, others @ ..] = rest {
        stepped = after_pair::<WIDTH>(near, far, stepped, *first, *second);
        rest = others;
    }
    match rest {
        [last, ..] => after_word::<WIDTH>(near, stepped, *last),
        [] => stepped,
    }
}
