//! The calls of `word_list` on blocks of received words.
use crate::lines::tell;
use crate::values::tell_words;
use lk_base::{OutOfMemory, RxWord};
use std::alloc::Global;
use std::io;
use word_list::RxBlock;

const LANES: usize = 2;

// The words of each of two lanes.
const FIRST: [RxWord; 3] = [RxWord::Data(1), RxWord::Data(3), RxWord::Bad];

const SECOND: [RxWord; 3] = [RxWord::Data(2), RxWord::Control(4), RxWord::Data(6)];

// Writes the words of two lanes into a block, row by row, and a word over the last.
fn filled(alloc: Global) -> Result<RxBlock, OutOfMemory> {
    let mut block = RxBlock::new(alloc, 8)?;
    block.resize(6);
    block.spread(&FIRST, 0, LANES);
    block.spread(&SECOND, 1, LANES);
    block.set(5, RxWord::Data(7));
    Ok(block)
}

// The numbers of the first run of data words, with the count of words before and after all are taken out.
fn block_text(alloc: Global) -> Result<String, OutOfMemory> {
    let mut block = filled(alloc)?;
    let words = block.len();
    let run = format!(in alloc; "{:?}", block.data_run(0))?;
    block.clear();
    Ok(format!(in alloc;
        "run {run} of {words} words, room {}, then {}",
        block.room(),
        block.len()
    )?)
}

fn word_of(block: &RxBlock, number: usize) -> Option<RxWord> {
    if number < block.len() {
        Some(block.get(number))
    } else {
        None
    }
}

/// Prints the words of a block.
pub fn tell_all(rt: &HostRuntime) -> io::Result<()> {
    tell(rt, "a block of two lanes", block_text(rt.alloc()))?;
    match filled(rt.alloc()) {
        Ok(block) => tell_words(
            rt,
            &[
                ("word 3 of the block", word_of(&block, 3)),
                ("word 4 of the block", word_of(&block, 4)),
                ("word 5 of the block", word_of(&block, 5)),
            ],
        ),
        Err(_) => Ok(()),
    }
}
