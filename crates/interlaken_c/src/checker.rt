//! The calls on a checker.
ghost use Rattle.c_checker.specs.Held.{FinishesWords, FreesChecker, GivesFault, GivesMany, GivesWord, HearsFlow, MakesChecker};

use c_checker::{CFault, CWord, CheckerHandle};
use c_parts::Refusal;
use std::alloc::Global;

/// Opens a checker by the plan of these bytes behind a handle that has none, and writes why a plan is refused. It is `DONE`,
/// `OUT_OF_MEMORY`, `BAD_PLAN` or `IN_USE`.
#[unsafe(no_mangle)]
pub extern "C" fn interlaken_checker_new(
    alloc: Global,
    checker: &mut CheckerHandle,
    plan: &[u8],
    refusal: &mut Refusal,
) -> u32
    ensures { MakesChecker checker.old.at.checker checker.new.at.checker plan.now result refusal.new }
{
    c_checker::new(alloc, checker, plan, refusal)
}

/// Frees a checker. Its handle has none afterwards. It is `DONE` or `NO_CHECKER`.
#[unsafe(no_mangle)]
pub extern "C" fn interlaken_checker_free(alloc: Global, checker: &mut CheckerHandle) -> u32
    ensures { FreesChecker checker.old.at.checker checker.new.at.checker result }
{
    c_checker::free(alloc, checker)
}

/// Gives the next word, of this kind and number. It is `DONE`, `FINISHED`, `WAITING`, `TOO_MANY`, `OUT_OF_RANGE` or `NO_CHECKER`.
#[unsafe(no_mangle)]
pub extern "C" fn interlaken_checker_word(
    alloc: Global,
    checker: &mut CheckerHandle,
    kind: u32,
    number: u64,
) -> u32
    ensures { GivesWord checker.old.at.checker checker.new.at.checker kind number result }
{
    c_checker::word(alloc, checker, kind, number)
}

/// Gives words one after another, up to the first that shows a fault and with it, and writes how many are taken. It is `DONE`, `FINISHED`,
/// `WAITING`, `TOO_MANY`, `OUT_OF_RANGE` or `NO_CHECKER`.
#[unsafe(no_mangle)]
pub extern "C" fn interlaken_checker_words(
    alloc: Global,
    checker: &mut CheckerHandle,
    words: &[CWord],
    taken: &mut usize,
) -> u32
    ensures { GivesMany checker.old.at.checker checker.new.at.checker words.now result taken.new }
{
    c_checker::words(alloc, checker, words, taken)
}

/// Gives a control word of the far end that was verified: its checksum may cover data before it. It is `DONE`, `FINISHED`, `WAITING` or
/// `NO_CHECKER`.
#[unsafe(no_mangle)]
pub extern "C" fn interlaken_checker_flow(
    alloc: Global,
    checker: &mut CheckerHandle,
    word: u64,
) -> u32
    ensures { HearsFlow checker.old.at.checker checker.new.at.checker word result }
{
    c_checker::flow(alloc, checker, word)
}

/// No further word comes. It is `DONE` or `NO_CHECKER`.
#[unsafe(no_mangle)]
pub extern "C" fn interlaken_checker_finish(alloc: Global, checker: &mut CheckerHandle) -> u32
    ensures { FinishesWords checker.old.at.checker checker.new.at.checker result }
{
    c_checker::finish(alloc, checker)
}

/// Writes the next fault that is due, or none. It is `DONE` or `NO_CHECKER`.
#[unsafe(no_mangle)]
pub extern "C" fn interlaken_checker_next(
    alloc: Global,
    checker: &mut CheckerHandle,
    fault: &mut CFault,
) -> u32
    ensures { GivesFault checker.old.at.checker checker.new.at.checker result fault.new }
{
    c_checker::next(alloc, checker, fault)
}
