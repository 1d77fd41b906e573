//! The calls on a checker.
ghost use Rattle.std.specs.Prelude.{◌≡◌, IfOk, IfErr};
ghost use Rattle.c_parts.specs.Refusals.{IsRefused};
ghost use Rattle.c_checker.specs.Codes.{word_of};
ghost use Rattle.c_checker.specs.Faults.{fault_told};
ghost use Rattle.c_checker.specs.Held.{FinishesWords, FreesChecker, GivesFault, GivesKind, GivesMany, GivesResult, GivesWord, HearsFlow, IsCheckerOf, IsCheckerOfPlan, MakesChecker};

use crate::codes::{misuse_code, word_of};
use crate::fault::{CFault, as_fault, no_fault};
use crate::handle::CheckerHandle;
use crate::many::{CWord, give_words};
use c_parts::codes::{DONE, IN_USE, NO_CHECKER, OUT_OF_RANGE, plan_code};
use c_parts::refusal::{Refusal, no_refusal, refusal_of};
use link_plan::{Plan, PlanError, channels_in_order, read_plan};
use live_checker::{LiveChecker, Misuse};
use lk_base::{OutOfMemory, RxWord};
use std::alloc::Global;
use word_rules::{Fault, WordLimits};

// A checker by the rules of a plan.
fn checker_of(alloc: Global, plan: &Plan) -> Result<LiveChecker, OutOfMemory>
    ensures { IfOk result (IsCheckerOf plan.now) }
{
    let channels = channels_in_order(alloc, &plan.channels)?;
    let checker = LiveChecker::new(alloc, WordLimits::of(plan), &channels, &plan.entries)?;
    Ok(checker)
}

// A checker by the plan of these bytes.
fn opened(alloc: Global, plan: &[u8]) -> Result<LiveChecker, PlanError>
    ensures made { IfOk result (IsCheckerOfPlan plan.now) }
    ensures refused { IfErr result (IsRefused plan.now) }
{
    let plan = read_plan(alloc, plan)?;
    let checker = checker_of(alloc, &plan)?;
    Ok(checker)
}

// A checker in a box.
fn in_box(alloc: Global, checker: LiveChecker) -> Result<Box<LiveChecker, Global>, OutOfMemory>
    ensures { IfOk result (λ b. b.value ≡ checker) }
{
    let held = Box::new(alloc, checker)?;
    Ok(held)
}

// A checker by the plan of these bytes, in a box.
fn boxed(alloc: Global, plan: &[u8]) -> Result<Box<LiveChecker, Global>, PlanError>
    ensures made { IfOk result (λ b. IsCheckerOfPlan plan.now b.value) }
    ensures refused { IfErr result (IsRefused plan.now) }
{
    let checker = opened(alloc, plan)?;
    let held = in_box(alloc, checker)?;
    Ok(held)
}

/// Opens a checker by the plan of these bytes behind a handle that has none, and writes why a plan is refused. It is `DONE`,
/// `OUT_OF_MEMORY`, `BAD_PLAN` or `IN_USE`.
pub fn new(alloc: Global, checker: &mut CheckerHandle, plan: &[u8], refusal: &mut Refusal) -> u32
    ensures { MakesChecker checker.old.at.checker checker.new.at.checker plan.now result refusal.new }
{
    *refusal = no_refusal();
    if let Some(there) = checker.take(alloc) {
        checker.put(there);
        return IN_USE;
    }
    match boxed(alloc, plan) {
        Ok(made) => {
            checker.put(made);
            DONE
        }
        Err(why) => {
            *refusal = refusal_of(why);
            plan_code(why)
        }
    }
}

/// Frees a checker. Its handle has none afterwards. It is `DONE` or `NO_CHECKER`.
pub fn free(alloc: Global, checker: &mut CheckerHandle) -> u32
    ensures { FreesChecker checker.old.at.checker checker.new.at.checker result }
{
    match checker.take(alloc) {
        Some(_) => DONE,
        None => NO_CHECKER,
    }
}

// The result of a call that gives a word, or a word of flow control.
fn ended(answer: Result<(), Misuse>) -> u32
    ensures { GivesResult answer result }
{
    match answer {
        Ok(()) => DONE,
        Err(why) => misuse_code(why),
    }
}

// Gives a word, if there is one.
fn give(checker: &mut LiveChecker, word: Option<RxWord>) -> u32
    ensures { GivesKind checker.old checker.new word result }
{
    if let Some(word) = word {
        let answer = checker.word(word);
        return ended(answer);
    }
    match checker.refusal() {
        Some(why) => misuse_code(why),
        None => OUT_OF_RANGE,
    }
}

/// Gives the next word, of this kind and number. It is `DONE`, `FINISHED`, `WAITING`, `TOO_MANY`, `OUT_OF_RANGE` or `NO_CHECKER`.
pub fn word(alloc: Global, checker: &mut CheckerHandle, kind: u32, number: u64) -> u32
    ensures { GivesWord checker.old.at.checker checker.new.at.checker kind number result }
{
    let Some(mut there) = checker.take(alloc) else {
        return NO_CHECKER;
    };
    let result = give(&mut there, word_of(kind, number));
    checker.put(there);
    result
}

/// Gives words one after another, up to the first that shows a fault and with it, and writes how many are taken. It is `DONE`, `FINISHED`,
/// `WAITING`, `TOO_MANY`, `OUT_OF_RANGE` or `NO_CHECKER`.
pub fn words(alloc: Global, checker: &mut CheckerHandle, words: &[CWord], taken: &mut usize) -> u32
    ensures { GivesMany checker.old.at.checker checker.new.at.checker words.now result taken.new }
{
    *taken = 0;
    let Some(mut there) = checker.take(alloc) else {
        return NO_CHECKER;
    };
    let result = give_words(&mut there, words, taken);
    checker.put(there);
    result
}

/// Gives a control word of the far end that was verified: its checksum may cover data before it. It is `DONE`, `FINISHED`, `WAITING`
/// or `NO_CHECKER`.
pub fn flow(alloc: Global, checker: &mut CheckerHandle, word: u64) -> u32
    ensures { HearsFlow checker.old.at.checker checker.new.at.checker word result }
{
    let Some(mut there) = checker.take(alloc) else {
        return NO_CHECKER;
    };
    let answer = there.hear(word);
    checker.put(there);
    ended(answer)
}

/// No further word comes. It is `DONE` or `NO_CHECKER`.
pub fn finish(alloc: Global, checker: &mut CheckerHandle) -> u32
    ensures { FinishesWords checker.old.at.checker checker.new.at.checker result }
{
    let Some(mut there) = checker.take(alloc) else {
        return NO_CHECKER;
    };
    there.finish();
    checker.put(there);
    DONE
}

// A fault as C sees it, or none.
fn told(fault: Option<Fault>) -> CFault
    ensures { result ≡ fault_told fault }
{
    match fault {
        Some(fault) => as_fault(fault),
        None => no_fault(),
    }
}

/// Writes the next fault that is due, or none. It is `DONE` or `NO_CHECKER`.
pub fn next(alloc: Global, checker: &mut CheckerHandle, fault: &mut CFault) -> u32
    ensures { GivesFault checker.old.at.checker checker.new.at.checker result fault.new }
{
    *fault = no_fault();
    let Some(mut there) = checker.take(alloc) else {
        return NO_CHECKER;
    };
    *fault = told(there.next());
    checker.put(there);
    DONE
}
