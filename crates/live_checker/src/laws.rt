//! The laws on faults that are told as words come.
ghost use Rattle.live_checker.specs.Laws.{LawOnCalls, LiveRowsAreInOrder, LiveRowsAreRows};
ghost use Rattle.live_checker.specs.CallLists.{CallsCheck, CallsTellFaults};

/// The faults that words show one by one are the faults of all words together. The rows of all rules but `empty` are the same list,
/// and so are the rows of `empty`.
pub fn live_rows_are_rows()
    ensures { LiveRowsAreRows }
{}

/// The faults that words show one by one come in this order. For each word: the row of `empty` of the word before it, and then all other
/// rows of the word.
pub fn live_rows_are_in_order()
    ensures { LiveRowsAreInOrder }
{}

/// What was given, and then what is due, are the faults of all words, in the same two lists. Their plan has a row for each word of flow
/// control: its slot is the number of words that were given before it.
pub fn faults_are_those_of_check()
    ensures { LawOnCalls }
{}

/// Any calls on a new checker, in any order and with any misuse among them, lead to a state that stands for what they gave. The faults
/// that they gave back, and then those that are due, are the faults of all words that were taken, in the same two lists: the rows of
/// `empty`, and all others.
pub fn calls_lead_to_checks()
    ensures check { CallsCheck }
    ensures tell { CallsTellFaults }
{}
