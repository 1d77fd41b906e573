//! Laws on the states that a run goes through, for any outputs.
ghost use Rattle.run_shell.specs.Steps.{CreateGoesOn, AppendGoesOn, OthersStay};

/// Whatever outputs a command has: a create and an append go from one state of a run to the next.
pub fn steps_go_on()
    ensures create { CreateGoesOn }
    ensures append { AppendGoesOn }
    ensures others { OthersStay }
{}
