//! What makes the outputs of a command, once the command has its inputs. It sees no store.
ghost use Rattle.std.specs.Prelude.{◌≡◌, ◌<◌, ℕ, List, map, IfOk, string_bytes};
ghost use Rattle.run_shell.specs.Outcome.{Outcome};
ghost use Rattle.run_shell.specs.Outputs.{Differ, open_names};
ghost use Rattle.run_shell.specs.Writing.{Begin, delivered};
ghost use Rattle.run_shell.specs.Making.{IfDone, IfMore};
ghost use Rattle.run_shell.specs.Rests.{join, rests_of};

use crate::outputs::Outputs;
use crate::step::Step;
use lk_base::OutOfMemory;
use std::alloc::Global;

/// What makes the outputs of a command, step by step.
///
/// `make_all` creates the outputs, has the maker take steps, each of which gives the outputs some bytes, and appends what they were
/// given. After each step it appends whole pieces of 65,536 bytes of every output: the outputs are gone over once a step.
pub trait Maker {
    /// What it makes the outputs of.
    ghost Inputs: { Type 0 };

    /// Its inputs.
    ghost inputs: { Self → Inputs };

    /// The names of the outputs, in the order of creation.
    ghost named: { Inputs → List (List ℕ) };

    /// What may be made of the inputs.
    ghost IsMade: { Inputs → Outcome → Type 0 };

    /// It is at work, and gave the outputs these contents so far.
    ghost gave: { Self → List (List ℕ) → Type 0 };

    /// How many steps are left at most.
    ghost left: { Self → ℕ };

    /// States that all that may be made of a maker's inputs begins with what it gave so far, and that of inputs at most one outcome is
    /// made.
    fn lawful(&self)
        ensures begins { (maker : Self) (given : List (List ℕ)) (o : Outcome) → gave maker given → IsMade (inputs maker) o → Begin (named (inputs maker)) given o.files }
        ensures one { (i : Inputs) (o p : Outcome) → IsMade i o → IsMade i p → o ≡ p };

    /// Returns the names of the outputs. No two of them are one.
    fn names(&self, alloc: Global) -> Result<Vec<String>, OutOfMemory>
        ensures names { IfOk result (λ v. map string_bytes v.items ≡ named (inputs self.now)) }
        ensures differ { IfOk result (λ v. Differ (map string_bytes v.items)) };

    /// Gives the outputs their next bytes. Whatever was appended before, these bytes go on after it: with them the maker gave that and
    /// no more, or, if all is done, it made an outcome. In its last step it may use up its inputs.
    fn step(&mut self, alloc: Global, outputs: &mut Outputs) -> Result<Step, OutOfMemory>
        requires opens { open_names outputs.old ≡ named (inputs self.old) }
        requires stands { (done : List (List ℕ)) × gave self.old (join done (rests_of outputs.old)) }
        ensures opens { open_names outputs.new ≡ open_names outputs.old }
        ensures less { IfOk result (IfMore ((left self.new < left self.old) × (inputs self.new ≡ inputs self.old))) }
        ensures gave { IfOk result (IfMore ((done : List (List ℕ)) → gave self.old (join done (rests_of outputs.old)) → gave self.new (join done (rests_of outputs.new)))) }
        ensures made { IfOk result (IfDone (λ f. (done : List (List ℕ)) → gave self.old (join done (rests_of outputs.old)) → IsMade (inputs self.old) (delivered (named (inputs self.old)) (join done (rests_of outputs.new)) f))) };
}
