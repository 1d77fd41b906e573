ghost use Rattle.std.specs.Prelude.{◌≡◌, ◌<◌, ◌≤◌, ◌+◌, ◌^◌, ℕ, IfSome, get_or, true, false};
ghost use Rattle.lane_lock.specs.Bytes.{steps_of_bits};
ghost use Rattle.lock_model.specs.Low.{is_low};
ghost use Rattle.lock_model.specs.declared.types.LaneStep.TheVariants as variants;
ghost use Rattle.rx_front.specs.Shows.{IsWithin, steps_shown};

use lane_lock::Completed;
use lock_model::LaneStep;

/// What the bits of a lane's last bytes show.
#[derive(Clone, Copy, Debug, Drop, PartialEq, Eq)]
pub enum Shown {
    /// Its end.
    End,
    /// Bytes of which no bit completes a step.
    Quiet,
    /// Bytes of which this bit, counted from the first, completes this step.
    Step(u32, LaneStep),
}

/// Returns what bytes of `width` bits show, within which a word ends, or none does.
pub fn shown_of(completed: Option<Completed>, width: u32) -> Shown
    requires place { IfSome completed (λ c. c.place < width) }
    requires low { IfSome completed (λ c. is_low c.step) }
    ensures value { steps_shown width result ≡ steps_of_bits width completed }
    ensures within { IsWithin width result }
{
    match completed {
        None => Shown::Quiet,
        Some(word) => Shown::Step(word.place, word.step),
    }
}

impl Shown {
    /// Returns the step of bit k of `width` bits; after them it has ended.
    pub fn step(self, k: u32, width: u32) -> LaneStep
        requires { IsWithin width self }
        ensures value { result ≡ get_or (steps_shown width self) k variants.Ended }
        ensures low { is_low result }
    {
        match self {
            Shown::End => LaneStep::Ended,
            Shown::Quiet => step_if(false, k < width, LaneStep::Nothing),
            Shown::Step(place, step) => step_if(place == k, k < width, step),
        }
    }
}

// Returns the step, or none; after the bits it has ended.
fn step_if(here: bool, within: bool, step: LaneStep) -> LaneStep
    requires { is_low step }
    ensures here { here ≡ true → result ≡ step }
    ensures elsewhere { here ≡ false → within ≡ true → result ≡ variants.Nothing }
    ensures behind { here ≡ false → within ≡ false → result ≡ variants.Ended }
    ensures low { is_low result }
{
    if here {
        step
    } else if within {
        LaneStep::Nothing
    } else {
        LaneStep::Ended
    }
}
