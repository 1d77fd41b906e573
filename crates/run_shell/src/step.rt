use crate::finished::Finished;

/// What a step of a command's work came to.
#[derive(Drop)]
pub enum Step {
    /// There is more to do.
    More,
    /// All is done.
    Done(Finished),
}
