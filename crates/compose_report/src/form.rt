//! The form in which a run prints why it has no answer.

/// The form of a refusal. It depends on what is asked for alone.
#[derive(Clone, Copy, Debug, PartialEq, Eq, Drop)]
pub enum Form {
    /// The line of the refusal.
    Line,
    /// This line, followed by the place of the fault and the reason.
    Details,
    /// For people: the place of the fault and the reason, and the line only if there is nothing
    /// more.
    Words,
}
