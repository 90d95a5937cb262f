//! What is heard in a line.

/// What was heard in a line.
#[derive(Clone, Copy, Debug, PartialEq, Eq)]
pub enum Heard {
    /// A value on a topic.
    Input,
    /// A draft.
    Draft,
    /// The end of an instant, which was gone through.
    Go,
    /// That the models are to be trusted again: they are, or a module is named that keeps them from
    /// being, and nothing changes.
    Resume,
    /// The states of all plants after a tick.
    Tick,
    /// A draft, an input or a resume that is not taken, which changes nothing.
    Ignored,
    /// Another line that is not taken: the models are trusted no more.
    Blind,
}
