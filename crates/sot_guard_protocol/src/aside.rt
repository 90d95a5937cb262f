//! Lines that a robot may spell wrong and go on.

ghost use Rattle.std.specs.Prelude.{◌≡◌, ◌↔◌, IsTrue, codes};
ghost use Rattle.sot_guard_protocol.specs.Asides.{aside_of};

use sot_trace_lines::behind;

/// What a line hands on from a program or a place that nobody has verified, or asks for.
#[derive(Clone, Copy, Debug, PartialEq, Eq)]
pub enum Aside {
    /// The draft of an external node.
    Draft,
    /// A value on an environment topic.
    Input,
    /// That the models are to be trusted again.
    Resume,
}

/// Which of them a line is, by its first bytes: none where another line is to be taken.
pub(crate) fn aside_of(line: &[u8]) -> Option<Aside>
    ensures { result ≡ aside_of line.now }
{
    if behind(line, b"draft").is_some() {
        return Some(Aside::Draft);
    }
    if behind(line, b"input").is_some() {
        return Some(Aside::Input);
    }
    if behind(line, b"resume").is_some() {
        return Some(Aside::Resume);
    }
    None
}

/// Whether a line says that the instant is over.
pub(crate) fn is_go(line: &[u8]) -> bool
    ensures { IsTrue result ↔ (line.now ≡ codes "go") }
{
    line == b"go".as_slice()
}
