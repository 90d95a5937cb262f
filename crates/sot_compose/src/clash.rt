//! Two things that share what they may not share.

/// Two things that may not share what they share: `what` is the least that is shared so, then `a`
/// the least, then `b`; `a` is below `b`.
#[derive(Clone, Copy, Debug, PartialEq, Eq)]
pub struct Clash {
    pub what: u32,
    pub a: u32,
    pub b: u32,
}
