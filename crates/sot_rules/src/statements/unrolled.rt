//! Places among statements with loops unrolled, which are counted and never written out.
ghost use Rattle.std.specs.Prelude.{◌≡◌, ◌+◌, ◌*◌, ◌<◌, ◌∷◌, [], IfNone, IfSome, nat_abs};
ghost use Rattle.sot_syntax_tree.specs.TreeViews.{statement_view, block_view};
ghost use Rattle.sot_rules.specs.Tests.{unrolled, block_unrolled};
ghost use Rattle.sot_rules.specs.Reached.{IsReached};

use sot_syntax_tree::{Lit, Stmt};
use sot_text::Span;

/// What stands at a place of a list, or how far the place is past the list's end.
#[derive(Clone, Copy)]
pub enum Reached {
    At(Span),
    Left(u64),
}

// A statement that is one item.
fn one(at: Span, k: u64) -> Reached
    ensures { IsReached k (at ∷ []) result }
{
    if k == 0 {
        Reached::At(at)
    } else {
        Reached::Left(k - 1)
    }
}

// How far place k is past the end of so many copies of a list, where it is. A product of the two
// may fit no number.
fn past_copies(times: u64, len: u64, k: u64) -> Option<u64>
    ensures past { IfSome result (λ n. k ≡ times * len + n) }
    ensures within { IfNone result (k < times * len) }
    ensures not_empty { IfNone result (0 < len) }
{
    if len == 0 {
        return Some(k);
    }
    if times <= k / len {
        Some(k - times * len)
    } else {
        None
    }
}

// How often a loop is unrolled: its written count without a sign.
fn count_of(times: Lit) -> u64
    ensures { result ≡ nat_abs times.mantissa }
{
    times.mantissa.unsigned_abs()
}

/// The place k of a block's statements with loops unrolled, which are counted and not written out.
/// A loop's body is walked once to count it, and a second time only where the place is inside the
/// loop: so the work is at most the size of the block times its depth.
#[cycle(unrolled)]
pub fn reach_block(stmts: &[Stmt], k: u64) -> Reached
    ensures { IsReached k (block_unrolled (block_view stmts.now)) result }
{
    let mut left = k;
    for stmt in stmts {
        match reach(stmt, left) {
            Reached::At(at) => return Reached::At(at),
            Reached::Left(n) => left = n,
        }
    }
    Reached::Left(left)
}

#[cycle(unrolled)]
fn reach(stmt: &Stmt, k: u64) -> Reached
    ensures { IsReached k (unrolled (statement_view stmt.now)) result }
{
    match stmt {
        Stmt::Assign { target, .. } => one(target.at, k),
        Stmt::Publish { topic, .. } => one(topic.at, k),
        Stmt::PublishField { place, .. } => one(place.content().first.at, k),
        Stmt::If { branch, at } => {
            if k == 0 {
                return Reached::At(*at);
            }
            match reach_block(&branch.yes, k - 1) {
                Reached::At(found) => Reached::At(found),
                Reached::Left(n) => reach_block(&branch.no, n),
            }
        }
        Stmt::Repeat { times, body, at } => {
            if k == 0 {
                return Reached::At(*at);
            }
            let count = count_of(*times);
            if count == 0 {
                return Reached::Left(k - 1);
            }
            match reach_block(body, k - 1) {
                Reached::At(found) => Reached::At(found),
                Reached::Left(n) => match past_copies(count, k - 1 - n, k - 1) {
                    Some(left) => Reached::Left(left),
                    None => reach_block(body, (k - 1) % (k - 1 - n)),
                },
            }
        }
    }
}
