//! One moment more.

ghost use Rattle.std.specs.Prelude.{◌≡◌, ℕ, ◌<◌, ◌≤◌, ◌+◌, length, IsTrue, ◌↔◌, MatchBool};
ghost use Rattle.std.specs.List.{All};
ghost use Rattle.sot_lists.specs.Places.{At};
ghost use Rattle.sot_formula.specs.declared.what.What.{What as Is};
ghost use Rattle.sot_formula.specs.Parts.{IsPlaced, ArePlaced, LooksAt};
ghost use Rattle.sot_monitor.specs.Holding.{Compares, together};
ghost use Rattle.sot_monitor.specs.Standing.{NowBy, StepsOn};

use crate::looks::Looks;
use sot_formula::{Comparison, Pairing, What};

fn together(pairing: Pairing, x: i64, y: i64) -> i128
    ensures { result ≡ together pairing x y }
{
    match pairing {
        Pairing::Sum => x as i128 + y as i128,
        Pairing::Difference => x as i128 - y as i128,
    }
}

fn compares(by: Comparison, x: i128, z: i128) -> bool
    ensures { IsTrue result ↔ Compares by x z }
{
    match by {
        Comparison::Less => x < z,
        Comparison::LessEqual => x <= z,
        Comparison::Greater => z < x,
        Comparison::GreaterEqual => z <= x,
        Comparison::Equal => x == z,
        Comparison::NotEqual => x != z,
    }
}

// Whether a part holds now.
fn holds_now<L: Looks>(what: What, i: usize, own: u32, lasts: &[u32], added: u32, now: &L) -> bool
    requires placed { IsPlaced i what }
    requires there { (q : _) → LooksAt what q → L.has now.now q }
    requires room { i < length lasts.now }
    requires few { added ≤ 100000 }
    requires small { All (λ l. l ≤ 100001) lasts.now }
    ensures { IsTrue result ↔ NowBy what own lasts.now added (L.moment now.now) }
{
    let count = added + 1;
    match what {
        What::Truth(value) => value,
        What::Compared { of, by, number } => compares(by, now.look(of) as i128, number as i128),
        What::Against { of, by, other } => {
            compares(by, now.look(of) as i128, now.look(other) as i128)
        }
        What::Paired {
            first,
            pairing,
            second,
            by,
            number,
        } => {
            let both = together(pairing, now.look(first), now.look(second));
            compares(by, both, number as i128)
        }
        What::Not(k) => lasts[k] != count,
        What::And { first, second } => lasts[first] == count && lasts[second] == count,
        What::Or { first, second } => lasts[first] == count || lasts[second] == count,
        What::Implies { first, second } => lasts[first] != count || lasts[second] == count,
        What::Once(k) => lasts[k] > 0,
        What::Always(k) => lasts[k] == count && own == added,
        What::Since { first, second } => {
            lasts[second] == count || (lasts[first] == count && own > 0 && own == added)
        }
        What::Within { ticks, of } => {
            let last = lasts[of];
            last > 0 && count <= last + ticks
        }
    }
}

// Whether the part at a place holds now.
fn part_holds<L: Looks>(
    whats: &[What],
    i: usize,
    own: u32,
    lasts: &[u32],
    added: u32,
    now: &L,
) -> bool
    requires inside { i < length whats.now }
    requires placed { ArePlaced whats.now }
    requires there { (k : ℕ) (w : Is) (q : _) → At whats.now k w → LooksAt w q → L.has now.now q }
    requires room { i < length lasts.now }
    requires few { added ≤ 100000 }
    requires small { All (λ l. l ≤ 100001) lasts.now }
    ensures { (w : Is) → At whats.now i w
        → IsTrue result ↔ NowBy w own lasts.now added (L.moment now.now) }
{
    holds_now(whats[i], i, own, lasts, added, now)
}

// A part's number afterwards.
fn noted(last: u32, holds: bool, count: u32) -> u32
    ensures value { MatchBool holds (result ≡ count) (result ≡ last) }
    ensures few { count ≤ 100001 → last ≤ 100001 → result ≤ 100001 }
{
    if holds { count } else { last }
}

/// Adds a moment behind `added` others: each part's number is set where the part holds now. It
/// takes no memory, and as many steps as there are parts.
pub fn step<L: Looks>(whats: &[What], lasts: &mut [u32], added: u32, now: &L)
    requires placed { ArePlaced whats.now }
    requires there { (k : ℕ) (w : Is) (q : _) → At whats.now k w → LooksAt w q → L.has now.now q }
    requires size { length lasts.old ≡ length whats.now }
    requires few { added ≤ 100000 }
    requires small { All (λ l. l ≤ 100001) lasts.old }
    ensures size { length lasts.new ≡ length whats.now }
    ensures small { All (λ l. l ≤ 100001) lasts.new }
    ensures stands { StepsOn whats.now lasts.old lasts.new added (L.moment now.now) }
{
    for i in 0..whats.len() {
        let own = lasts[i];
        let holds = part_holds(whats, i, own, lasts, added, now);
        lasts[i] = noted(own, holds, added + 1);
    }
}
