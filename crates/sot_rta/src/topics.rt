//! Which topics some scalars are of.

ghost use Rattle.std.specs.Prelude.{ℕ, ◌<◌, ◌≡◌, length, true, false, IsTrue, ◌↔◌, MatchOption};
ghost use Rattle.std.specs.Prelude.{IfSome};
ghost use Rattle.sot_lists.specs.Places.{Has};
ghost use Rattle.sot_rta.specs.Topics.{AreSomeOf, IsOfOneAlone, IsMissing, AreAlike, GoesOver};

use sot_lang::ScalarInfo;

/// Whether some of these scalars is of a topic.
pub fn are_some_of(infos: &[ScalarInfo], scalars: &[u32], topic: u32) -> bool
    requires { (k : ℕ) → Has scalars.now k → k < length infos.now }
    ensures { IsTrue result ↔ AreSomeOf infos.now scalars.now topic }
{
    for i in 0..scalars.len() {
        let scalar = scalars[i] as usize;
        if infos[scalar].topic == topic {
            return true;
        }
    }
    false
}

// Whether a topic is one of one of the two lists alone.
#[tactic(auto, using(crate::proofs::Steps::differ, crate::proofs::Steps::agree))]
fn is_of_one_alone(infos: &[ScalarInfo], some: &[u32], others: &[u32], topic: u32) -> bool
    requires one { (k : ℕ) → Has some.now k → k < length infos.now }
    requires other { (k : ℕ) → Has others.now k → k < length infos.now }
    ensures alone { result ≡ true → IsOfOneAlone infos.now some.now others.now topic }
    ensures alike { result ≡ false → AreAlike infos.now some.now others.now topic }
{
    let one = are_some_of(infos, some, topic);
    let other = are_some_of(infos, others, topic);
    one != other
}

// Whether a topic is one of `some` and none of `others`.
#[tactic(auto, using(crate::proofs::Steps::missing, crate::proofs::Steps::over))]
fn is_missing(infos: &[ScalarInfo], some: &[u32], others: &[u32], topic: u32) -> bool
    requires one { (k : ℕ) → Has some.now k → k < length infos.now }
    requires other { (k : ℕ) → Has others.now k → k < length infos.now }
    ensures missing { result ≡ true → IsMissing infos.now some.now others.now topic }
    ensures over { result ≡ false → GoesOver infos.now some.now others.now topic }
{
    let one = are_some_of(infos, some, topic);
    let other = are_some_of(infos, others, topic);
    one && !other
}

// Whether each topic of `some` is one of `others`.
fn go_over(infos: &[ScalarInfo], some: &[u32], others: &[u32]) -> bool
    requires one { (k : ℕ) → Has some.now k → k < length infos.now }
    requires other { (k : ℕ) → Has others.now k → k < length infos.now }
    ensures { result ≡ true → (t : ℕ) → GoesOver infos.now some.now others.now t }
{
    for i in 0..some.len() {
        let scalar = some[i] as usize;
        if !are_some_of(infos, others, infos[scalar].topic) {
            return false;
        }
    }
    true
}

/// The first of so many topics that is a topic of one of the two lists of scalars alone.
pub fn first_of_one_alone(
    infos: &[ScalarInfo],
    topics: u32,
    some: &[u32],
    others: &[u32],
) -> Option<u32>
    requires one { (k : ℕ) → Has some.now k → k < length infos.now }
    requires other { (k : ℕ) → Has others.now k → k < length infos.now }
    ensures first { MatchOption result
        ((t : ℕ) → t < topics → AreAlike infos.now some.now others.now t)
        (λ t. IsOfOneAlone infos.now some.now others.now t
        × ((u : ℕ) → u < t → AreAlike infos.now some.now others.now u)) }
    ensures within { IfSome result (λ t. t < topics) }
{
    if go_over(infos, some, others) && go_over(infos, others, some) {
        return None;
    }
    for topic in 0..topics {
        if is_of_one_alone(infos, some, others, topic) {
            return Some(topic);
        }
    }
    None
}

/// The first of so many topics that is a topic of `some` and none of `others`.
pub fn first_missing(infos: &[ScalarInfo], topics: u32, some: &[u32], others: &[u32]) -> Option<u32>
    requires one { (k : ℕ) → Has some.now k → k < length infos.now }
    requires other { (k : ℕ) → Has others.now k → k < length infos.now }
    ensures first { MatchOption result
        ((t : ℕ) → t < topics → GoesOver infos.now some.now others.now t)
        (λ t. IsMissing infos.now some.now others.now t
        × ((u : ℕ) → u < t → GoesOver infos.now some.now others.now u)) }
    ensures within { IfSome result (λ t. t < topics) }
{
    if go_over(infos, some, others) {
        return None;
    }
    for topic in 0..topics {
        if is_missing(infos, some, others, topic) {
            return Some(topic);
        }
    }
    None
}
