//! The parts of a formula that is read.

ghost use Rattle.std.specs.Prelude.{◌≡◌, [], ◌||◌, ◌==◌, not};
ghost use Rattle.sot_formula.specs.Reading.{none_laid, place, put, compared, unnamed};
ghost use Rattle.sot_formula.specs.Reading.{against, paired};
ghost use Rattle.sot_expression.specs.Returned.{Makes};

use crate::finding::FoundQuantity;
use crate::quantity::{Comparison, Pairing};
use crate::what::What;
use sot_expression::Fail;
use sot_syntax_tree::Lit;
use std::alloc::Global;
use std::marker::Model;

/// The parts so far, whether some reference named nothing, and whether some comparison had two
/// scales.
#[derive(Drop)]
pub struct Laid {
    pub whats: Vec<What>,
    pub unknown: bool,
    pub differs: bool,
}

impl Model for Laid {
    ghost use Rattle.sot_formula.specs.Reading.{Laid as Read};
    ghost use Rattle.sot_formula.specs.LaidView.{laid_in};

    ghost Value = { Read };

    ghost view = { laid_in };
}

impl Laid {
    pub fn none(alloc: Global) -> Laid
        ensures { result ≡ none_laid }
    {
        Laid {
            whats: Vec::new(alloc),
            unknown: false,
            differs: false,
        }
    }

    /// The place of the last part.
    pub fn place(&self) -> usize
        ensures { result ≡ place self.now }
    {
        self.whats.len().saturating_sub(1)
    }
}

/// One part more.
pub fn put(mut laid: Laid, what: What) -> Result<Laid, Fail>
    ensures { Makes (λ s. s) result (put what laid) }
{
    laid.whats.push(what)?;
    Ok(laid)
}

/// A comparison more, of what was found, or a part in its place.
pub fn compared(
    mut laid: Laid,
    found: Option<FoundQuantity>,
    by: Comparison,
    literal: Lit,
) -> Result<Laid, Fail>
    ensures { Makes (λ s. s) result (compared found by literal laid) }
{
    let Some(found) = found else {
        laid.whats.push(What::Truth(false))?;
        laid.unknown = true;
        return Ok(laid);
    };
    laid.whats.push(What::Compared {
        of: found.of,
        by,
        number: literal.mantissa,
    })?;
    laid.differs = laid.differs || found.scale != literal.scale;
    Ok(laid)
}

// A part in the place of a comparison whose reference named nothing.
fn unknown(mut laid: Laid) -> Result<Laid, Fail>
    ensures { Makes (λ s. s) result (unnamed laid) }
{
    laid.whats.push(What::Truth(false))?;
    laid.unknown = true;
    Ok(laid)
}

/// A comparison more, of what two references name.
pub fn against(
    mut laid: Laid,
    found: Option<FoundQuantity>,
    by: Comparison,
    other: Option<FoundQuantity>,
) -> Result<Laid, Fail>
    ensures { Makes (λ s. s) result (against found by other laid) }
{
    match (found, other) {
        (Some(found), Some(other)) => {
            laid.whats.push(What::Against {
                of: found.of,
                by,
                other: other.of,
            })?;
            laid.differs = laid.differs || found.scale != other.scale;
            Ok(laid)
        }
        (_, _) => unknown(laid),
    }
}

/// A comparison more, of what two references name together.
pub fn paired(
    mut laid: Laid,
    found: Option<FoundQuantity>,
    pairing: Pairing,
    other: Option<FoundQuantity>,
    by: Comparison,
    literal: Lit,
) -> Result<Laid, Fail>
    ensures { Makes (λ s. s) result (paired found pairing other by literal laid) }
{
    match (found, other) {
        (Some(found), Some(other)) => {
            laid.whats.push(What::Paired {
                first: found.of,
                pairing,
                second: other.of,
                by,
                number: literal.mantissa,
            })?;
            let scales = found.scale != literal.scale || other.scale != literal.scale;
            laid.differs = laid.differs || scales;
            Ok(laid)
        }
        (_, _) => unknown(laid),
    }
}
