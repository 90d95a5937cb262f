//! The lines that are said of words and of refusals.

ghost use Rattle.std.specs.Prelude.{◌≡◌, ◌++◌, codes, IfOk};
ghost use Rattle.std.specs.Fmt.{decimal};
ghost use Rattle.sot_report.specs.Pieces.{line};
ghost use Rattle.sot_regions_program.specs.Lines.{usage_text, of_module, at_grain, refusal_line};

use crate::refusal::RegionsRefusal;
use sot_box::Point;
use sot_lang::Typed;
use sot_report::{put, put_module, put_point};
use std::alloc::{AllocError, Global};

/// The line that says which words there are.
pub fn usage_text(alloc: Global) -> Result<Vec<u8>, AllocError>
    ensures { IfOk result (λ text. text.items ≡ usage_text) }
{
    let mut text = Vec::new(alloc);
    put(&mut text, "usage: soter_regions [JITTER]\n")?;
    Ok(text)
}

fn jitter_line(alloc: Global, jitter: u32) -> Result<Vec<u8>, AllocError>
    ensures { IfOk result (λ text. text.items
        ≡ line (codes "refused regions jitter " ++ decimal jitter)) }
{
    let piece = format!(in alloc; "refused regions jitter {jitter}\n")?;
    let mut text = Vec::new(alloc);
    text.extend_from_slice(piece.as_bytes())?;
    Ok(text)
}

// The front of a line that names a module.
fn module_front(alloc: Global, p: &Typed, module: u32) -> Result<Vec<u8>, AllocError>
    ensures { IfOk result (λ text. text.items ≡ of_module p.now «module») }
{
    let mut text = Vec::new(alloc);
    put(&mut text, "refused regions module ")?;
    put_module(&mut text, p, module)?;
    Ok(text)
}

// `safe none grain (G1, G2)` of a module, which goes on.
fn grain_front(alloc: Global, p: &Typed, module: u32, grain: &Point) -> Result<Vec<u8>, AllocError>
    ensures { IfOk result (λ text. text.items ≡ at_grain p.now «module» grain.now) }
{
    let mut text = module_front(alloc, p, module)?;
    put(&mut text, " safe none grain ")?;
    put_point(alloc, &mut text, grain)?;
    Ok(text)
}

fn grain_line(alloc: Global, p: &Typed, module: u32, grain: &Point) -> Result<Vec<u8>, AllocError>
    ensures { IfOk result (λ text. text.items ≡ line (at_grain p.now «module» grain.now)) }
{
    let mut text = grain_front(alloc, p, module, grain)?;
    text.push(b'\n')?;
    Ok(text)
}

fn beside_line(alloc: Global, p: &Typed, module: u32, grain: &Point) -> Result<Vec<u8>, AllocError>
    ensures { IfOk result (λ text. text.items
        ≡ line (at_grain p.now «module» grain.now ++ codes " alone")) }
{
    let mut text = grain_front(alloc, p, module, grain)?;
    put(&mut text, " alone\n")?;
    Ok(text)
}

fn many_line(alloc: Global, p: &Typed, module: u32) -> Result<Vec<u8>, AllocError>
    ensures { IfOk result (λ text. text.items
        ≡ line (of_module p.now «module» ++ codes " safe TooMany")) }
{
    let mut text = module_front(alloc, p, module)?;
    put(&mut text, " safe TooMany\n")?;
    Ok(text)
}

fn safer_line(alloc: Global, p: &Typed, module: u32) -> Result<Vec<u8>, AllocError>
    ensures { IfOk result (λ text. text.items
        ≡ line (of_module p.now «module» ++ codes " safer none")) }
{
    let mut text = module_front(alloc, p, module)?;
    put(&mut text, " safer none\n")?;
    Ok(text)
}

/// The line of a refusal: `refused regions jitter J`, or `refused regions module NAME safe none
/// grain (G1, G2)`, which may have `alone` behind it, or the same with `safe TooMany` or `safer
/// none` behind the name.
pub fn refusal_line(
    alloc: Global,
    p: &Typed,
    refusal: &RegionsRefusal,
) -> Result<Vec<u8>, AllocError>
    ensures { IfOk result (λ text. text.items ≡ refusal_line p.now refusal.now) }
{
    match *refusal {
        RegionsRefusal::Jitter(jitter) => jitter_line(alloc, jitter),
        RegionsRefusal::SafeNone { module, grain } => grain_line(alloc, p, module, &grain),
        RegionsRefusal::SafeNoneBeside { module, grain } => beside_line(alloc, p, module, &grain),
        RegionsRefusal::TooMany { module } => many_line(alloc, p, module),
        RegionsRefusal::SaferNone { module } => safer_line(alloc, p, module),
    }
}
