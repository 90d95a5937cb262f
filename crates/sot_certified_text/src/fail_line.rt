//! The line that says why there is no certificate.

ghost use Rattle.std.specs.Prelude.{◌≡◌, ◌++◌, codes, IfOk};
ghost use Rattle.sot_report.specs.Pieces.{line, point_text};
ghost use Rattle.sot_certified_text.specs.FailTexts.{list_word, of_list, fail_text};

use sot_box::Point;
use sot_certify::CertifyFail;
use sot_lang::Typed;
use sot_report::{put, put_module, put_point, refusal_text};
use std::alloc::{AllocError, Global};

fn list_word(reach: bool) -> &'static str
    ensures { result.now ≡ list_word reach }
{
    if reach { "reach" } else { "closed" }
}

// The front of a line: the module and the sort of the list.
fn list_front(alloc: Global, p: &Typed, module: u32, reach: bool) -> Result<Vec<u8>, AllocError>
    ensures { IfOk result (λ text. text.items ≡ of_list p.now «module» reach) }
{
    let mut text = Vec::new(alloc);
    put(&mut text, "refused certify module ")?;
    put_module(&mut text, p, module)?;
    put(&mut text, " ")?;
    put(&mut text, list_word(reach))?;
    Ok(text)
}

fn point_line(
    alloc: Global,
    p: &Typed,
    module: u32,
    reach: bool,
    point: &Point,
) -> Result<Vec<u8>, AllocError>
    ensures { IfOk result (λ text. text.items
        ≡ line (of_list p.now «module» reach ++ codes " point " ++ point_text point.now)) }
{
    let mut text = list_front(alloc, p, module, reach)?;
    put(&mut text, " point ")?;
    put_point(alloc, &mut text, point)?;
    text.push(b'\n')?;
    Ok(text)
}

fn many_line(alloc: Global, p: &Typed, module: u32, reach: bool) -> Result<Vec<u8>, AllocError>
    ensures { IfOk result (λ text. text.items
        ≡ line (of_list p.now «module» reach ++ codes " TooMany")) }
{
    let mut text = list_front(alloc, p, module, reach)?;
    put(&mut text, " TooMany\n")?;
    Ok(text)
}

/// The line that says why there is no certificate: that of the refusal, or `refused certify module
/// NAME closed point (X)`, or `refused certify module NAME closed TooMany`, with `reach` in place
/// of `closed` for a list of reach cells. Want of memory has no line, and an empty text here.
pub fn fail_text(alloc: Global, p: &Typed, fail: &CertifyFail) -> Result<Vec<u8>, AllocError>
    ensures { IfOk result (λ text. text.items ≡ fail_text p.now fail.now) }
{
    match *fail {
        CertifyFail::Refused(refusal) => refusal_text(alloc, p, &refusal),
        CertifyFail::Point {
            module,
            reach,
            point,
        } => point_line(alloc, p, module, reach, &point),
        CertifyFail::TooMany { module, reach } => many_line(alloc, p, module, reach),
        CertifyFail::Memory => Ok(Vec::new(alloc)),
    }
}
