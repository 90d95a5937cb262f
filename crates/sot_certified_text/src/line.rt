//! The line of a certificate.

ghost use Rattle.std.specs.Prelude.{◌≡◌, length, Some, IfOk};
ghost use Rattle.serde_json.specs.Written.{compact_text};
ghost use Rattle.sot_json.specs.Json.{json_of};
ghost use Rattle.sot_certified_text.specs.CertText.{data_with_jitter, line_with_jitter};

use crate::value::certificate_value;
use sot_lang::{Cert, Typed};
use std::alloc::{AllocError, Global};

/// A certificate as JSON with no blank: an object of its format, its jitter and its modules, each
/// module under its name with its two lists of cells; the keys of each object are in the order of
/// their bytes. One without jitter is of format 1 and does not say it, any other of format 2. The
/// certificate has an entry, or none, for each module of the program. What is written reads back as
/// the value that was written.
pub fn certificate_json(alloc: Global, p: &Typed, cert: &Cert) -> Result<Vec<u8>, AllocError>
    requires entries { length cert.now.modules.items ≡ length p.now.modules }
    ensures text { IfOk result (λ text.
        text.items ≡ compact_text (data_with_jitter p.now cert.now)) }
    ensures reads_back { IfOk result (λ text. json_of text.items
        ≡ Some (data_with_jitter p.now cert.now)) }
{
    let value = certificate_value(alloc, p, cert)?;
    let text = value.to_vec(alloc)?;
    Ok(text)
}

/// A certificate as a line of its own: JSON with no blank, as `certificate_json` writes it, and a
/// line end. It reads back as the value that was written.
#[tactic(auto, using(crate::proofs::JsonEnds::json_ends))]
pub fn certificate_line(alloc: Global, p: &Typed, cert: &Cert) -> Result<Vec<u8>, AllocError>
    requires entries { length cert.now.modules.items ≡ length p.now.modules }
    ensures text { IfOk result (λ text. text.items ≡ line_with_jitter p.now cert.now) }
    ensures reads_back { IfOk result (λ text. json_of text.items
        ≡ Some (data_with_jitter p.now cert.now)) }
{
    let mut text = certificate_json(alloc, p, cert)?;
    text.push(b'\n')?;
    Ok(text)
}
