//! The line of a fault.

ghost use Rattle.std.specs.Prelude.{◌≡◌, IfOk};
ghost use Rattle.std.specs.String.{string_bytes};
ghost use Rattle.sot_report.specs.FaultTexts.{section_word, rule_word, json_word, path_text};
ghost use Rattle.sot_report.specs.FaultTexts.{placed_text, section_text, syntax_text, type_text};
ghost use Rattle.sot_report.specs.FaultTexts.{json_text, fault_text};

use crate::fault::Fault;
use sot_json::{JsonFault, JsonKind, Path};
use sot_parser::Syntax;
use sot_rules::{TypeFault, TypeKind};
use sot_sections::{SectionFault, SectionKind};
use sot_text::{LexFault, Span};
use std::alloc::{AllocError, Global};

fn section_word(kind: SectionKind) -> &'static str
    ensures { result.now ≡ section_word kind }
{
    match kind {
        SectionKind::Unknown => "Unknown",
        SectionKind::Order => "Order",
        SectionKind::Missing => "Missing",
    }
}

fn rule_word(kind: TypeKind) -> &'static str
    ensures { result.now ≡ rule_word kind }
{
    match kind {
        TypeKind::Unknown => "Unknown",
        TypeKind::Twice => "Twice",
        TypeKind::ScaleDiffers => "ScaleDiffers",
        TypeKind::KindDiffers => "KindDiffers",
        TypeKind::RangeEmpty => "RangeEmpty",
        TypeKind::InitOutside => "InitOutside",
        TypeKind::ReadsAndWrites => "ReadsAndWrites",
        TypeKind::TooMany => "TooMany",
        TypeKind::RangeWide => "RangeWide",
        TypeKind::NoModule => "NoModule",
        TypeKind::PeriodOutside => "PeriodOutside",
        TypeKind::NextMissing => "NextMissing",
    }
}

fn json_word(kind: JsonKind) -> &'static str
    ensures { result.now ≡ json_word kind }
{
    match kind {
        JsonKind::NotJson => "NotJson",
        JsonKind::WrongShape => "WrongShape",
        JsonKind::NotWhole => "NotWhole",
        JsonKind::OutsideRange => "OutsideRange",
        JsonKind::Missing => "Missing",
        JsonKind::Unknown => "Unknown",
        JsonKind::Width => "Width",
        JsonKind::Empty => "Empty",
        JsonKind::TooMany => "TooMany",
        JsonKind::Order => "Order",
        JsonKind::NoGuest => "NoGuest",
        JsonKind::GuestTwice => "GuestTwice",
        JsonKind::TooManyEvents => "TooManyEvents",
        JsonKind::TooManyNumbers => "TooManyNumbers",
    }
}

fn section_text(alloc: Global, fault: SectionFault) -> Result<String, AllocError>
    ensures { IfOk result (λ text. string_bytes text ≡ section_text fault) }
{
    let line = fault.line;
    let kind = section_word(fault.kind);
    let text = format!(in alloc; "fault section line {line} {kind}\n")?;
    Ok(text)
}

fn placed_text(alloc: Global, sort: &str, at: Span, kind: &str) -> Result<String, AllocError>
    ensures { IfOk result (λ text. string_bytes text ≡ placed_text sort.now at kind.now) }
{
    let line = at.line;
    let column = at.column;
    let text = format!(in alloc; "fault {sort} line {line} column {column} {kind}\n")?;
    Ok(text)
}

fn syntax_text(alloc: Global, fault: Syntax) -> Result<String, AllocError>
    ensures { IfOk result (λ text. string_bytes text ≡ syntax_text fault) }
{
    match fault {
        Syntax::Lex(LexFault::BadByte { at }) => placed_text(alloc, "syntax", at, "BadByte"),
        Syntax::Lex(LexFault::NameLong { at }) => placed_text(alloc, "syntax", at, "NameLong"),
        Syntax::Lex(LexFault::LiteralWide { at }) => {
            placed_text(alloc, "syntax", at, "LiteralWide")
        }
        Syntax::Token { at } => placed_text(alloc, "syntax", at, "Token"),
        Syntax::Deep { at } => placed_text(alloc, "syntax", at, "Deep"),
    }
}

fn type_text(alloc: Global, fault: TypeFault) -> Result<String, AllocError>
    ensures { IfOk result (λ text. string_bytes text ≡ type_text fault) }
{
    placed_text(alloc, "type", fault.at, rule_word(fault.kind))
}

// The pointer as it is printed.
fn path_text(path: &Path) -> &str
    ensures { result.now ≡ path_text path.now }
{
    let text = path.as_str();
    if text.is_empty() { "/" } else { text }
}

fn json_text(alloc: Global, section: &str, fault: &JsonFault) -> Result<String, AllocError>
    ensures { IfOk result (λ text. string_bytes text ≡ json_text section.now fault.now) }
{
    let path = path_text(&fault.path);
    let kind = json_word(fault.kind);
    let text = format!(in alloc; "fault {section} {path} {kind}\n")?;
    Ok(text)
}

/// The line of a fault: `fault`, the part that is at fault, the place there, and the kind.
pub fn fault_text(alloc: Global, fault: &Fault) -> Result<String, AllocError>
    ensures { IfOk result (λ text. string_bytes text ≡ fault_text fault.now) }
{
    match fault {
        Fault::Section(fault) => section_text(alloc, *fault),
        Fault::Syntax(fault) => syntax_text(alloc, *fault),
        Fault::Typing(fault) => type_text(alloc, *fault),
        Fault::Cert(fault) => json_text(alloc, "certificate", fault),
        Fault::Flight(fault) => json_text(alloc, "flight", fault),
    }
}
