//! The faults of a mission.

use sot_json::JsonFault;
use sot_parser::Syntax;
use sot_rules::TypeFault;
use sot_sections::SectionFault;

/// The first fault of the bytes of a mission, in the order of these kinds.
#[derive(Drop)]
pub enum Fault {
    /// A section is unknown, out of order, or missing.
    Section(SectionFault),
    /// The program's section spells no program.
    Syntax(Syntax),
    /// The program breaks a rule of typing.
    Typing(TypeFault),
    /// The certificate's section says no certificate of the program.
    Cert(JsonFault),
    /// The flight's section says no flight of the program.
    Flight(JsonFault),
}

/// Why a mission was not loaded.
#[derive(Drop)]
pub enum LoadFail {
    Fault(Fault),
    /// There was no memory for it. It says nothing of the bytes.
    Memory,
}
