//! What bytes spell.

ghost use Rattle.std.specs.Prelude.{◌≡◌, ◌<◌, ◌+◌, ◌^◌, length, IfOk, IfErr, IfSome};
ghost use Rattle.std.specs.Option.{option_map};
ghost use Rattle.sot_sections.specs.Sections.{parts_of};
ghost use Rattle.sot_syntax_tree.specs.TreeViews.{program_view};
ghost use Rattle.sot_syntax_tree.specs.Formed.{IsFormed};
ghost use Rattle.sot_syntax_tree.specs.Trees.{Program as Tree};
ghost use Rattle.sot_lang.specs.CertRules.{FitsTables};
ghost use Rattle.sot_flight.specs.Fits.{FitsFlight};
ghost use Rattle.sot_report.specs.Missions.{Resolves, SaysFlight, HasFault};
ghost use Rattle.sot_report.specs.Loads.{IfFault, SaysCert, FailsCert, FailsFlight, FailsTables};
ghost use Rattle.sot_report.specs.Loads.{LoadsTree, FailsTree, LoadsText, FailsText, LoadsMission};

use crate::fault::{Fault, LoadFail};
use sot_cert::{CertFail, read_cert};
use sot_flight::{Flight, FlightFail, read_flight};
use sot_lang::{Cert, Typed};
use sot_parser::{ParseFail, Syntax, parse};
use sot_ports::{Process, let_go};
use sot_rules::{TypeFail, TypeFault};
use sot_sections::{Need, Sections, split};
use sot_syntax_tree::Program;
use sot_text::Lexer;
use sot_typing::resolve;
use std::alloc::Global;

/// A mission: the tables of its program, its certificate, which fits them, and, where the command
/// needs them, its flight and the bytes of its trace.
pub struct Loaded<'t> {
    pub program: Typed,
    pub cert: Cert,
    pub flight: Option<Flight>,
    pub trace: Option<&'t [u8]>,
}

impl<'t> Drop for Loaded<'t> {
    fn drop(self) {
        let Loaded {
            program: _,
            cert: _,
            flight: _,
            trace: _,
        } = self;
    }
}

// A fault that the program's names and types have.
fn mistyped(fault: TypeFault) -> LoadFail
    ensures { result ≡ LoadFail.Fault (Fault.Typing fault) }
{
    LoadFail::Fault(Fault::Typing(fault))
}

// A fault that the program's text has.
fn misspelled(fault: Syntax) -> LoadFail
    ensures { result ≡ LoadFail.Fault (Fault.Syntax fault) }
{
    LoadFail::Fault(Fault::Syntax(fault))
}

// The flight that a section says, if there is one.
fn load_flight(
    alloc: Global,
    p: &Typed,
    guests: u32,
    section: Option<&[u8]>,
) -> Result<Option<Flight>, LoadFail>
    ensures ok { IfOk result (λ f. SaysFlight p.now guests (option_map (λ b. b.now) section.entry)
        f) }
    ensures flight_fits { IfOk result (λ f. IfSome f (λ x. FitsFlight p.now guests x)) }
    ensures fault { IfErr result (λ e.
        IfFault e (FailsFlight p.now guests (option_map (λ b. b.now) section.entry))) }
{
    let Some(bytes) = section else {
        return Ok(None);
    };
    match read_flight(alloc, p, guests, bytes) {
        Ok(flight) => Ok(Some(flight)),
        Err(FlightFail::Fault(fault)) => Err(LoadFail::Fault(Fault::Flight(fault))),
        Err(FlightFail::Memory) => Err(LoadFail::Memory),
    }
}

// The certificate that a section says.
fn load_cert(alloc: Global, p: &Typed, section: &[u8], process: Process) -> Result<Cert, LoadFail>
    ensures ok { IfOk result (λ c. SaysCert p.now section.now c) }
    ensures fault { IfErr result (λ e. IfFault e (FailsCert p.now section.now)) }
{
    match read_cert(alloc, p, section, process) {
        Ok(cert) => Ok(cert),
        Err(CertFail::Fault(fault)) => Err(LoadFail::Fault(Fault::Cert(fault))),
        Err(CertFail::Memory) => Err(LoadFail::Memory),
    }
}

// What the sections say of these tables.
fn load_tables<'t>(
    alloc: Global,
    program: Typed,
    sections: Sections<'t>,
    guests: u32,
    process: Process,
) -> Result<Loaded<'t>, LoadFail>
    ensures ok { IfOk result (λ l. (p : Tree) → Resolves p program
        → LoadsTree p (parts_of sections.entry) guests l) }
    ensures flight_fits { IfOk result (λ l. IfSome l.flight (λ f. FitsFlight l.program guests f)) }
    ensures fault { IfErr result (λ e.
        IfFault e (FailsTables program (parts_of sections.entry) guests)) }
{
    let cert = load_cert(alloc, &program, sections.cert, process)?;
    let flight = load_flight(alloc, &program, guests, sections.flight)?;
    Ok(Loaded {
        program,
        cert,
        flight,
        trace: sections.trace,
    })
}

// The tables of a program, and what the sections say of them.
fn load_tree<'t>(
    alloc: Global,
    program: &Program,
    sections: Sections<'t>,
    guests: u32,
    process: Process,
) -> Result<Loaded<'t>, LoadFail>
    requires formed { IsFormed (program_view program.now) }
    ensures ok { IfOk result (λ l. LoadsTree (program_view program.now) (parts_of sections.entry)
        guests l) }
    ensures flight_fits { IfOk result (λ l. IfSome l.flight (λ f. FitsFlight l.program guests f)) }
    ensures fault { IfErr result (λ e.
        IfFault e (FailsTree (program_view program.now) (parts_of sections.entry) guests)) }
{
    match resolve(alloc, program) {
        Ok(typed) => load_tables(alloc, typed, sections, guests, process),
        Err(TypeFail::Fault(fault)) => Err(mistyped(fault)),
        Err(TypeFail::Memory) => Err(LoadFail::Memory),
    }
}

// The program that the first section spells, and what the others say.
fn load_text<'t>(
    alloc: Global,
    sections: Sections<'t>,
    guests: u32,
    process: Process,
) -> Result<Loaded<'t>, LoadFail>
    requires { length sections.program.now + 1 < 2 ^ 32 }
    ensures ok { IfOk result (λ l. LoadsText (parts_of sections.entry) guests l) }
    ensures flight_fits { IfOk result (λ l. IfSome l.flight (λ f. FitsFlight l.program guests f)) }
    ensures fault { IfErr result (λ e. IfFault e (FailsText (parts_of sections.entry) guests)) }
{
    match parse(alloc, &Lexer::new(sections.program)) {
        Ok(program) => {
            let loaded = load_tree(alloc, &program, sections, guests, process);
            let_go(program, process);
            loaded
        }
        Err(ParseFail::Syntax(fault)) => Err(misspelled(fault)),
        Err(ParseFail::Memory) => Err(LoadFail::Memory),
    }
}

/// The mission that the bytes spell, with all that a command needs: its program and its
/// certificate, to fly its flight too, and to replay the bytes of its trace as well. `guests` is
/// how many controllers were handed in. What was read on the way is let go, unless the process
/// ends. Else the first fault: of the sections, else of syntax, else of typing, else of the
/// certificate, else of the flight. The bytes are fewer than 2^32 - 1.
pub fn load<'t>(
    alloc: Global,
    bytes: &'t [u8],
    need: Need,
    guests: u32,
    process: Process,
) -> Result<Loaded<'t>, LoadFail>
    requires { length bytes.now + 1 < 2 ^ 32 }
    ensures ok { IfOk result (λ l. LoadsMission need guests bytes.now l) }
    ensures cert_fits { IfOk result (λ l. FitsTables l.program l.cert) }
    ensures flight_fits { IfOk result (λ l. IfSome l.flight (λ f. FitsFlight l.program guests f)) }
    ensures fault { IfErr result (λ e. IfFault e (HasFault need guests bytes.now)) }
{
    match split(bytes, need) {
        Ok(sections) => load_text(alloc, sections, guests, process),
        Err(fault) => Err(LoadFail::Fault(Fault::Section(fault))),
    }
}
