//! What is answered to the bytes of two missions.

ghost use Rattle.std.specs.Prelude.{◌≡◌, ℕ, ◌≤◌, List, Some, length, IfOk};
ghost use Rattle.sot_lang.specs.CertRules.{FitsTables};
ghost use Rattle.sot_flight.specs.Fits.{FitsFlight};
ghost use Rattle.sot_cli.specs.Texts.{input_limit};
ghost use Rattle.sot_bridge.specs.MissionHalves.{MissionHalves as Divided, halves_of};
ghost use Rattle.sot_bridge.specs.Answers.{Replies, SpellsSide};
ghost use Rattle.sot_bridge.specs.Sides.{side_of};
ghost use Rattle.sot_bridge.specs.Steps.{RepliesBoth};
ghost use Rattle.sot_bridge.specs.Texts.{kind_text};
ghost use Rattle.sot_report.specs.Loads.{LoadsMission};
ghost use Rattle.sot_sections.specs.declared.mission.Need.TheVariants as needs;

use crate::answer::{Which, faulty};
use crate::flying::fly_both;
use crate::halves::divide;
use crate::joining::{JoinFault, join};
use crate::side::Side;
use sot_cli::{Answer, fixed};
use sot_ports::{Process, let_go};
use sot_report::{LoadFail, Loaded, load};
use sot_sections::Need;
use std::alloc::{AllocError, Global};
use std::sync::Wait;
use std::thread::Threads;

/// What the words ask for: the names of two topics, and a delay in ticks.
#[derive(Clone, Copy, Debug)]
pub struct BridgeAsk<'w> {
    pub from: &'w str,
    pub to: &'w str,
    pub delay: u32,
}

fn kind_text(fault: JoinFault) -> &'static str
    ensures { result.now ≡ kind_text fault }
{
    match fault {
        JoinFault::Unknown => "fault bridge Unknown\n",
        JoinFault::Type => "fault bridge Type\n",
        JoinFault::Horizon => "fault bridge Horizon\n",
        JoinFault::TooManyEvents => "fault bridge TooManyEvents\n",
        JoinFault::TooManyNumbers => "fault bridge TooManyNumbers\n",
    }
}

// Flies two missions by the topics of these names, if they join.
fn bridged<R: Threads + Wait + Sync>(
    rt: &R,
    alloc: Global,
    ask: BridgeAsk<'_>,
    a: &Side<'_>,
    b: &Side<'_>,
) -> Result<Answer, AllocError>
    requires a_cert { FitsTables a.now.program.now a.now.cert.now }
    requires b_cert { FitsTables b.now.program.now b.now.cert.now }
    requires a_fits { FitsFlight a.now.program.now 0 a.now.flight.now }
    requires b_fits { FitsFlight b.now.program.now 0 b.now.flight.now }
    requires delay { ask.delay ≤ 100000 }
    ensures { IfOk result (λ answer. RepliesBoth (side_of a.now) (side_of b.now) ask.entry.from.now
        ask.entry.to.now ask.entry.delay answer.status answer.text.items) }
{
    match join(a, b, ask.from, ask.to, ask.delay) {
        Ok(joint) => fly_both(rt, alloc, a, b, joint, ask.delay),
        Err(fault) => fixed(alloc, 3, kind_text(fault)),
    }
}

// The mission that was read, with its flight.
fn side_of<'l>(loaded: &'l Loaded<'_>) -> Side<'l>
    requires { (bytes : List ℕ) × LoadsMission needs.Fly 0 bytes loaded.now }
    ensures program { result.program.now ≡ loaded.now.program }
    ensures cert { result.cert.now ≡ loaded.now.cert }
    ensures flight { Some result.flight.now ≡ loaded.now.flight }
{
    match &loaded.flight {
        Some(flight) => Side {
            program: &loaded.program,
            cert: &loaded.cert,
            flight,
        },
        // A mission that is to be flown has a flight.
        None => unreachable!(),
    }
}

// The second mission beside the first.
fn with_first<R: Threads + Wait + Sync>(
    rt: &R,
    alloc: Global,
    ask: BridgeAsk<'_>,
    a: &Side<'_>,
    bytes: &[u8],
    process: Process,
) -> Result<Answer, AllocError>
    requires a_cert { FitsTables a.now.program.now a.now.cert.now }
    requires a_fits { FitsFlight a.now.program.now 0 a.now.flight.now }
    requires delay { ask.delay ≤ 100000 }
    requires short { length bytes.now ≤ input_limit }
    ensures { (halves : Divided) (whole : List ℕ) → halves_of whole ≡ Some halves
        → halves.b ≡ bytes.now → SpellsSide halves.a (side_of a.now) → IfOk result (λ answer.
        Replies ask.entry.from.now ask.entry.to.now ask.entry.delay whole answer.status
        answer.text.items) }
{
    match load(alloc, bytes, Need::Fly, 0, process) {
        Ok(b) => {
            let answer = bridged(rt, alloc, ask, a, &side_of(&b));
            let_go(b, process);
            answer
        }
        Err(LoadFail::Fault(fault)) => faulty(alloc, Which::B, &fault),
        Err(LoadFail::Memory) => Err(AllocError),
    }
}

/// Reads two missions that a line `%bridge` divides, checks them, flies the first, and flies the
/// second with what the first published.
pub fn reply_of<R: Threads + Wait + Sync>(
    rt: &R,
    alloc: Global,
    ask: BridgeAsk<'_>,
    bytes: &[u8],
    process: Process,
) -> Result<Answer, AllocError>
    requires delay { ask.delay ≤ 100000 }
    requires short { length bytes.now ≤ input_limit }
    ensures { IfOk result (λ answer. Replies ask.entry.from.now ask.entry.to.now ask.entry.delay
        bytes.now answer.status answer.text.items) }
{
    let Some(halves) = divide(bytes) else {
        return fixed(alloc, 3, "fault bridge Section\n");
    };
    match load(alloc, halves.a, Need::Fly, 0, process) {
        Ok(a) => {
            let answer = with_first(rt, alloc, ask, &side_of(&a), halves.b, process);
            let_go(a, process);
            answer
        }
        Err(LoadFail::Fault(fault)) => faulty(alloc, Which::A, &fault),
        Err(LoadFail::Memory) => Err(AllocError),
    }
}
