//! The vehicle on a line, opened and stepped. What comes of each step was worked out by hand, and
//! the flight again by a program that was written from the rules alone.

ghost use Rattle.std.specs.Prelude.{◌≤ℤ◌, ◌≡◌, ◌∷◌, [], IfOk};
ghost use Rattle.sot_lang.specs.CertRules.{FitsTables};
ghost use Rattle.sot_worked_missions.specs.Line.{IsLine, IsMove};
ghost use Rattle.sot_test_runs.specs.Entries.{FitsAll};

use super::drive::happen;
use super::same;
use crate::line_cert;
use sot_box::{Interval, Point};
use sot_compose::check_all;
use sot_lang::{Cert, Draft, Typed};
use sot_tube::Accepted;
use sot_worked_missions::line;
use sot_world::{Event, Mode, OpenFail, Outcome, Why, World};
use std::alloc::{AllocError, Global};
use std::process::Abort;
use std::thread::Threads;

pub(super) fn at(x: i64) -> Point
    ensures { result ≡ x ∷ [] }
{
    Point::of(&[x]).unwrap()
}

fn side(lo: i64, hi: i64) -> Interval
    requires { lo ≤ℤ hi }
    ensures { result ≡ record { lo = lo; hi = hi } }
{
    Interval { lo, hi }
}

// The certificate with its three closed cells and its reach cell.
fn cert(alloc: Global) -> Result<Cert, AllocError>
    ensures { IfOk result (FitsAll (1 ∷ [])) }
{
    let closed = [side(-40, -11), side(-10, 10), side(11, 40)];
    let cert = line_cert(alloc, &closed, &[side(-10, 10)])?;
    Ok(cert)
}

// The program, which is accepted.
pub(super) fn accepted<'a>(
    rt: &(impl Abort + Threads + Sync),
    p: &'a Typed,
    c: &'a Cert,
) -> Accepted<'a>
    requires { FitsTables p.now c.now }
    ensures { result.program ≡ p.now }
{
    match check_all(rt, p, c) {
        Ok(acc) => acc,
        Err(_) => panic!(rt; "the mission is refused"),
    }
}

// Opens the vehicle at this place.
fn opened<'a>(
    alloc: Global,
    p: &Typed,
    acc: &'a Accepted<'a>,
    x: i64,
) -> Result<World<'a>, OpenFail>
    requires program { acc.now.program ≡ p.now }
    requires line { IsLine IsMove p.now }
    ensures { IfOk result (λ w. w.accepted.program ≡ p.now) }
{
    let world = World::open(alloc, acc, &[at(x)])?;
    Ok(world)
}

// What there is to see of a world of the vehicle.
#[derive(Clone, Copy, PartialEq, Eq, Debug)]
struct View {
    time: u32,
    mode: Mode,
    x: Point,
    cmd: i64,
    locals: usize,
    left: (bool, bool),
    left_dm: bool,
}

fn view_of(p: &Typed, w: &World<'_>) -> View
    requires program { w.now.accepted.program ≡ p.now }
    requires line { IsLine IsMove p.now }
{
    View {
        time: w.time(),
        mode: w.mode(0),
        x: w.state(0),
        cmd: w.scalar(0),
        locals: w.locals(0).len() + w.locals(1).len(),
        left: (w.left(0), w.left(1)),
        left_dm: w.left_dm(0),
    }
}

fn seen(time: u32, mode: Mode, x: i64, cmd: i64, left: (bool, bool), left_dm: bool) -> View {
    View {
        time,
        mode,
        x: at(x),
        cmd,
        locals: 0,
        left,
        left_dm,
    }
}

pub(super) fn draft(v: i64) -> Draft {
    let mut draft = Draft::blank();
    draft.set(0, v);
    draft
}

fn fired(v: i64, enabled: bool) -> Result<Outcome, Why> {
    Ok(Outcome::Fired {
        draft: draft(v),
        enabled,
    })
}

#[test]
fn a_world_opens_in_the_safer_region(rt: HostRuntime) {
    let alloc = rt.alloc();
    let p = line(alloc).expect(&rt, "memory");
    let c = cert(alloc).expect(&rt, "memory");
    let acc = accepted(&rt, &p, &c);
    for (x, wanted) in [
        (-11, Some(OpenFail::NotSafer { module: 0 })),
        (-10, None),
        (10, None),
        (11, Some(OpenFail::NotSafer { module: 0 })),
    ] {
        same(&rt, x, opened(alloc, &p, &acc, x).err(), wanted);
    }
}

const BOTH: (bool, bool) = (true, true);

const SLOW: (bool, bool) = (false, true);

const NONE: (bool, bool) = (false, false);

const CALM: u32 = 0;

const GUST: u32 = 1;

const WILD: u32 = 2;

const DECIDE: u32 = 3;

const FAST: u32 = 4;

const SLOW_NODE: u32 = 5;

// Steps by the event of this name, where the advanced node drafts `v`.
fn ask(p: &Typed, w: &mut World<'_>, name: u32, v: i64) -> Option<Result<Outcome, Why>>
    requires { w.old.accepted.program ≡ p.now }
    ensures { w.new.accepted.program ≡ p.now }
{
    match name {
        CALM => happen(p, w, &Event::Tick { noise: &[0] }),
        GUST => happen(p, w, &Event::Tick { noise: &[1] }),
        WILD => happen(p, w, &Event::Tick { noise: &[2] }),
        DECIDE => happen(p, w, &Event::Decide { module: 0 }),
        FAST => {
            let fast = Event::Guest {
                node: 0,
                draft: draft(v),
            };
            happen(p, w, &fast)
        }
        _ => happen(p, w, &Event::Code { node: 1 }),
    }
}

type Step = (u32, Result<Outcome, Why>, View);

// What is asked of a world, what it answers and how it is then. The advanced node drafts `v`, and
// then the command is `cmd`.
fn plan(v: i64, cmd: i64, x: i64) -> [Step; 10] {
    [
        (CALM, Err(Why::NodesLeft), opening()),
        (DECIDE, Ok(Outcome::Decided { mode: Mode::Ac }), chosen()),
        (DECIDE, Err(Why::AlreadyFired), chosen()),
        (FAST, fired(v, true), drafted(cmd)),
        (SLOW_NODE, fired(0, false), done(cmd)),
        (SLOW_NODE, Err(Why::AlreadyFired), done(cmd)),
        (WILD, Err(Why::OutsideType), done(cmd)),
        (GUST, Ok(Outcome::Ticked), next(cmd, x)),
        (DECIDE, Err(Why::NotDue), next(cmd, x)),
        (FAST, Err(Why::NotDue), next(cmd, x)),
    ]
}

fn opening() -> View {
    seen(0, Mode::Sc, 0, 0, BOTH, true)
}

fn chosen() -> View {
    seen(0, Mode::Ac, 0, 0, BOTH, false)
}

fn drafted(cmd: i64) -> View {
    seen(0, Mode::Ac, 0, cmd, SLOW, false)
}

fn done(cmd: i64) -> View {
    seen(0, Mode::Ac, 0, cmd, NONE, false)
}

fn next(cmd: i64, x: i64) -> View {
    seen(1, Mode::Ac, x, cmd, NONE, false)
}

// Asks one thing of a world, where the advanced node drafts `v`.
fn answers(rt: &impl Abort, p: &Typed, w: &mut World<'_>, v: i64, step: Step)
    requires program { w.old.accepted.program ≡ p.now }
    requires line { IsLine IsMove p.now }
    ensures { w.new.accepted.program ≡ p.now }
{
    let (name, wanted, after) = step;
    same(rt, name, ask(p, w, name, v), Some(wanted));
    same(rt, name, view_of(p, w), after);
}

// Asks all of a plan of the vehicle at 0, where the advanced node drafts `v`.
fn steps(rt: &(impl Abort + Threads + Sync), alloc: Global, v: i64, plan: &[Step]) {
    let p = line(alloc).expect(rt, "memory");
    let c = cert(alloc).expect(rt, "memory");
    let acc = accepted(rt, &p, &c);
    let Ok(mut w) = opened(alloc, &p, &acc, 0) else {
        panic!(rt; "the vehicle opens at 0");
    };
    same(rt, "opened", view_of(&p, &w), opening());
    for step in plan {
        answers(rt, &p, &mut w, v, *step);
    }
}

#[test]
fn an_instant_is_stepped_in_order(rt: HostRuntime) {
    steps(&rt, rt.alloc(), 2, &plan(2, 2, 3));
}

#[test]
fn a_draft_outside_its_range_is_recorded_alone(rt: HostRuntime) {
    steps(&rt, rt.alloc(), 7, &plan(7, 0, 1));
}

// The safe node, then the advanced one with a draft of 2, then a calm tick: each where it can
// happen.
fn fly(p: &Typed, w: &mut World<'_>)
    requires { w.old.accepted.program ≡ p.now }
    ensures { w.new.accepted.program ≡ p.now }
{
    let _slow = happen(p, w, &Event::Code { node: 1 });
    let fast = Event::Guest {
        node: 0,
        draft: draft(2),
    };
    let _fast = happen(p, w, &fast);
    let _tick = happen(p, w, &Event::Tick { noise: &[0] });
}

// Decides, which chooses this mode where the vehicle is now, and flies up to the next decision.
fn decide(rt: &impl Abort, p: &Typed, w: &mut World<'_>, time: u32, x: i64, mode: Mode)
    requires program { w.old.accepted.program ≡ p.now }
    requires line { IsLine IsMove p.now }
    ensures { w.new.accepted.program ≡ p.now }
{
    let decided = happen(p, w, &Event::Decide { module: 0 });
    same(rt, time, decided, Some(Ok(Outcome::Decided { mode })));
    let now = view_of(p, w);
    same(rt, time, (now.time, now.x), (time, at(x)));
    fly(p, w);
    fly(p, w);
    fly(p, w);
    fly(p, w);
}

#[test]
fn a_flight_switches_and_returns(rt: HostRuntime) {
    let alloc = rt.alloc();
    let p = line(alloc).expect(&rt, "memory");
    let c = cert(alloc).expect(&rt, "memory");
    let acc = accepted(&rt, &p, &c);
    let Ok(mut w) = opened(alloc, &p, &acc, 0) else {
        panic!(rt; "the vehicle opens at 0");
    };
    for (time, x, mode) in [
        (0, 0, Mode::Ac),
        (4, 8, Mode::Ac),
        (8, 16, Mode::Ac),
        (12, 24, Mode::Sc),
        (16, 16, Mode::Sc),
        (20, 8, Mode::Ac),
        (24, 16, Mode::Ac),
    ] {
        decide(&rt, &p, &mut w, time, x, mode);
    }
}
