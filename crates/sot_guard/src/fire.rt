//! What a firing drafts.

ghost use Rattle.sot_guard.specs.Running.{MayRunOn, RunsTo};

use sot_box::Point;
use sot_code::{Locals, run_node};
use sot_lang::{Draft, Typed};
use sot_world::Lent;

/// What the body of a coded node drafts on these numbers, and its new locals. Where the body traps
/// it drafts nothing, and the locals stay.
pub(crate) fn run(
    p: &Typed,
    node: u32,
    scalars: &[i64],
    points: &[Point],
    locals: &mut Locals,
) -> Draft
    requires { MayRunOn p.now node scalars.now points.now locals.old }
    ensures { RunsTo p.now node scalars.now points.now locals.old locals.new result }
{
    let seen = Lent::of(&p.nodes[node as usize].reads, scalars, points);
    match run_node(p, node, &seen, locals) {
        Ok(fired) => {
            *locals = fired.locals;
            fired.draft
        }
        Err(_) => Draft::blank(),
    }
}
