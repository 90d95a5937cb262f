//! The lines that a robot is answered with.

ghost use Rattle.std.specs.Prelude.{◌≡◌, ℕ, ◌<◌, ◌∷◌, [], length, map};
ghost use Rattle.sot_guard_protocol.specs.Answers.{told_line, hold_lines, instant_lines};
ghost use Rattle.sot_guard_protocol.specs.Answers.{outside_lines, AreThere};
ghost use Rattle.sot_guard_protocol.specs.Answers.{misheard_word, aside_word, ignored_line};
ghost use Rattle.sot_guard_protocol.specs.Answers.{blind_line, resume_line};
ghost use Rattle.sot_guard_lines.specs.Lines.{ready_line};
ghost use Rattle.sot_trace.specs.Traces.{text_of};
ghost use Rattle.sot_trace.specs.Lines.{line_of};
ghost use Rattle.sot_world.specs.HistoryEntry.{InputAt};

use crate::about::put_about;
use crate::aside::Aside;
use sot_guard::{Misheard, Outside, Told};
use sot_guard_lines::{put_hold, put_outside, put_ready, put_refused_resume, put_resumed};
use sot_lang::Typed;
use sot_text_output::Out;
use sot_trace::{put_decision, put_firing, put_input, put_time};

// What happened, without a line end.
fn put_told<O: Out>(out: &mut O, p: &Typed, time: u64, told: Told)
    requires { AreThere p.now (told ∷ []) }
    ensures { O.puts out.old out.new (told_line p.now time told) }
{
    match told {
        Told::Decided { module, mode } => put_decision(out, p, time, module, mode),
        Told::Fired { node, firing } => {
            let _ = put_firing(out, p, time, node, &firing.draft, firing.enabled);
        }
    }
}

// All that happened, line by line.
fn put_all_told<O: Out>(out: &mut O, p: &Typed, time: u64, told: &[Told])
    requires { AreThere p.now told.now }
    ensures { O.puts out.old out.new (text_of (map (told_line p.now time) told.now)) }
{
    for i in 0..told.len() {
        put_told(out, p, time, told[i]);
        out.put_byte(b'\n');
    }
}

// The commands that hold each plant, line by line.
fn put_holds<O: Out>(out: &mut O, p: &Typed, time: u64, scalars: &[i64])
    requires { length scalars.now ≡ length p.now.scalars }
    ensures { O.puts out.old out.new
        (text_of (hold_lines p.now time scalars.now 0 p.now.plants)) }
{
    for k in 0..p.plants.len() {
        put_hold(out, p, time, k as u32, scalars);
        out.put_byte(b'\n');
    }
}

// The line that ends an instant.
fn put_end_of_instant<O: Out>(out: &mut O, p: &Typed, time: u64)
    ensures { O.puts out.old out.new (text_of (ready_line p.now time ∷ [])) }
{
    put_ready(out, p, time);
    out.put_byte(b'\n')
}

/// All lines of an instant: what happened, the commands in force, and that the robot may go on.
pub(crate) fn put_instant<O: Out>(out: &mut O, p: &Typed, time: u64, told: &[Told], scalars: &[i64])
    requires there { AreThere p.now told.now }
    requires scalars { length scalars.now ≡ length p.now.scalars }
    ensures { O.puts out.old out.new
        (text_of (instant_lines p.now time scalars.now told.now)) }
{
    put_all_told(out, p, time, told);
    put_holds(out, p, time, scalars);
    put_end_of_instant(out, p, time)
}

/// The line of a state variable that was observed outside its interval, if one was.
pub(crate) fn put_where_outside<O: Out>(out: &mut O, p: &Typed, time: u64, outside: Option<Outside>)
    ensures { O.puts out.old out.new (text_of (outside_lines p.now time outside)) }
{
    match outside {
        None => {}
        Some(o) => {
            put_outside(out, p, time, o.plant, o.state, o.bounds, o.value);
            out.put_byte(b'\n')
        }
    }
}

/// The line of an input.
pub(crate) fn put_value<O: Out>(out: &mut O, p: &Typed, time: u64, topic: u32, value: &[i64])
    ensures { O.puts out.old out.new
        (text_of (line_of p.now (InputAt time topic value.now) ∷ [])) }
{
    put_input(out, p, time, topic, value);
    out.put_byte(b'\n')
}

fn put_resume_line<O: Out>(out: &mut O, p: &Typed, time: u64, refused: Option<u32>)
    ensures { O.puts out.old out.new (resume_line p.now time refused) }
{
    match refused {
        None => put_resumed(out, time),
        Some(module) => put_refused_resume(out, p, time, module),
    }
}

/// The line of a resume: the models are trusted again, or this module keeps them from being.
pub(crate) fn put_resume<O: Out>(out: &mut O, p: &Typed, time: u64, refused: Option<u32>)
    ensures { O.puts out.old out.new (text_of (resume_line p.now time refused ∷ [])) }
{
    put_resume_line(out, p, time, refused);
    out.put_byte(b'\n')
}

/// The name of what is wrong with a line.
pub fn misheard_word(why: Misheard) -> &'static str
    ensures { result.now ≡ misheard_word why }
{
    match why {
        Misheard::OutOfTurn => "OutOfTurn",
        Misheard::NotALine => "NotALine",
        Misheard::NotDue => "NotDue",
        Misheard::AlreadyDrafted => "AlreadyDrafted",
        Misheard::OutsideType => "OutsideType",
        Misheard::TooFar => "TooFar",
        Misheard::NotSeen => "NotSeen",
    }
}

fn aside_word(aside: Aside) -> &'static str
    ensures { result.now ≡ aside_word aside }
{
    match aside {
        Aside::Draft => "draft",
        Aside::Input => "input",
        Aside::Resume => "resume",
    }
}

// The line of a draft, an input or a resume that is not taken, without its line end.
fn put_ignored_line<O: Out>(
    out: &mut O,
    p: &Typed,
    time: u64,
    aside: Aside,
    line: &[u8],
    why: Misheard,
)
    ensures { O.puts out.old out.new (ignored_line p.now time aside line.now why) }
{
    put_time(out, time);
    out.put(" ignored ");
    out.put(aside_word(aside));
    put_about(out, p, aside, line);
    out.put_byte(b' ');
    out.put(misheard_word(why))
}

/// The line of a draft, an input or a resume that is not taken.
pub(crate) fn put_ignored<O: Out>(
    out: &mut O,
    p: &Typed,
    time: u64,
    aside: Aside,
    line: &[u8],
    why: Misheard,
)
    ensures { O.puts out.old out.new
        (text_of (ignored_line p.now time aside line.now why ∷ [])) }
{
    put_ignored_line(out, p, time, aside, line, why);
    out.put_byte(b'\n')
}

// The line of another line that is not taken, without its line end.
fn put_blind_line<O: Out>(out: &mut O, time: u64, why: Misheard)
    ensures { O.puts out.old out.new (blind_line time why) }
{
    put_time(out, time);
    out.put(" blind ");
    out.put(misheard_word(why))
}

/// The line of another line that is not taken.
pub(crate) fn put_blind<O: Out>(out: &mut O, time: u64, why: Misheard)
    ensures { O.puts out.old out.new (text_of (blind_line time why ∷ [])) }
{
    put_blind_line(out, time, why);
    out.put_byte(b'\n')
}
