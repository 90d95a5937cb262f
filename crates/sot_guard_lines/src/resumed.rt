//! How a line `resume` is answered.

ghost use Rattle.sot_guard_lines.specs.Lines.{resumed_line, refused_resume_line};
ghost use Rattle.sot_lang.specs.Names.{module_name};

use sot_lang::Typed;
use sot_text_output::Out;
use sot_trace::{put_name, put_time};

/// That the models are trusted again. Times are in ticks.
pub fn put_resumed<O: Out>(out: &mut O, time: u64)
    ensures { O.puts out.old out.new (resumed_line time) }
{
    put_time(out, time);
    out.put(" resumed")
}

// The name of a module, and nothing where there is none.
fn put_module<O: Out>(out: &mut O, p: &Typed, module: u32)
    ensures { O.puts out.old out.new (module_name p.now «module») }
{
    match p.modules.get(module as usize) {
        Some(info) => put_name(out, &info.name),
        None => {}
    }
}

/// That the models are not trusted again, since of this module the commands in force do not hold
/// the plant safe.
pub fn put_refused_resume<O: Out>(out: &mut O, p: &Typed, time: u64, module: u32)
    ensures { O.puts out.old out.new (refused_resume_line p.now time «module») }
{
    put_time(out, time);
    out.put(" refused resume module ");
    put_module(out, p, module)
}
