//! The program: five declarations for each module.

ghost use Rattle.std.specs.Prelude.{◌≡◌, ◌++◌, OnOk};
ghost use Rattle.std.specs.String.{string_bytes};
ghost use Rattle.sot_maker.specs.Offsets.{offsets_of};
ghost use Rattle.sot_maker.specs.Declarations.{topic_text, plant_text, fast_text, slow_front};
ghost use Rattle.sot_maker.specs.Declarations.{code_text, slow_text, module_text};
ghost use Rattle.sot_maker.specs.Declarations.{declarations_text, program_text};

use crate::offsets::offsets_of;
use rand_core::utils::NextWord;
use rand_pcg::Pcg32;
use std::alloc::AllocError;

#[tactic(auto, unfolding(crate::specs::Declarations::topic_text))]
fn put_topic(out: &mut String, i: u32) -> Result<(), AllocError>
    ensures { OnOk result (string_bytes out.new ≡ string_bytes out.old ++ topic_text i) }
{
    write!(out, "topic cmd{i}: int[-2..2] = 0;\n")
}

#[tactic(auto, unfolding(crate::specs::Declarations::plant_text))]
fn put_plant(out: &mut String, i: u32) -> Result<(), AllocError>
    ensures { OnOk result (string_bytes out.new ≡ string_bytes out.old ++ plant_text i) }
{
    write!(
        out,
        "plant pos{i} {{\n  state x: int;\n  input cmd{i};\n  noise w: int[-1..1];\n  \
         next x = (x + cmd{i}) + w;\n}}\n"
    )
}

#[tactic(auto, unfolding(crate::specs::Declarations::fast_text))]
fn put_fast(out: &mut String, i: u32, offset: u32) -> Result<(), AllocError>
    ensures { OnOk result (string_bytes out.new ≡ string_bytes out.old ++ fast_text i offset) }
{
    write!(
        out,
        "external fast{i} period 4 offset {offset} {{\n  reads pos{i};\n  writes cmd{i};\n}}\n"
    )
}

// What stands before the code of the safe node.
#[tactic(auto, unfolding(crate::specs::Declarations::slow_front))]
fn put_slow_front(out: &mut String, i: u32, offset: u32) -> Result<(), AllocError>
    ensures { OnOk result (string_bytes out.new ≡ string_bytes out.old ++ slow_front i offset) }
{
    write!(
        out,
        "node slow{i} period 2 offset {offset} {{\n  reads pos{i};\n  writes cmd{i};\n  do {{\n"
    )
}

#[tactic(auto, unfolding(crate::specs::Declarations::code_text))]
fn put_code(out: &mut String, i: u32) -> Result<(), AllocError>
    ensures { OnOk result (string_bytes out.new ≡ string_bytes out.old ++ code_text i) }
{
    write!(
        out,
        "    publish cmd{i} = if (pos{i}.x > 10) then -2 \
         else (if (pos{i}.x < -10) then 2 else 0);\n"
    )
}

#[tactic(auto, unfolding(crate::specs::Declarations::slow_text))]
fn put_slow(out: &mut String, i: u32, offset: u32) -> Result<(), AllocError>
    ensures { OnOk result (string_bytes out.new ≡ string_bytes out.old ++ slow_text i offset) }
{
    put_slow_front(out, i, offset)?;
    put_code(out, i)?;
    out.push_str("  }\n}\n")
}

#[tactic(auto, unfolding(crate::specs::Declarations::module_text))]
fn put_module(out: &mut String, i: u32, offset: u32) -> Result<(), AllocError>
    ensures { OnOk result (string_bytes out.new ≡ string_bytes out.old ++ module_text i offset) }
{
    write!(
        out,
        "module nav{i} {{\n  ac fast{i};\n  sc slow{i};\n  period 4 offset {offset};\n  \
         plant pos{i};\n  safe [-40..40];\n  safer [-10..10];\n}}\n"
    )
}

// The declarations of a module with the offsets that a word stands for.
#[tactic(auto, unfolding(crate::specs::Declarations::declarations_text))]
fn put_declarations(out: &mut String, i: u32, word: u32) -> Result<(), AllocError>
    ensures { OnOk result (string_bytes out.new
        ≡ string_bytes out.old ++ declarations_text i (offsets_of word)) }
{
    let offsets = offsets_of(word);
    put_topic(out, i)?;
    put_plant(out, i)?;
    put_fast(out, i, offsets.fast)?;
    put_slow(out, i, offsets.slow)?;
    put_module(out, i, offsets.decides)
}

// The stream whose words are for missions, one word for each module.
const MISSION_STREAM: u64 = 54;

/// The program of so many modules.
#[tactic(auto, unfolding(crate::specs::Declarations::program_text))]
pub(crate) fn put_program(out: &mut String, n: u32, seed: u64) -> Result<(), AllocError>
    ensures { OnOk result (string_bytes out.new ≡ string_bytes out.old ++ program_text n seed) }
{
    let mut words = Pcg32::new(seed, MISSION_STREAM);
    for i in 0..n {
        put_declarations(out, i, words.next_word())?;
    }
    Ok(())
}
