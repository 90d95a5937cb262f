//! The text of a mission that is made from two numbers.

ghost use Rattle.std.specs.Prelude.{◌≡◌, ◌≤◌, ◌^◌, ◌++◌, OnOk, IfOk};
ghost use Rattle.std.specs.String.{string_bytes};
ghost use Rattle.sot_maker.specs.Members.{object_text};
ghost use Rattle.sot_maker.specs.Missions.{certificate_text, flight_text, mission_text};

use crate::declarations::put_program;
use crate::member::{Member, put_object};
use crate::order::by_name;
use std::alloc::{AllocError, Global};

// A text, and an object behind it.
fn put_behind(
    out: &mut String,
    text: &str,
    member: Member,
    seed: u64,
    order: &[u32],
) -> Result<(), AllocError>
    ensures { OnOk result (string_bytes out.new
        ≡ string_bytes out.old ++ (text.now ++ object_text member seed order.now)) }
{
    out.push_str(text)?;
    put_object(out, member, seed, order)
}

// The certificate of the modules of these numbers.
fn put_certificate(out: &mut String, seed: u64, order: &[u32]) -> Result<(), AllocError>
    ensures { OnOk result (string_bytes out.new
        ≡ string_bytes out.old ++ certificate_text seed order.now) }
{
    put_behind(
        out,
        "{\"format\":1,\"modules\":",
        Member::Cells,
        seed,
        order,
    )?;
    out.push_str("}")
}

// The flight of the modules of these numbers.
fn put_flight(out: &mut String, seed: u64, order: &[u32]) -> Result<(), AllocError>
    ensures { OnOk result (string_bytes out.new
        ≡ string_bytes out.old ++ flight_text seed order.now) }
{
    put_behind(out, "{\"crew\":", Member::Crew, seed, order)?;
    put_behind(
        out,
        ",\"format\":1,\"horizon\":1000,\"inputs\":[],\"start\":",
        Member::Start,
        seed,
        order,
    )?;
    put_behind(out, ",\"sway\":", Member::Sway, seed, order)?;
    out.push_str("}")
}

/// The text of a mission of n modules: its program, its certificate and its flight. The error is
/// want of memory.
#[tactic(auto, unfolding(crate::specs::Missions::mission_text))]
pub fn make(alloc: Global, n: u32, seed: u64) -> Result<String, AllocError>
    requires some { 1 ≤ n }
    requires few { n ≤ 100 }
    requires small { seed ≤ 10 ^ 12 }
    ensures { IfOk result (λ text. string_bytes text ≡ mission_text n seed) }
{
    let order = by_name(alloc, n)?;
    let mut out = String::new(alloc);
    put_program(&mut out, n, seed)?;
    out.push_str("%certificate\n")?;
    put_certificate(&mut out, seed, &order)?;
    out.push_str("\n%flight\n")?;
    put_flight(&mut out, seed, &order)?;
    out.push_str("\n")?;
    Ok(out)
}
