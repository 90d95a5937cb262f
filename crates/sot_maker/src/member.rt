//! The members of the objects in the two lines of JSON.

ghost use Rattle.std.specs.Prelude.{◌≡◌, ◌++◌, OnOk};
ghost use Rattle.std.specs.String.{string_bytes};
ghost use Rattle.sot_maker.specs.Members.{cells_text, crew_text, start_text, sway_text};
ghost use Rattle.sot_maker.specs.Members.{member_text, further, listed, object_text};

use std::alloc::AllocError;

/// What the members of an object say.
#[derive(Clone, Copy)]
pub(crate) enum Member {
    /// The cells of a module.
    Cells,
    /// Who drafts for an advanced node.
    Crew,
    /// Where a plant starts.
    Start,
    /// How a plant is disturbed.
    Sway,
}

#[tactic(auto, unfolding(crate::specs::Members::cells_text))]
fn put_cells(out: &mut String, i: u32) -> Result<(), AllocError>
    ensures { OnOk result (string_bytes out.new ≡ string_bytes out.old ++ cells_text i) }
{
    write!(
        out,
        "\"nav{i}\":{{\"closed\":[[[-40,-11]],[[-10,10]],[[11,40]]],\"reach\":[[[-10,10]]]}}"
    )
}

#[tactic(auto, unfolding(crate::specs::Members::crew_text))]
fn put_crew(out: &mut String, seed: u64, i: u32) -> Result<(), AllocError>
    ensures { OnOk result (string_bytes out.new ≡ string_bytes out.old ++ crew_text seed i) }
{
    let stream = 1000 + u64::from(i);
    write!(
        out,
        "\"fast{i}\":{{\"kind\":\"wild\",\"seed\":{seed},\"stream\":{stream}}}"
    )
}

#[tactic(auto, unfolding(crate::specs::Members::start_text))]
fn put_start(out: &mut String, i: u32) -> Result<(), AllocError>
    ensures { OnOk result (string_bytes out.new ≡ string_bytes out.old ++ start_text i) }
{
    write!(out, "\"pos{i}\":[0]")
}

#[tactic(auto, unfolding(crate::specs::Members::sway_text))]
fn put_sway(out: &mut String, seed: u64, i: u32) -> Result<(), AllocError>
    ensures { OnOk result (string_bytes out.new ≡ string_bytes out.old ++ sway_text seed i) }
{
    write!(
        out,
        "\"pos{i}\":{{\"kind\":\"seed\",\"seed\":{seed},\"stream\":{i}}}"
    )
}

#[tactic(auto, unfolding(crate::specs::Members::member_text))]
fn put_member(out: &mut String, member: Member, seed: u64, i: u32) -> Result<(), AllocError>
    ensures { OnOk result
        (string_bytes out.new ≡ string_bytes out.old ++ member_text member seed i) }
{
    match member {
        Member::Cells => put_cells(out, i),
        Member::Crew => put_crew(out, seed, i),
        Member::Start => put_start(out, i),
        Member::Sway => put_sway(out, seed, i),
    }
}

// A comma before each member.
fn put_further(out: &mut String, member: Member, seed: u64, more: &[u32]) -> Result<(), AllocError>
    ensures { OnOk result (string_bytes out.new
        ≡ string_bytes out.old ++ further member seed more.now) }
{
    for i in more {
        out.push_str(",")?;
        put_member(out, member, seed, *i)?;
    }
    Ok(())
}

// Members with a comma between two.
fn put_listed(out: &mut String, member: Member, seed: u64, all: &[u32]) -> Result<(), AllocError>
    ensures { OnOk result (string_bytes out.new
        ≡ string_bytes out.old ++ listed member seed all.now) }
{
    if all.is_empty() {
        return Ok(());
    }
    put_member(out, member, seed, all[0])?;
    put_further(out, member, seed, &all[1..])
}

/// An object with such a member for each of these numbers, in this order.
#[tactic(auto, unfolding(crate::specs::Members::object_text))]
pub(crate) fn put_object(
    out: &mut String,
    member: Member,
    seed: u64,
    order: &[u32],
) -> Result<(), AllocError>
    ensures { OnOk result (string_bytes out.new
        ≡ string_bytes out.old ++ object_text member seed order.now) }
{
    out.push_str("{")?;
    put_listed(out, member, seed, order)?;
    out.push_str("}")
}
