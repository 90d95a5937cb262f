//! Entries of modules, the jitter, and the whole certificate.
ghost use Rattle.std.specs.Prelude.{◌≡◌, ◌≤◌, ◌<◌, true, length, codes, nat_lt, IfOk, OnOk};
ghost use Rattle.std.specs.List.{list_all};
ghost use Rattle.serde_json.specs.View.{view, members_view};
ghost use Rattle.sot_lists.specs.Places.{At};
ghost use Rattle.sot_lang.specs.OwnerNames.{width_of};
ghost use Rattle.sot_lang.specs.TableRules.{MeetsTableRules};
ghost use Rattle.sot_lang.specs.CertRules.{FitsTables};
ghost use Rattle.sot_json.specs.Json.{at, may, is_among, all_among};
ghost use Rattle.sot_cert.specs.CertFormat.{cells, entry, entries, names, modules as modules_say};
ghost use Rattle.sot_cert.specs.CertFormat.{is_below_periods, jitter, jitter_in, has_jitter, keys};
ghost use Rattle.sot_cert.specs.CertFormat.{cert, cert_of, contents};
ghost use Rattle.sot_json.specs.Answers.{Gives};

use crate::cells::cells_of;
use serde_json::{Map, Value};
use sot_box::Region;
use sot_json::{
    JsonFail, JsonKind, count_of, fault_at, fault_under, has_only, member_of, needed, part_of,
    value_of, whole_of,
};
use sot_lang::{Cells, Cert, PlantInfo, Typed};
use sot_ports::{Process, let_go};
use std::alloc::Global;

/// Why a certificate was not read.
pub type CertFail = JsonFail;

#[tactic(auto, unfolding(sot_json::specs::Json::at), using(sot_json::proofs::Parts::found_there, sot_json::proofs::Parts::lacking))]
fn cells_at(
    alloc: Global,
    name: &str,
    width: usize,
    object: &Map<String, Value>,
) -> Result<Region, JsonFail>
    requires { (1 ≤ width) × (width ≤ 4) }
    ensures { Gives (λ r. r) result (at name.now (cells width) (members_view object.now.entries)) }
{
    let value = needed(alloc, object, name)?;
    part_of(alloc, name, cells_of(alloc, width, value))
}

#[tactic(auto, unfolding(crate::specs::CertFormat::entry))]
fn entry_of(alloc: Global, width: usize, value: &Value) -> Result<Cells, JsonFail>
    requires { (1 ≤ width) × (width ≤ 4) }
    ensures { Gives (λ x. x) result (entry width (view value.now)) }
{
    let Some(object) = value.as_object() else {
        return Err(fault_at(alloc, JsonKind::WrongShape));
    };
    let closed = cells_at(alloc, "closed", width, object)?;
    let reach = cells_at(alloc, "reach", width, object)?;
    if !has_only(object, &["closed", "reach"]) {
        return Err(fault_at(alloc, JsonKind::Unknown));
    }
    Ok(Cells { closed, reach })
}

fn plant_at(p: &Typed, plant: u32) -> &PlantInfo
    requires { plant < length p.now.plants }
    ensures is { At p.now.plants plant result.now }
    ensures rules { MeetsTableRules p.now }
{
    &p.plants[plant as usize]
}

/// How many state variables a plant has.
#[tactic(auto, using(sot_lang::proofs::Owners::width_at, crate::proofs::Plants::some_states, crate::proofs::Plants::few_states))]
fn width_at(p: &Typed, plant: u32) -> usize
    requires { plant < length p.now.plants }
    ensures value { result ≡ width_of p.now.plants plant }
    ensures some { 1 ≤ result }
    ensures few { result ≤ 4 }
{
    plant_at(p, plant).states.len()
}

#[tactic(auto, using(sot_json::proofs::Faults::may_fails))]
fn entry_at(
    alloc: Global,
    name: &str,
    width: usize,
    object: &Map<String, Value>,
) -> Result<Option<Cells>, JsonFail>
    requires { (1 ≤ width) × (width ≤ 4) }
    ensures { Gives (λ o. o) result (may name.now (entry width) (members_view object.now.entries)) }
{
    let Some(value) = member_of(object, name) else {
        return Ok(None);
    };
    match entry_of(alloc, width, value) {
        Ok(cells) => Ok(Some(cells)),
        Err(fail) => Err(fault_under(alloc, name, fail)),
    }
}

fn entries_of(
    alloc: Global,
    p: &Typed,
    object: &Map<String, Value>,
) -> Result<Vec<Option<Cells>>, JsonFail>
    ensures says { Gives (λ v. v.items) result
        (entries p.now.plants p.now.modules (members_view object.now.entries)) }
    ensures rules { MeetsTableRules p.now }
{
    let mut found = Vec::with_capacity(alloc, p.modules.len())?;
    for info in p.modules.iter() {
        let width = width_at(p, info.plant);
        match entry_at(alloc, info.name.as_str(), width, object) {
            Ok(entry) => found.push(entry)?,
            Err(fail) => return Err(fail),
        }
    }
    Ok(found)
}

#[tactic(auto, using(crate::proofs::Modules::among_from, crate::proofs::Modules::among_past))]
fn is_module(p: &Typed, key: &str) -> bool
    ensures { result ≡ is_among key.now (names p.now.modules) }
{
    for info in p.modules.iter() {
        if key == info.name.as_str() {
            return true;
        }
    }
    false
}

/// Whether there is a module at a place and it has this name.
#[tactic(auto, using(crate::proofs::Modules::among_at))]
fn is_module_at(p: &Typed, k: usize, key: &str) -> bool
    ensures { result ≡ true → is_among key.now (names p.now.modules) ≡ true }
{
    if k < p.modules.len() {
        let info = &p.modules[k];
        key == info.name.as_str()
    } else {
        false
    }
}

/// Whether a key names a module. Most certificates have their entries in the order of the modules,
/// so the one at a place is looked at first.
fn is_entry(p: &Typed, k: usize, key: &str) -> bool
    ensures { result ≡ is_among key.now (names p.now.modules) }
{
    if is_module_at(p, k, key) {
        return true;
    }
    is_module(p, key)
}

fn has_only_modules(p: &Typed, object: &Map<String, Value>) -> bool
    ensures { result ≡ all_among (members_view object.now.entries) (names p.now.modules) }
{
    let mut k: usize = 0;
    for (key, _value) in object.iter() {
        if !is_entry(p, k, key.as_str()) {
            return false;
        }
        k = k.wrapping_add(1);
    }
    true
}

#[tactic(auto, unfolding(crate::specs::CertFormat::modules))]
fn modules_of(alloc: Global, p: &Typed, value: &Value) -> Result<Vec<Option<Cells>>, JsonFail>
    ensures says { Gives (λ v. v.items) result (modules_say p.now (view value.now)) }
    ensures rules { OnOk result (MeetsTableRules p.now) }
{
    let Some(object) = value.as_object() else {
        return Err(fault_at(alloc, JsonKind::WrongShape));
    };
    let found = entries_of(alloc, p, object)?;
    if !has_only_modules(p, object) {
        return Err(fault_at(alloc, JsonKind::Unknown));
    }
    Ok(found)
}

#[tactic(auto, unfolding(sot_json::specs::Json::at), using(sot_json::proofs::Parts::found_there, sot_json::proofs::Parts::lacking))]
fn modules_at(
    alloc: Global,
    p: &Typed,
    object: &Map<String, Value>,
) -> Result<Vec<Option<Cells>>, JsonFail>
    ensures says { Gives (λ v. v.items) result
        (at (codes "modules") (modules_say p.now) (members_view object.now.entries)) }
    ensures rules { OnOk result (MeetsTableRules p.now) }
{
    let value = needed(alloc, object, "modules")?;
    part_of(alloc, "modules", modules_of(alloc, p, value))
}

fn is_below_nodes(p: &Typed, jitter: u32) -> bool
    ensures { result ≡ list_all (λ n. nat_lt jitter n.period) p.now.nodes }
{
    p.nodes.iter().all(|node| jitter < node.period)
}

fn is_below_modules(p: &Typed, jitter: u32) -> bool
    ensures { result ≡ list_all (λ m. nat_lt jitter m.period) p.now.modules }
{
    p.modules.iter().all(|info| jitter < info.period)
}

/// Whether a jitter is below the period of every node and of every module.
fn is_below_all(p: &Typed, jitter: u32) -> bool
    ensures { result ≡ is_below_periods p.now jitter }
{
    is_below_nodes(p, jitter) && is_below_modules(p, jitter)
}

#[tactic(auto, unfolding(crate::specs::CertFormat::jitter))]
fn jitter_of(alloc: Global, p: &Typed, value: &Value) -> Result<u32, JsonFail>
    ensures { Gives (λ x. x) result (jitter p.now (view value.now)) }
{
    let jitter = count_of(alloc, 999, value)? as u32;
    if !is_below_all(p, jitter) {
        return Err(fault_at(alloc, JsonKind::OutsideRange));
    }
    Ok(jitter)
}

#[tactic(auto, unfolding(sot_json::specs::Json::at), using(sot_json::proofs::Parts::found_there, sot_json::proofs::Parts::lacking))]
fn jitter_at(alloc: Global, p: &Typed, object: &Map<String, Value>) -> Result<u32, JsonFail>
    ensures { Gives (λ x. x) result (at (codes "jitter") (jitter p.now)
        (members_view object.now.entries)) }
{
    let value = needed(alloc, object, "jitter")?;
    part_of(alloc, "jitter", jitter_of(alloc, p, value))
}

#[tactic(auto, unfolding(crate::specs::CertFormat::has_jitter))]
fn format_of(alloc: Global, value: &Value) -> Result<bool, JsonFail>
    ensures { Gives (λ x. x) result (has_jitter (view value.now)) }
{
    let format = whole_of(alloc, 1, 2, value)?;
    Ok(2 <= format)
}

#[tactic(auto, unfolding(sot_json::specs::Json::at), using(sot_json::proofs::Parts::found_there, sot_json::proofs::Parts::lacking))]
fn format_at(alloc: Global, object: &Map<String, Value>) -> Result<bool, JsonFail>
    ensures { Gives (λ x. x) result (at (codes "format") has_jitter
        (members_view object.now.entries)) }
{
    let value = needed(alloc, object, "format")?;
    part_of(alloc, "format", format_of(alloc, value))
}

#[tactic(auto, unfolding(crate::specs::CertFormat::jitter_in))]
fn jitter_where(
    alloc: Global,
    jittered: bool,
    p: &Typed,
    object: &Map<String, Value>,
) -> Result<u32, JsonFail>
    ensures { Gives (λ x. x) result (jitter_in jittered p.now (members_view object.now.entries)) }
{
    if jittered {
        jitter_at(alloc, p, object)
    } else {
        Ok(0)
    }
}

fn has_only_keys(jittered: bool, object: &Map<String, Value>) -> bool
    ensures { result ≡ all_among (members_view object.now.entries) (keys jittered) }
{
    if jittered {
        has_only(object, &["format", "jitter", "modules"])
    } else {
        has_only(object, &["format", "modules"])
    }
}

#[tactic(auto, unfolding(crate::specs::CertFormat::cert), using(crate::proofs::Fits::cert_fits))]
fn cert_in(alloc: Global, p: &Typed, value: &Value) -> Result<Cert, JsonFail>
    ensures says { Gives contents result (cert p.now (view value.now)) }
    ensures fits { IfOk result (λ c. FitsTables p.now c) }
{
    let Some(object) = value.as_object() else {
        return Err(fault_at(alloc, JsonKind::WrongShape));
    };
    let jittered = format_at(alloc, object)?;
    let jitter = jitter_where(alloc, jittered, p, object)?;
    let modules = modules_at(alloc, p, object)?;
    if !has_only_keys(jittered, object) {
        return Err(fault_at(alloc, JsonKind::Unknown));
    }
    Ok(Cert { jitter, modules })
}

/// The certificate that the bytes say, with an entry or none for each module of the program in
/// declared order, or their first fault in the order of the format. A module without an entry is no
/// fault. What was read of the format is let go, unless the process ends.
pub fn read_cert(alloc: Global, p: &Typed, bytes: &[u8], process: Process) -> Result<Cert, CertFail>
    ensures says { Gives contents result (cert_of p.now bytes.now) }
    ensures fits { IfOk result (λ c. FitsTables p.now c) }
{
    let value = value_of(alloc, bytes)?;
    let cert = cert_in(alloc, p, &value);
    let_go(value, process);
    cert
}
