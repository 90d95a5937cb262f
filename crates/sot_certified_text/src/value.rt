//! A certificate as a JSON value.

ghost use Rattle.std.specs.Prelude.{◌≡◌, ◌≢◌, length, IfOk, OnOk};
ghost use Rattle.serde_json.specs.View.{view, members_view};
ghost use Rattle.sot_certified_text.specs.CertText.{side_data, cell_data, cells_data, entry_data};
ghost use Rattle.sot_certified_text.specs.CertText.{put_data, entries_data, jittered_data};
ghost use Rattle.sot_certified_text.specs.CertText.{data_with_jitter};

use serde_json::{Map, Value, json};
use sot_box::{BoxN, Interval, Region};
use sot_lang::{Cells, Cert, Typed};
use std::alloc::{AllocError, Global};

fn side_value(alloc: Global, side: Interval) -> Result<Value, AllocError>
    ensures { IfOk result (λ v. view v ≡ side_data side) }
{
    let lo = side.lo;
    let hi = side.hi;
    json!(in alloc; [lo, hi])
}

fn cell_value(alloc: Global, cell: &BoxN) -> Result<Value, AllocError>
    ensures { IfOk result (λ v. view v ≡ cell_data cell.now) }
{
    let mut sides = Vec::new(alloc);
    for i in 0..cell.len() {
        let side = side_value(alloc, cell.side(i))?;
        sides.push(side)?;
    }
    Ok(Value::Array(sides))
}

fn cells_value(alloc: Global, cells: &Region) -> Result<Value, AllocError>
    ensures { IfOk result (λ v. view v ≡ cells_data cells.now.boxes) }
{
    let mut values = Vec::new(alloc);
    for i in 0..cells.len() {
        let cell = cell_value(alloc, &cells.at(i))?;
        values.push(cell)?;
    }
    Ok(Value::Array(values))
}

fn entry_value(alloc: Global, cells: &Cells) -> Result<Value, AllocError>
    ensures { IfOk result (λ v. view v ≡ entry_data cells.now) }
{
    let closed = cells_value(alloc, &cells.closed)?;
    let reach = cells_value(alloc, &cells.reach)?;
    let mut map = Map::new(alloc);
    map.insert(String::from_str(alloc, "closed")?, closed)?;
    map.insert(String::from_str(alloc, "reach")?, reach)?;
    Ok(Value::Object(map))
}

// The entry of a module under its name, where there is one.
fn put_entry(
    alloc: Global,
    map: &mut Map<String, Value>,
    name: &str,
    entry: &Option<Cells>,
) -> Result<(), AllocError>
    ensures { OnOk result (members_view map.new.entries
        ≡ put_data name.now entry.now (members_view map.old.entries)) }
{
    if let Some(cells) = entry {
        let value = entry_value(alloc, cells)?;
        map.insert(String::from_str(alloc, name)?, value)?;
    }
    Ok(())
}

// The entries of the modules that have one.
fn entries_value(alloc: Global, p: &Typed, cert: &Cert) -> Result<Map<String, Value>, AllocError>
    requires { length cert.now.modules.items ≡ length p.now.modules }
    ensures { IfOk result (λ m. members_view m.entries
        ≡ entries_data p.now.modules cert.now.modules.items) }
{
    let mut map = Map::new(alloc);
    let mut left = p.modules.len();
    while left > 0 {
        left -= 1;
        put_entry(
            alloc,
            &mut map,
            p.modules[left].name.as_str(),
            &cert.modules[left],
        )?;
    }
    Ok(map)
}

// The value of a certificate without jitter, of the entries of its modules.
fn plain_value(alloc: Global, entries: Map<String, Value>) -> Result<Value, AllocError>
    ensures { IfOk result (λ v. view v ≡ jittered_data 0 (members_view entries.entries)) }
{
    let mut map = Map::new(alloc);
    map.insert(String::from_str(alloc, "format")?, Value::from(1u64))?;
    map.insert(String::from_str(alloc, "modules")?, Value::Object(entries))?;
    Ok(Value::Object(map))
}

// The value of a certificate with a jitter, of the entries of its modules.
#[tactic(auto, using(crate::proofs::Items::jittered_is))]
fn jittered_value(
    alloc: Global,
    jitter: u32,
    entries: Map<String, Value>,
) -> Result<Value, AllocError>
    requires { jitter ≢ 0 }
    ensures { IfOk result (λ v. view v ≡ jittered_data jitter (members_view entries.entries)) }
{
    let mut map = Map::new(alloc);
    map.insert(String::from_str(alloc, "format")?, Value::from(2u64))?;
    map.insert(String::from_str(alloc, "jitter")?, Value::from(jitter))?;
    map.insert(String::from_str(alloc, "modules")?, Value::Object(entries))?;
    Ok(Value::Object(map))
}

/// A certificate as a JSON value.
pub fn certificate_value(alloc: Global, p: &Typed, cert: &Cert) -> Result<Value, AllocError>
    requires { length cert.now.modules.items ≡ length p.now.modules }
    ensures { IfOk result (λ v. view v ≡ data_with_jitter p.now cert.now) }
{
    let entries = entries_value(alloc, p, cert)?;
    if cert.jitter == 0 {
        plain_value(alloc, entries)
    } else {
        jittered_value(alloc, cert.jitter, entries)
    }
}
