//! Certificates of worked missions, made from the cells that are handed in.

ghost use Rattle.std.specs.Prelude.{◌≡◌, ◌<◌, ◌≤ℤ◌, ◌∷◌, [], pos, length, IfOk};
ghost use Rattle.sot_test_runs.specs.Entries.{AreCells, AreCellsBoth, FitsAll};

use sot_box::{BoxN, Interval, Region};
use sot_lang::{Cells, Cert};
use std::alloc::{AllocError, Global};

const MOST: usize = 4096;

// Cells of one side each, 4,096 of them at most.
fn cells(alloc: Global, sides: &[Interval]) -> Result<Region, AllocError>
    ensures { IfOk result (AreCells 1) }
{
    let mut region = Region::none(alloc, 1);
    for i in 0..sides.len().min(MOST) {
        let cell = BoxN::of(&[sides[i]]).unwrap();
        // A look at the box brings that its ends are in order.
        let _sides = cell.len();
        if let Err(_) = region.push(cell) {
            return Err(AllocError);
        }
    }
    Ok(region)
}

/// A certificate of the vehicle on a line with these cells, the first 4,096 of each kind.
pub fn line_cert(alloc: Global, closed: &[Interval], reach: &[Interval]) -> Result<Cert, AllocError>
    ensures { IfOk result (FitsAll (1 ∷ [])) }
{
    let closed = cells(alloc, closed)?;
    let reach = cells(alloc, reach)?;
    let entry = Some(Cells { closed, reach });
    Ok(Cert {
        jitter: 0,
        modules: vec![in alloc; entry]?,
    })
}

/// A certificate of it that has no entry.
pub fn line_without_entry(alloc: Global) -> Result<Cert, AllocError>
    ensures { IfOk result (FitsAll (1 ∷ [])) }
{
    Ok(Cert {
        jitter: 0,
        modules: vec![in alloc; None]?,
    })
}

/// The certificate of a program with no module.
pub fn nothing_to_certify(alloc: Global) -> Cert
    ensures { FitsAll [] result }
{
    Cert {
        jitter: 0,
        modules: Vec::new(alloc),
    }
}

// The boxes of the heights 0 to 10, with a battery of at least three times the height.
fn stairs(alloc: Global) -> Result<Region, AllocError>
    ensures { IfOk result (AreCells 2) }
{
    let mut region = Region::none(alloc, 2);
    for h in 0..11u32 {
        let at = i64::from(h);
        let height = Interval { lo: at, hi: at };
        let battery = Interval {
            lo: 3 * at,
            hi: 1000,
        };
        let cell = BoxN::of(&[height, battery]).unwrap();
        // A look at the box brings that its ends are in order.
        let _sides = cell.len();
        if let Err(_) = region.push(cell) {
            return Err(AllocError);
        }
    }
    Ok(region)
}

// Any height, with a battery of at least this.
fn charged(alloc: Global, low: i64) -> Result<Region, AllocError>
    requires { low ≤ℤ pos 1000 }
    ensures { IfOk result (AreCells 2) }
{
    let mut region = Region::none(alloc, 2);
    let height = Interval { lo: 0, hi: 10 };
    let battery = Interval { lo: low, hi: 1000 };
    let cell = BoxN::of(&[height, battery]).unwrap();
    // A look at the box brings that its ends are in order.
    let _sides = cell.len();
    match region.push(cell) {
        Ok(()) => Ok(region),
        Err(_) => Err(AllocError),
    }
}

fn battery_cells(alloc: Global, low: i64) -> Result<Cells, AllocError>
    requires { low ≤ℤ pos 1000 }
    ensures { IfOk result (AreCellsBoth 2) }
{
    let closed = stairs(alloc)?;
    let reach = charged(alloc, low)?;
    Ok(Cells { closed, reach })
}

fn vehicle_cells(alloc: Global) -> Result<Cells, AllocError>
    ensures { IfOk result (AreCellsBoth 1) }
{
    let left = Interval { lo: -40, hi: -11 };
    let middle = Interval { lo: -10, hi: 10 };
    let right = Interval { lo: 11, hi: 40 };
    let closed = cells(alloc, &[left, middle, right])?;
    let reach = cells(alloc, &[middle])?;
    Ok(Cells { closed, reach })
}

/// A certificate of the vehicle beside a battery, which is trusted from this battery on: sixteen
/// cells, of which the battery's are the boxes of its regions.
pub fn pair_cert(alloc: Global, low: i64) -> Result<Cert, AllocError>
    requires { low ≤ℤ pos 1000 }
    ensures { IfOk result (FitsAll (1 ∷ 2 ∷ [])) }
{
    let vehicle = Some(vehicle_cells(alloc)?);
    let battery = Some(battery_cells(alloc, low)?);
    Ok(Cert {
        jitter: 0,
        modules: vec![in alloc; vehicle, battery]?,
    })
}

// The least and the greatest place of the safe boxes, for each speed from -14 to 14.
const LEAST: [i64; 29] = [
    -195, -209, -222, -234, -245, -255, -264, -272, -279, -285, -290, -294, -297, -299, -300, -300,
    -300, -300, -300, -300, -300, -300, -300, -300, -300, -300, -300, -300, -300,
];

const GREATEST: [i64; 29] = [
    300, 300, 300, 300, 300, 300, 300, 300, 300, 300, 300, 300, 300, 300, 300, 299, 297, 294, 290,
    285, 279, 272, 264, 255, 245, 234, 222, 209, 195,
];

// The part of such a box with places of at most 0, and then the part with places of at least 1.
fn half(i: u32) -> BoxN
    requires { i < 58 }
    ensures { length result ≡ 2 }
{
    let n = i as usize / 2;
    let speed = i64::from(i / 2) - 14;
    let speeds = Interval {
        lo: speed,
        hi: speed,
    };
    let places = if i % 2 == 0 {
        Interval {
            lo: LEAST[n].min(0),
            hi: 0,
        }
    } else {
        Interval {
            lo: 1,
            hi: GREATEST[n].max(1),
        }
    };
    BoxN::of(&[places, speeds]).unwrap()
}

fn halves(alloc: Global) -> Result<Region, AllocError>
    ensures { IfOk result (AreCells 2) }
{
    let mut region = Region::none(alloc, 2);
    for i in 0..58u32 {
        let cell = half(i);
        // A look at the box brings that its ends are in order.
        let _sides = cell.len();
        if let Err(_) = region.push(cell) {
            return Err(AllocError);
        }
    }
    Ok(region)
}

// The places from `low` to `high`, at a speed of at most 2.
fn slow_places(alloc: Global, low: i64, high: i64) -> Result<Region, AllocError>
    requires { low ≤ℤ high }
    ensures { IfOk result (AreCells 2) }
{
    let mut region = Region::none(alloc, 2);
    let places = Interval { lo: low, hi: high };
    let speeds = Interval { lo: -2, hi: 2 };
    let cell = BoxN::of(&[places, speeds]).unwrap();
    // A look at the box brings that its ends are in order.
    let _sides = cell.len();
    match region.push(cell) {
        Ok(()) => Ok(region),
        Err(_) => Err(AllocError),
    }
}

/// A certificate of the double integrator, which is trusted between these places: 58 closed cells,
/// two for each speed, and one reach cell.
pub fn double_cert(alloc: Global, low: i64, high: i64) -> Result<Cert, AllocError>
    requires { low ≤ℤ high }
    ensures { IfOk result (FitsAll (2 ∷ [])) }
{
    let closed = halves(alloc)?;
    let reach = slow_places(alloc, low, high)?;
    let entry = Some(Cells { closed, reach });
    Ok(Cert {
        jitter: 0,
        modules: vec![in alloc; entry]?,
    })
}
