//! Monitors.

ghost use Rattle.std.specs.Prelude.{◌≡◌, ℕ, List, ◌++◌, ◌∷◌, [], ◌+◌, ◌≤◌, ◌<◌, length, IsTrue};
ghost use Rattle.std.specs.Prelude.{◌↔◌, IfOk, IfErr, replicate};
ghost use Rattle.sot_lists.specs.Places.{At};
ghost use Rattle.sot_formula.specs.declared.what.What.{What as Is};
ghost use Rattle.sot_formula.specs.Formulas.{Formula};
ghost use Rattle.sot_formula.specs.Parts.{ArePlaced, LooksAt};
ghost use Rattle.sot_formula.specs.Answers.{Refuses};
ghost use Rattle.sot_monitor.specs.Holding.{Moment, Holds};
ghost use Rattle.sot_monitor.specs.Tracking.{StandsFor, IsNewOf, new_of};

use crate::looks::Looks;
use crate::stepping::step;
use sot_formula::{MonitorFail, What, read};
use sot_lang::Typed;
use std::alloc::{AllocError, Global};
use std::marker::Model;

/// A formula with what it has seen of a flight: its parts, each behind its own parts, and a number
/// a part, one more than the last moment at which the part held, or 0.
#[derive(Drop)]
pub struct Monitor {
    whats: Vec<What>,
    lasts: Vec<u32>,
    added: u32,
}

impl Model for Monitor {
    ghost use Rattle.sot_monitor.specs.Tracked.{Tracked, tracked, IsMonitor};

    ghost Value = { Tracked };

    ghost view = { tracked };

    ghost invariant = { IsMonitor };
}

// So many numbers, each of them 0.
fn zeros(alloc: Global, count: usize) -> Result<Vec<u32>, AllocError>
    ensures { IfOk result (λ v. v.items ≡ replicate count 0) }
{
    vec![in alloc; 0; count]
}

// A monitor that no moment was added to.
fn fresh(alloc: Global, whats: Vec<What>) -> Result<Monitor, AllocError>
    requires some { 0 < length whats.items }
    requires placed { ArePlaced whats.items }
    ensures { IfOk result (λ m. m ≡ new_of whats.items) }
{
    let lasts = zeros(alloc, whats.len())?;
    Ok(Monitor {
        whats,
        lasts,
        added: 0,
    })
}

impl Monitor {
    /// A new monitor of the formula that the bytes spell, for a program.
    ///
    /// # Errors
    ///
    /// `Form` where the bytes are the text of no formula, else `Unknown` where some reference
    /// names nothing, else `ScaleDiffers` where some comparison has two scales; `Memory` where
    /// there is none.
    pub fn read(alloc: Global, p: &Typed, bytes: &[u8]) -> Result<Monitor, MonitorFail>
        ensures ok { IfOk result (λ m. IsNewOf p.now bytes.now m) }
        ensures err { IfErr result (λ fail. Refuses p.now bytes.now fail) }
    {
        match read(alloc, p, bytes) {
            Ok(whats) => match fresh(alloc, whats) {
                Ok(monitor) => Ok(monitor),
                Err(_) => Err(MonitorFail::Memory),
            },
            Err(fail) => Err(fail),
        }
    }

    /// Adds what can be looked at now as the next moment, and says whether the formula holds then.
    /// It takes no memory.
    pub fn step<L: Looks>(&mut self, now: &L) -> bool
        requires there { (k : ℕ) (w : Is) (q : _) → At self.old.whats k w → LooksAt w q
            → L.has now.now q }
        requires few { self.old.added ≤ 100000 }
        ensures kept { self.new.whats ≡ self.old.whats }
        ensures added { self.new.added ≡ self.old.added + 1 }
        ensures stands { (x : Formula) (Ms : List Moment) → StandsFor self.old x Ms
            → StandsFor self.new x (Ms ++ L.moment now.now ∷ []) }
        ensures holds { (x : Formula) (Ms : List Moment) → StandsFor self.old x Ms
            → IsTrue result ↔ Holds (Ms ++ L.moment now.now ∷ []) x (length Ms) }
    {
        step(&self.whats, &mut self.lasts, self.added, now);
        self.added += 1;
        self.lasts[self.lasts.len() - 1] == self.added
    }

    /// How many moments were added.
    pub fn added(&self) -> u32
        ensures { result ≡ self.now.added }
    {
        self.added
    }
}
