//! Certificates as they are checked.

use sot_box::Region;

/// What a certificate gives for a module: cells that cover its safe region, and cells that cover
/// its safer region.
pub struct Cells {
    pub closed: Region,
    pub reach: Region,
}

impl Drop for Cells {
    fn drop(self) {
        let Cells {
            closed: _,
            reach: _,
        } = self;
    }
}

/// A certificate: by how many ticks a firing may be late, and an entry for each module of a
/// program.
pub struct Cert {
    pub jitter: u32,
    pub modules: Vec<Option<Cells>>,
}

impl Drop for Cert {
    fn drop(self) {
        let Cert {
            jitter: _,
            modules: _,
        } = self;
    }
}
