//! What is in a range, in a plant's bounds or in a draft has 64 bits, since each is kept in so
//! many.

ghost use Rattle.std.specs.Prelude.{ℕ, ◌<◌, ℤ, Some};
ghost use Rattle.sot_lists.specs.Places.{At};
ghost use Rattle.sot_lang.specs.declared.tables.ScalarInfo.{ScalarInfo as Scalar};
ghost use Rattle.sot_lang.specs.declared.tables.NoiseInfo.{NoiseInfo as Noise};
ghost use Rattle.sot_lang.specs.declared.tables.PlantInfo.{PlantInfo as Plant};
ghost use Rattle.sot_trace_lines.specs.Bits.{Has64Bits};

use sot_lang::{Draft, NoiseInfo, PlantInfo, ScalarInfo};

/// The ends of the ranges of scalars have 64 bits.
pub fn ranges_have_64_bits(scalars: &[ScalarInfo])
    ensures { (k : ℕ) (info : Scalar) → At scalars.now k info
        → Has64Bits info.lo × Has64Bits info.hi }
{
    for info in scalars {
        let _ends = (info.lo, info.hi);
    }
}

fn noise_has_64_bits(noise: &[NoiseInfo])
    ensures { (k : ℕ) (info : Noise) → At noise.now k info → Has64Bits info.lo × Has64Bits info.hi }
{
    for info in noise {
        let _ends = (info.lo, info.hi);
    }
}

/// The bounds of the disturbances of plants have 64 bits.
pub fn bounds_have_64_bits(plants: &[PlantInfo])
    ensures { (k : ℕ) (plant : Plant) (i : ℕ) (info : Noise) → At plants.now k plant
        → At plant.noise.items i info → Has64Bits info.lo × Has64Bits info.hi }
{
    for plant in plants {
        noise_has_64_bits(&plant.noise);
    }
}

/// The numbers in the eight slots of a draft have 64 bits.
pub fn draft_has_64_bits(draft: &Draft)
    ensures { (k : ℕ) (z : ℤ) → k < 8 → At draft.now k (Some z) → Has64Bits z }
{
    for i in 0..8 {
        let _slot = draft.get(i);
    }
}
