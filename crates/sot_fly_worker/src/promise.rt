//! What a worker that runs in a thread promises.

ghost use Rattle.sot_fly_worker.specs.Shifts.{HasWorked};

use crate::controller::Controller;
use crate::shift::Shift;
use std::snapshot::Snapshot;
use std::thread::Promise;

/// The promise that the shift which comes back is the one remembered here, as it was, or is
/// finished and on shift from it.
#[derive(Drop)]
pub struct Works<'a, C: Controller>(pub Snapshot<Shift<'a, C>>);

impl<'a, C: Controller> Promise<Shift<'a, C>> for Works<'a, C> {
    ghost kept_by = { λ p r. HasWorked C.asked p.0.value r };
}
