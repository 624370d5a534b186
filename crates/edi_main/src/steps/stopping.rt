//! A command that has stopped before it did anything.

ghost use Rattle.std.specs.Prelude.{◌≡◌, false};
ghost use Rattle.edi_main.specs.steps.NotMounted.{mount_status};

use edi_image::MountFault;
use edi_statuses::{Ended, Status};

/// A command has stopped before it showed anything.
pub fn stopped(status: Status) -> Ended
    ensures status_is { result.status ≡ status }
    ensures due { result.due ≡ false }
{
    Ended { status, due: false }
}

/// The status of a command whose drive was not mounted.
pub fn mount_status(why: MountFault) -> Status
    ensures exact { result ≡ mount_status why }
{
    match why {
        MountFault::Fault => Status::DriveFault,
        MountFault::NoMemory => Status::NoMemory,
        broken => Status::BadImage(broken),
    }
}
