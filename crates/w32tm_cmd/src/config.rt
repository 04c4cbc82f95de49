//! How a command ends that gets no settings.
ghost use Rattle.std.specs.Prelude.{◌≡◌};
ghost use Rattle.w32tm_cmd.specs.Config.{status_of};

use crate::Status;
use settings_source::ConfigFault;

/// The status of a command whose settings gave this fault.
pub(crate) fn status_of(fault: ConfigFault) -> Status
    ensures { result ≡ status_of fault }
{
    match fault {
        ConfigFault::BadConfig(line) => Status::BadConfig { line },
        ConfigFault::ReadFault => Status::ReadFault,
        ConfigFault::NoMemory => Status::NoMemory,
    }
}
