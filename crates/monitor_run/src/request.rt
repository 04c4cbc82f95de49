//! The request that a computer is asked with.
ghost use Rattle.std.specs.Prelude.{◌≡◌};
ghost use Rattle.monitor_run.specs.Request.{plain_request};

use ms_auth::{Kind, request};
use ntp_wire::{Stamp, write_header};

/// The plain request with this timestamp: the header of a member's request with the poll exponent 0, and nothing
/// behind it.
pub(crate) fn plain_request(stamp: Stamp) -> [u8; 48]
    ensures { result ≡ plain_request stamp }
{
    let signed = request(Kind::Short, 0, 0, stamp);
    let mut bytes = [0; 48];
    write_header(&signed.header, &mut bytes);
    bytes
}
