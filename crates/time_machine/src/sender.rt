//! Who sent a datagram, and whether his clock may be taken.
ghost use Rattle.std.specs.Prelude.{◌≡◌};
ghost use Rattle.time_machine.specs.Verdict.{is_bad_mode, is_bad_stratum, is_same_addr};

use edge_traits::Addr;
use ntp_wire::Header;

/// Whether address and port are the same.
pub fn is_same_addr(a: Addr, b: Addr) -> bool
    ensures { result ≡ is_same_addr a b }
{
    a.ip == b.ip && a.port == b.port
}

/// Whether the message is not a server's: its mode is not 4.
pub fn is_bad_mode(header: &Header) -> bool
    ensures { result ≡ is_bad_mode header.now.mode }
{
    header.mode != 4
}

/// Whether the sender's clock isn't synchronized: the stratum is not 1 to 15, or the leap indicator is 3.
pub fn is_bad_stratum(header: &Header) -> bool
    ensures { result ≡ is_bad_stratum header.now.leap header.now.stratum }
{
    header.stratum < 1 || header.stratum > 15 || header.leap == 3
}
