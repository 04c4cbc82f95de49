//! How a computer announces itself.
ghost use Rattle.std.specs.Prelude.{◌≡◌};
ghost use Rattle.w32t_calls.specs.Bits.{bits_of, gives_time, has_flag, is_controller, is_pdc, is_reliable};

use partner_pick::Role;

/// The computer gives the time.
const GIVES_TIME: u32 = 0x40;

/// Its time is reliable.
const IS_RELIABLE: u32 = 0x200;

/// The bits that a computer answers, by the setting AnnounceFlags and its role: 0x40 where it gives the time, 0x200 where its
/// time is reliable. Flag 1 says the first of any role, flag 2 of a controller; flag 4 says the second of any role, flag 8 of
/// the PDC emulator.
#[tactic(auto, unfolding(crate::specs::Bits::bits_of))]
pub fn service_bits(announce: u8, role: Role) -> u32
    ensures { result ≡ bits_of announce role }
{
    let time = if gives_time(announce, role) {
        GIVES_TIME
    } else {
        0
    };
    let reliable = if is_reliable(announce, role) {
        IS_RELIABLE
    } else {
        0
    };
    time + reliable
}

/// Whether the computer gives the time.
fn gives_time(flags: u8, role: Role) -> bool
    ensures { result ≡ gives_time flags role }
{
    has_flag(1, flags) || has_flag(2, flags) && is_controller(role)
}

/// Whether its time is reliable.
fn is_reliable(flags: u8, role: Role) -> bool
    ensures { result ≡ is_reliable flags role }
{
    has_flag(4, flags) || has_flag(8, flags) && is_pdc(role)
}

/// Whether the flags have this one.
fn has_flag(flag: u8, flags: u8) -> bool
    ensures { result ≡ has_flag flag flags }
{
    flags & flag != 0
}

/// Whether a computer of this role is a controller.
fn is_controller(role: Role) -> bool
    ensures { result ≡ is_controller role }
{
    matches!(role, Role::Controller | Role::Pdc)
}

/// Whether a computer of this role has the domain's clock.
fn is_pdc(role: Role) -> bool
    ensures { result ≡ is_pdc role }
{
    matches!(role, Role::Pdc)
}
