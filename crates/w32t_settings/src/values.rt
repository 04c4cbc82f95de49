//! What the setting lines set, and what holds where they set nothing.
ghost use Rattle.std.specs.Prelude.{◌≡◌, ◌≤◌, ◌↔◌, Any, IsTrue};
ghost use Rattle.w32t_settings.specs.SettingText.{greatest, label};
ghost use Rattle.w32t_settings.specs.Values.{AllFit, default_of, given, kind_in, name_in, number_in, rid_in, role_in, value_of};

use crate::setting::{Number, Setting};
use ms_auth::Kind;
use partner_pick::{NameText, Role};
use phase_rule::NO_LIMIT;

/// Whether a setting of this label is among the settings.
pub(crate) fn is_set(settings: &[Setting], setting: &Setting) -> bool
    ensures { IsTrue result ↔ Any (λ s. label s ≡ label setting.now) settings.now }
{
    settings.iter().any(|s| s.label() == setting.label())
}

/// The value of Role, where it is set.
pub(crate) fn role_of(settings: &[Setting]) -> Option<Role>
    ensures { result ≡ given role_in settings.now }
{
    match settings {
        [] => None,
        [Setting::Role(role), ..] => Some(*role),
        [_, rest @ ..] => role_of(rest),
    }
}

/// The value of Rid, where it is set.
pub(crate) fn rid_of(settings: &[Setting]) -> Option<u32>
    ensures { result ≡ given rid_in settings.now }
{
    match settings {
        [] => None,
        [Setting::Rid(rid), ..] => Some(*rid),
        [_, rest @ ..] => rid_of(rest),
    }
}

/// The value of Auth, where it is set.
pub(crate) fn kind_of(settings: &[Setting]) -> Option<Kind>
    ensures { result ≡ given kind_in settings.now }
{
    match settings {
        [] => None,
        [Setting::Auth(kind), ..] => Some(*kind),
        [_, rest @ ..] => kind_of(rest),
    }
}

/// The value of a number, where it is set.
fn number_of(settings: &[Setting], wanted: Number) -> Option<u32>
    ensures { result ≡ given (number_in wanted) settings.now }
{
    match settings {
        [] => None,
        [Setting::Number(number, value), ..] if number.label() == wanted.label() => Some(*value),
        [_, rest @ ..] => number_of(rest, wanted),
    }
}

/// The value of Name, where it is set, as a copy.
pub(crate) fn name_of(settings: &[Setting]) -> Option<NameText>
    ensures { result ≡ given name_in settings.now }
{
    match settings {
        [] => None,
        [Setting::Name(name), ..] => NameText::from_slice(name.as_slice()),
        [_, rest @ ..] => name_of(rest),
    }
}

/// The value of a number: as it is set, or the default of the role.
pub(crate) fn value_of(settings: &[Setting], number: Number, role: Role) -> u32
    requires { AllFit settings.now }
    ensures value { result ≡ value_of number role settings.now }
    ensures within { result ≤ greatest number }
{
    number_of(settings, number).unwrap_or(default_of(number, role))
}

/// What holds where a number isn't set: a member corrects by any amount and asks rarely, a controller by two days
/// at most.
fn default_of(number: Number, role: Role) -> u32
    ensures { result ≡ default_of number role }
{
    match (number, role) {
        (Number::MaxPosPhaseCorrection | Number::MaxNegPhaseCorrection, Role::Member) => NO_LIMIT,
        (Number::MaxPosPhaseCorrection | Number::MaxNegPhaseCorrection, _) => 172_800,
        (Number::MaxAllowedPhaseOffset, _) => 300,
        (Number::MinPollInterval, Role::Member) => 10,
        (Number::MinPollInterval, _) => 6,
        (Number::MaxPollInterval, Role::Member) => 15,
        (Number::MaxPollInterval, _) => 10,
        (Number::AnnounceFlags, _) => 10,
    }
}
