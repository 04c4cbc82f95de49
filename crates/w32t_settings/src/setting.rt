//! Lines of the form `SETTING=VALUE`.
ghost use Rattle.std.specs.Prelude.{◌≡◌, ◌≤◌, ℕ, decimal, IfSome};
ghost use Rattle.ms_auth.specs.declared.packet.Kind.{Kind};
ghost use Rattle.partner_pick.specs.declared.entry.Role.{Role};
ghost use Rattle.w32t_settings.specs.declared.setting.Number.{Number};
ghost use Rattle.w32t_settings.specs.declared.setting.Setting.{Setting};
ghost use Rattle.w32t_settings.specs.SettingText.{SpellsSetting, greatest, kind_text, label, number_label, role_text};

use ms_auth::Kind;
use partner_pick::{NameText, Role};
use text_grammar::{cut, read_decimal};

/// What stands before the `=` of the computer's own name.
const NAME: &[u8] = b"Name";

/// What stands before the `=` of its role.
const ROLE: &[u8] = b"Role";

/// What stands before the `=` of its account's RID.
const RID: &[u8] = b"Rid";

/// What stands before the `=` of the kind of its messages.
const AUTH: &[u8] = b"Auth";

/// The value of Role of a member.
const MEMBER: &[u8] = b"Member";

/// The value of Role of a controller that is not the PDC emulator.
const CONTROLLER: &[u8] = b"Controller";

/// The value of Role of the PDC emulator.
const PDC: &[u8] = b"Pdc";

/// The value of Auth for messages of 68 bytes.
const SHORT: &[u8] = b"Short";

/// The value of Auth for messages of 120 bytes.
const EXTENDED: &[u8] = b"Extended";

/// The settings that are numbers and have a default.
#[derive(Clone, Copy, PartialEq, Eq)]
pub(crate) enum Number {
    MaxPosPhaseCorrection,
    MaxNegPhaseCorrection,
    MaxAllowedPhaseOffset,
    MinPollInterval,
    MaxPollInterval,
    AnnounceFlags,
}

impl Number {
    /// What stands before the `=`.
    pub(crate) fn label(self) -> &'static [u8]
        ensures { result.now ≡ number_label self }
    {
        match self {
            Number::MaxPosPhaseCorrection => b"MaxPosPhaseCorrection",
            Number::MaxNegPhaseCorrection => b"MaxNegPhaseCorrection",
            Number::MaxAllowedPhaseOffset => b"MaxAllowedPhaseOffset",
            Number::MinPollInterval => b"MinPollInterval",
            Number::MaxPollInterval => b"MaxPollInterval",
            Number::AnnounceFlags => b"AnnounceFlags",
        }
    }

    /// The greatest value.
    fn greatest(self) -> u32
        ensures { result ≡ greatest self }
    {
        match self {
            Number::MaxPosPhaseCorrection
            | Number::MaxNegPhaseCorrection
            | Number::MaxAllowedPhaseOffset => u32::MAX,
            Number::MinPollInterval | Number::MaxPollInterval => 17,
            Number::AnnounceFlags => 15,
        }
    }
}

/// What a line of the form `SETTING=VALUE` says.
#[derive(Drop)]
pub(crate) enum Setting {
    /// The computer's own name.
    Name(NameText),
    /// What it is in its domain.
    Role(Role),
    /// The relative identifier of its account.
    Rid(u32),
    /// Which messages it sends.
    Auth(Kind),
    /// A number that has a default.
    Number(Number, u32),
}

impl Setting {
    /// What stands before the `=`.
    pub(crate) fn label(&self) -> &'static [u8]
        ensures { result.now ≡ label self.now }
    {
        match self {
            Setting::Name(_) => NAME,
            Setting::Role(_) => ROLE,
            Setting::Rid(_) => RID,
            Setting::Auth(_) => AUTH,
            Setting::Number(number, _) => number.label(),
        }
    }
}

/// The setting that the line spells. None where it spells none.
pub(crate) fn read_setting(line: &[u8]) -> Option<Setting>
    ensures read { IfSome result (λ setting. SpellsSetting setting line.now) }
    ensures found { (setting : Setting) → SpellsSetting setting line.now → result ≡ Some setting }
{
    let (label, value) = cut(line, b'=')?;
    if label == NAME {
        Some(Setting::Name(NameText::read(value)?))
    } else if label == ROLE {
        Some(Setting::Role(read_role(value)?))
    } else if label == RID {
        Some(Setting::Rid(read_decimal(value)?))
    } else if label == AUTH {
        Some(Setting::Auth(read_kind(value)?))
    } else {
        let number = read_number_label(label)?;
        let value = read_up_to(number.greatest(), value)?;
        Some(Setting::Number(number, value))
    }
}

/// The number whose label this is.
fn read_number_label(text: &[u8]) -> Option<Number>
    ensures read { IfSome result (λ number. text.now ≡ number_label number) }
    ensures found { (number : Number) → text.now ≡ number_label number → result ≡ Some number }
{
    if text == Number::MaxPosPhaseCorrection.label() {
        Some(Number::MaxPosPhaseCorrection)
    } else if text == Number::MaxNegPhaseCorrection.label() {
        Some(Number::MaxNegPhaseCorrection)
    } else if text == Number::MaxAllowedPhaseOffset.label() {
        Some(Number::MaxAllowedPhaseOffset)
    } else if text == Number::MinPollInterval.label() {
        Some(Number::MinPollInterval)
    } else if text == Number::MaxPollInterval.label() {
        Some(Number::MaxPollInterval)
    } else if text == Number::AnnounceFlags.label() {
        Some(Number::AnnounceFlags)
    } else {
        None
    }
}

/// `Member`, `Controller` or `Pdc`.
fn read_role(text: &[u8]) -> Option<Role>
    ensures read { IfSome result (λ role. text.now ≡ role_text role) }
    ensures found { (role : Role) → text.now ≡ role_text role → result ≡ Some role }
{
    if text == MEMBER {
        Some(Role::Member)
    } else if text == CONTROLLER {
        Some(Role::Controller)
    } else if text == PDC {
        Some(Role::Pdc)
    } else {
        None
    }
}

/// `Short` or `Extended`.
fn read_kind(text: &[u8]) -> Option<Kind>
    ensures read { IfSome result (λ kind. text.now ≡ kind_text kind) }
    ensures found { (kind : Kind) → text.now ≡ kind_text kind → result ≡ Some kind }
{
    if text == SHORT {
        Some(Kind::Short)
    } else if text == EXTENDED {
        Some(Kind::Extended)
    } else {
        None
    }
}

/// A decimal that is not above a greatest value.
fn read_up_to(most: u32, text: &[u8]) -> Option<u32>
    ensures read { IfSome result (λ n. (n ≤ most) × (text.now ≡ decimal n)) }
    ensures found { (n : ℕ) → n ≤ most → text.now ≡ decimal n → result ≡ Some n }
{
    match read_decimal(text) {
        Some(n) if n <= most => Some(n),
        _ => None,
    }
}
