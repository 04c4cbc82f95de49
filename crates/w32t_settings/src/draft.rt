//! What the lines of a settings text have said so far, and the settings that they say.
ghost use Rattle.std.specs.Prelude.{◌≡◌, ◌<◌, ◌^◌, ◌↔◌, [], List, true, false, IfSome, IsNone, IsTrue, codes, nat_eq};
ghost use Rattle.std.specs.List.{starts_with};
ghost use Rattle.text_grammar.specs.Lines.{is_skipped};
ghost use Rattle.ms_auth.specs.declared.packet.Kind.TheVariants.{Short};
ghost use Rattle.w32t_settings.specs.Progress.{AreLimits, Holds, Takes};
ghost use Rattle.w32t_settings.specs.SettingText.{Item};
ghost use Rattle.w32t_settings.specs.Values.{AllFit, AreSettings, IsBadWhole};

use crate::setting::{Number, Setting, read_setting};
use crate::values::{is_set, kind_of, name_of, rid_of, role_of, value_of};
use crate::{Settings, SettingsFault};
use key_book::{ACCOUNT, Book, Keys, read_account};
use ms_auth::Kind;
use partner_pick::{AddFault, COMPUTER, Directory, Role, read_entry};
use phase_rule::Limits;
use std::alloc::Global;
use text_grammar::is_skipped;

/// What lines have said: accounts, computers and settings, each in their order.
#[derive(Drop)]
pub(crate) struct Draft {
    pub(crate) book: Book,
    pub(crate) directory: Directory,
    pub(crate) settings: Vec<Setting>,
}

impl Draft {
    /// Nothing said yet.
    pub(crate) fn new(alloc: Global) -> Draft
        ensures { Holds [] result }
    {
        Draft {
            book: Book::new(alloc),
            directory: Directory::new(alloc),
            settings: Vec::new(alloc),
        }
    }

    /// Keeps what the line with this number says.
    pub(crate) fn take(&mut self, number: u32, line: &[u8]) -> Result<(), SettingsFault>
        ensures { (items : List Item) → Holds items self.old
            → Takes number line.now items self.new result }
    {
        if is_skipped(line) {
            Ok(())
        } else if line.starts_with(ACCOUNT) {
            self.take_account(number, line)
        } else if line.starts_with(COMPUTER) {
            self.take_computer(number, line)
        } else {
            self.take_setting(number, line)
        }
    }

    /// Keeps the account of an account line.
    fn take_account(&mut self, number: u32, line: &[u8]) -> Result<(), SettingsFault>
        requires seen { is_skipped line.now ≡ false }
        requires begins { starts_with nat_eq line.now (codes "account ") ≡ true }
        ensures { (items : List Item) → Holds items self.old
            → Takes number line.now items self.new result }
    {
        let Some(account) = read_account(line) else {
            return Err(SettingsFault::BadConfig(number));
        };
        if self.book.find(account.rid).is_some() {
            return Err(SettingsFault::BadConfig(number));
        }
        match self.book.add(account) {
            Ok(()) => Ok(()),
            Err(_) => Err(SettingsFault::NoMemory),
        }
    }

    /// Keeps the entry of a computer line.
    fn take_computer(&mut self, number: u32, line: &[u8]) -> Result<(), SettingsFault>
        requires seen { is_skipped line.now ≡ false }
        requires begins { starts_with nat_eq line.now (codes "computer ") ≡ true }
        ensures { (items : List Item) → Holds items self.old
            → Takes number line.now items self.new result }
    {
        let Some(entry) = read_entry(line) else {
            return Err(SettingsFault::BadConfig(number));
        };
        match self.directory.add(entry) {
            Ok(()) => Ok(()),
            Err(AddFault::Twice) => Err(SettingsFault::BadConfig(number)),
            Err(AddFault::NoMemory) => Err(SettingsFault::NoMemory),
        }
    }

    /// Keeps what a line of the form `SETTING=VALUE` says.
    fn take_setting(&mut self, number: u32, line: &[u8]) -> Result<(), SettingsFault>
        requires seen { is_skipped line.now ≡ false }
        requires no_account { starts_with nat_eq line.now (codes "account ") ≡ false }
        requires no_computer { starts_with nat_eq line.now (codes "computer ") ≡ false }
        ensures { (items : List Item) → Holds items self.old
            → Takes number line.now items self.new result }
    {
        let Some(setting) = read_setting(line) else {
            return Err(SettingsFault::BadConfig(number));
        };
        if is_set(&self.settings, &setting) {
            return Err(SettingsFault::BadConfig(number));
        }
        match self.settings.push(setting) {
            Ok(()) => Ok(()),
            Err(_) => Err(SettingsFault::NoMemory),
        }
    }

    /// The settings that the lines say. None exactly where the text as a whole is bad.
    pub(crate) fn finish(self) -> Option<Settings>
        requires { AllFit self.settings.items }
        ensures settings { (items : List Item) → Holds items self
            → IfSome result (AreSettings items) }
        ensures none { (items : List Item) → Holds items self
            → IsNone result → IsBadWhole items }
    {
        let name = name_of(&self.settings)?;
        let role = role_of(&self.settings)?;
        let rid = rid_of(&self.settings)?;
        let kind = kind_of(&self.settings).unwrap_or(Kind::Short);
        let limits = limits_of(&self.settings, role)?;
        let announce = value_of(&self.settings, Number::AnnounceFlags, role) as u8;
        if self.book.find(rid).is_none() || !can_name(kind, rid) {
            return None;
        }
        Some(Settings {
            name,
            role,
            rid,
            kind,
            limits,
            announce,
            book: self.book,
            directory: self.directory,
        })
    }
}

/// Whether a message of the kind can name the account: a short one has 31 bits for it.
fn can_name(kind: Kind, rid: u32) -> bool
    ensures { IsTrue result ↔ (kind ≡ Short → rid < 2 ^ 31) }
{
    match kind {
        Kind::Short => rid < 1 << 31,
        Kind::Extended => true,
    }
}

/// The limits as they are set, or the defaults of the role. None where the least poll exponent is above the greatest.
fn limits_of(settings: &[Setting], role: Role) -> Option<Limits>
    requires { AllFit settings.now }
    ensures { AreLimits role settings.now result }
{
    let min_poll = value_of(settings, Number::MinPollInterval, role) as u8;
    let max_poll = value_of(settings, Number::MaxPollInterval, role) as u8;
    if min_poll > max_poll {
        return None;
    }
    Some(Limits {
        max_pos: value_of(settings, Number::MaxPosPhaseCorrection, role),
        max_neg: value_of(settings, Number::MaxNegPhaseCorrection, role),
        max_allowed: value_of(settings, Number::MaxAllowedPhaseOffset, role),
        min_poll,
        max_poll,
    })
}
