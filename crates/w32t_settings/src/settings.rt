//! What is configured.
ghost use Rattle.std.specs.Prelude.{◌≡◌, ◌<◌, ◌^◌, IsSome};
ghost use Rattle.key_book.specs.AccountBook.{account_of};
ghost use Rattle.ms_auth.specs.declared.packet.Kind.TheVariants.{Short};

use key_book::Book;
use ms_auth::Kind;
use partner_pick::{Directory, NameText, Role};
use phase_rule::Limits;
use thiserror::Error;

/// What is configured.
#[derive(Drop)]
pub struct Settings {
    /// The computer's own name, Name.
    pub name: NameText,
    /// What it is in its domain, Role.
    pub role: Role,
    /// The relative identifier of its account, Rid. It stands in the book, and a short message can name it.
    pub rid: u32,
    /// Which messages it sends, Auth.
    pub kind: Kind,
    /// MaxPosPhaseCorrection, MaxNegPhaseCorrection, MaxAllowedPhaseOffset, MinPollInterval, MaxPollInterval.
    pub limits: Limits,
    /// AnnounceFlags, as the text gives it: 0 to 15.
    pub announce: u8,
    /// The accounts of the account lines.
    pub book: Book,
    /// The computers of the computer lines.
    pub directory: Directory,

    ghost has_account: { IsSome (account_of book rid) },
    ghost short_rid: { kind ≡ Short → rid < 2 ^ 31 },
}

/// Why a text gives no settings.
#[derive(Clone, Copy, Debug, PartialEq, Eq, Error)]
pub enum SettingsFault {
    /// The least bad line, counted from 1. A fault of the text as a whole has the number of its lines and one more.
    #[error("bad settings at line {0}")]
    BadConfig(u32),
    /// There is no memory for the settings.
    #[error("no memory")]
    NoMemory,
}
