//! One account.
use std::fmt;

/// An account of the domain with its keys. `{:?}` prints its RID alone, never a key.
#[derive(Clone, Copy, PartialEq, Eq)]
pub struct Account {
    /// The relative identifier (RID), which no other account of the domain has.
    pub rid: u32,
    /// The key that holds now: the 16-byte hash of the account's password.
    pub current: [u8; 16],
    /// The key that held before it, where one is known.
    pub previous: Option<[u8; 16]>,
}

impl Account {
    ghost use Rattle.std.specs.Prelude.{◌≡◌};
    ghost use Rattle.key_book.specs.AccountBook.{key_in};

    /// The previous key where the old one is asked for, and otherwise the current one. None exactly where the
    /// old one is asked for and the account has none.
    pub fn key(&self, old: bool) -> Option<[u8; 16]>
        ensures { result ≡ key_in self.now old }
    {
        if old {
            self.previous
        } else {
            Some(self.current)
        }
    }
}

impl fmt::Debug for Account {
    ghost use Rattle.std.specs.Prelude.{Some};
    ghost use Rattle.key_book.specs.AccountText.{shown};

    ghost debug_output = { λ account. Some (shown account) };

    fn fmt<W: fmt::Write>(&self, f: &mut fmt::Formatter<W>) -> fmt::Result {
        let rid = self.rid;
        write!(f, "Account {{ rid: {rid}, .. }}")
    }
}
