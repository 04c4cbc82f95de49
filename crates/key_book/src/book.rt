//! Accounts with distinct RIDs.
ghost use Rattle.std.specs.Prelude.{◌≡◌};
ghost use Rattle.key_book.specs.AccountBook.{account_of};

use crate::print::print_accounts;
use crate::{Account, Keys, NoMemory};
use indexmap::IndexMap;
use std::alloc::{AllocError, Global};
use std::marker::Model;

/// Accounts with distinct RIDs, in the order of their lines. Contracts see the list of them.
///
/// Each stands at its RID in a map that keeps the order, so that one is found without a look at the others.
#[derive(Drop)]
pub struct Book {
    accounts: IndexMap<u32, Account>,
}

impl Model for Book {
    ghost use Rattle.std.specs.Prelude.{List};
    ghost use Rattle.key_book.specs.declared.account.Account.{Account};
    ghost use Rattle.indexmap.specs.IndexMap.{values};
    ghost use Rattle.key_book.specs.Book.{AreKeyed, IsBook};

    ghost Value = { List Account };

    ghost view = { λ book. values book.accounts };

    ghost invariant = { λ book. IsBook (values book.accounts) × AreKeyed book.accounts.entries };
}

impl Book {
    ghost use Rattle.std.specs.Prelude.{◌≡◌, [], ◌∷◌, ◌++◌, IfOk, OnErr, OnOk, Ok};
    ghost use Rattle.std.specs.Str.Lines.{lines};
    ghost use Rattle.key_book.specs.AccountBook.{NoneHas};
    ghost use Rattle.key_book.specs.Book.{IsAccount};
    ghost use Rattle.key_book.specs.AccountText.{printed};
    ghost use Rattle.key_book.specs.Parsing.{IsAnswer};

    /// A book without accounts.
    pub fn new(alloc: Global) -> Self
        ensures { result ≡ [] }
    {
        Book {
            accounts: IndexMap::new(alloc),
        }
    }

    /// Adds an account at the end. No account of the book has its RID: [`find`](Keys::find) tells. The error is want
    /// of memory.
    pub fn add(&mut self, account: Account) -> Result<(), AllocError>
        requires fits { IsAccount account }
        requires fresh { NoneHas self.old account.rid }
        ensures ok { OnOk result (self.new ≡ self.old ++ account ∷ []) }
        ensures err { OnErr result (self.new ≡ self.old) }
    {
        self.accounts.insert(account.rid, account)?;
        Ok(())
    }

    /// The account lines in their order, each with its line feed, with the keys in lower case.
    ///
    /// [`parse_accounts`](crate::parse_accounts) reads the same list from it, where it has at most 16,777,216
    /// bytes. [`NoMemory`] comes for want of memory.
    pub fn print(&self, alloc: Global) -> Result<Vec<u8>, NoMemory>
        ensures lines { IfOk result (λ text. text.items ≡ printed self.now) }
        ensures read_again { IfOk result (λ text. IsAnswer (lines text.items) (Ok self.now)) }
    {
        print_accounts(alloc, self.accounts.values().as_slice()).map_err(|_| NoMemory)
    }

    /// The account that stands at this RID.
    fn at(&self, rid: u32) -> Option<Account>
        ensures { result ≡ account_of self.now rid }
    {
        self.accounts.get(&rid).copied()
    }
}

/// The accounts of the book, each found by its RID.
impl Keys for Book {
    ghost accounts = { λ book. book };

    fn find(&self, rid: u32) -> Option<Account> {
        self.at(rid)
    }
}
