//! Looking up accounts.
use crate::Account;

/// Accounts that are looked up by their RIDs.
pub trait Keys {
    ghost use Rattle.std.specs.Prelude.{◌≡◌, ◌↔◌, List, Contains, IfSome, IsNone};
    ghost use Rattle.key_book.specs.declared.account.Account.{Account};
    ghost use Rattle.key_book.specs.AccountBook.{account_of, NoneHas};

    /// The accounts, in their order.
    ghost accounts: { Self → List Account };

    /// The account with this RID, and None exactly where no account has it.
    fn find(&self, rid: u32) -> Option<Account>
        ensures account { result ≡ account_of (accounts self.now) rid }
        ensures found { IfSome result (λ account. Contains (accounts self.now) account × (account.rid ≡ rid)) }
        ensures missing { IsNone result ↔ NoneHas (accounts self.now) rid };
}

/// One account: the list of itself alone.
impl Keys for Account {
    ghost use Rattle.std.specs.Prelude.{[], ◌∷◌};

    ghost accounts = { λ account. account ∷ [] };

    fn find(&self, rid: u32) -> Option<Account> {
        if self.rid == rid { Some(*self) } else { None }
    }
}
