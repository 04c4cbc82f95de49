//! The accounts of a domain, their keys, and the text in which they stand.
//!
//! An account has a relative identifier (RID), the key that holds now, and perhaps the one that held before.
//! [`Keys`] is whatever accounts are looked up in: its ghost member is the list of them, and `find` answers by
//! that list alone. [`Book`] is such a list with distinct RIDs, and so is one account by itself.
//!
//! A text of accounts says one book, or has one first bad account line ([`laws_of_accounts`]), which [`parse_accounts`]
//! answers; what [`Book::print`] writes says the same book again. [`read_account`] reads one line for texts that have
//! others beside. Want of memory is the one answer that comes freely. `{:?}` of an account shows no key.
//!
//! The crate stands on `text_grammar` (lines, numbers and keys), `hex`, `indexmap` and `thiserror`. A book keeps its
//! accounts in the map of `indexmap`, in their order and each at its RID. So an account is found without a look at
//! the others, and a text of many accounts is read in a time that grows as its lines do. The layer above may rely on
//! the clauses of `find`, `parse_accounts` and `print`, and on `key_of`, the key that a RID and the wish for the old
//! one name in a list. The definitions stand in `specs/`: accounts and what is looked up in `AccountBook.antt`, what
//! a book holds in `Book.antt`, the account line in `AccountText.antt`, and what the reader answers in
//! `Parsing.antt`.
#![tactic(auto)]

mod account;
mod book;
mod fault;
mod keys;
mod laws;
mod line;
mod parse;
mod print;
#[cfg(test)]
mod tests;

pub use account::Account;
pub use book::Book;
pub use fault::{BookFault, NoMemory};
pub use keys::Keys;
pub use laws::laws_of_accounts;
pub use line::{ACCOUNT, read_account};
pub use parse::parse_accounts;
