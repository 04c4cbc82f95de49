//! Which computers of a directory may be asked for the time, and in which order.
//!
//! A directory lists the controllers that a computer knows, each with four flags: in its site, reliable, of
//! the parent domain, PDC emulator. A role asks its queries in turn; an entry that matches one, other than the
//! computer itself, is a candidate. Candidates are ranked by their score, then by the lowest query that they
//! match, then by the order of their lines.
//!
//! The crate stands on `edge_traits` (addresses), `text_grammar` (lines, names, addresses), `arrayvec`, `indexmap`
//! and `thiserror`. A directory keeps its entries in the set of `indexmap`, in their order and compared by their
//! names, so that a name is looked up without a look at the others. The layer above may rely on [`parse_directory`]
//! giving exactly the entries of a text's computer lines or its first bad one, of which a text has just one
//! ([`laws_of_directories`]), on [`rank`] giving the one list that `specs/Ranking.antt` calls ranked, and on [`best`]
//! giving its first element without memory. Want of memory is the one answer that comes freely. The queries and the
//! score are defined in `specs/Queries.antt`, the computer line in `specs/ComputerText.antt`, what the reader of a
//! text answers in `specs/Parsing.antt`, and that no two entries have one name in `specs/Names.antt`.
//! `specs/Progress.antt` belongs to the private part.
#![tactic(auto)]

mod directory;
mod entry;
mod fault;
mod laws;
mod line;
mod name;
mod named;
mod parse;
mod ranking;
#[cfg(test)]
mod tests;

pub use directory::{AddFault, Directory};
pub use entry::{Entry, Role, score};
pub use fault::{DirFault, NoMemory};
pub use laws::laws_of_directories;
pub use line::{COMPUTER, read_entry};
pub use name::NameText;
pub use parse::parse_directory;
pub use ranking::{best, rank};
