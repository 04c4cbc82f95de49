//! Worked runs of a member, with the lines that it writes.
mod kit;
mod reasons;
mod runs;
mod signed;
