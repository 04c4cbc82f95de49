//! The calls, and their answers.

use partner_pick::NameText;

/// A call that a client makes.
#[derive(Clone, Copy, Debug, PartialEq, Eq)]
pub enum Call {
    /// Synchronize with the partner (W32TimeSync).
    Sync {
        /// Not 0: the answers of the partner are waited for.
        wait: u32,
        /// 0x2: the result is told; 0x4: the partners are begun with anew.
        flags: u32,
    },
    /// How the computer announces itself (W32TimeGetNetlogonServiceBits).
    Bits,
    /// The source of the computer's time (W32TimeQuerySource).
    Source,
}

/// The answer to a call.
#[derive(Drop)]
pub enum Given {
    /// To `Sync`: 0 synchronized, or not waited for or not asked for; 1 no time data; 3 the change was too big.
    Synced(u32),
    /// To `Bits`: 0x40 and 0x200, as of `service_bits`.
    Bits(u32),
    /// To `Source`: the name of the partner, or `Local CMOS Clock`.
    Source(NameText),
}
