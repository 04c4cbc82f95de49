//! What a PDU leads to.

use crate::accepted::Accepted;
use crate::asked::Asked;
use rpc_pdu::Pdu;

/// What a PDU leads to.
#[derive(Drop)]
pub(crate) enum Reaction {
    /// An answer.
    Answers(Pdu),
    /// An answer, after which these contexts are accepted.
    Binds(Pdu, Accepted),
    /// A call, whose response waits for its answer.
    Calls(Asked),
    /// An answer that ends the session.
    Ends(Pdu),
}
