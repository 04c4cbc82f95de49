//! A call that waits for its answer.

use crate::Call;

/// A call, and where its response belongs.
#[derive(Clone, Copy, Debug, PartialEq, Eq)]
pub(crate) struct Asked {
    pub(crate) call: Call,
    /// The call identifier of the request.
    pub(crate) call_id: u32,
    /// The context of the request.
    pub(crate) context: u16,
}
