//! The two ways of a frame.

/// Which way a frame goes.
#[derive(Clone, Copy, Debug, PartialEq, Eq)]
pub enum Way {
    /// From the client: requests.
    ToServer,
    /// To the client: replies.
    ToClient,
}
