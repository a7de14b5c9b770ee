//! Requests.

use ats_num::Name;
use ats_streams::Stream;

/// What is asked of an admission controller.
#[derive(Debug, Drop)]
pub enum Request {
    /// To admit this stream.
    Admit(Stream),
    /// To admit this stream with the lowest class that it can have at each port, whichever classes it has.
    Lowest(Stream),
    /// To take out the stream of this name.
    Withdraw(Name),
}
