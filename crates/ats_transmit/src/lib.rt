//! One port: a class queue for each class, and the transmissions that the port made. A transmission runs to its end
//! before the next one starts; a free port sends the highest class first, and in a class the frame that became eligible
//! first (IEEE Std 802.1Q, strict priority; IEEE Std 802.1Qcr, ATS transmission selection).
#![tactic(auto)]

mod choice;
mod front;
pub mod offer;
mod past;
pub mod pick;
pub mod port;
pub mod sent;
mod waiting;

pub use offer::Offer;
pub use pick::Pick;
pub use port::Port;
pub use sent::Sent;
