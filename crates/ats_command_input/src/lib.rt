//! What any command's answer is made of: the command table, what the files of a call declare or the
//! stop in its place, the status, and how a text or a stop is printed.
#![tactic(auto)]

pub mod command;
pub mod input_file;
pub mod making;
pub mod order;
pub mod outcome;
pub mod port;
pub mod station;
pub mod status;
pub mod stream;

pub use command::{Command, named_by};
pub use input_file::{certificate_in, network_in, requests_in, schedule_in, shape_in, traffic_in};
pub use making::{FrameCount, count_named, seed_named};
pub use order::{Order, order_named};
pub use outcome::{Stop, finish, print};
pub use port::port_in;
pub use station::station_in;
pub use status::Status;
pub use stream::stream_in;
