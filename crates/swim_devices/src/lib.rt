//! The devices of a daemon, as the gates that its workers ask: a UDP socket, the system's clock, and Unix sockets for
//! operators and for those who watch.
#![tactic(auto)]

mod addresses;
mod places;
mod receptions;
mod sleeping_pace;
mod stream_outlet;
mod udp_endpoint;
mod udp_line;
mod udp_post;
mod unix_door;
mod unix_entrance;
mod unix_streams;

pub use places::{Place, Remover, Sight, SystemRemover};
pub use sleeping_pace::{ClockSleeper, Sleeper, SleepingPace};
pub use stream_outlet::StreamOutlet;
pub use udp_endpoint::UdpEndpoint;
pub use udp_line::UdpLine;
pub use udp_post::UdpPost;
pub use unix_door::UnixDoor;
pub use unix_entrance::UnixEntrance;
pub use unix_streams::{StreamSink, StreamSource};
