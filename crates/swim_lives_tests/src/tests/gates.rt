//! Gates of a life in memory, which tell each other how far they are.

mod doors;
mod lines;
mod noting;
mod paces;
mod pads;
mod posts;
mod signals;

pub use self::doors::{NoDoor, OneDoor};
pub use self::lines::{PING, PingLine, line};
pub use self::noting::{NotingReader, NotingWriter};
pub use self::paces::{Never, StopPace, pace};
pub use self::pads::{Pad, PadShelf};
pub use self::posts::{ACK, AckPost, TakingPost, post};
pub use self::signals::{Failing, Signals, TURNS, is_set, pause, set};
