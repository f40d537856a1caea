//! Limits: what a guest may send, and how long that may take.

ghost use Rattle.std.specs.Prelude.{◌≡◌};
ghost use Rattle.std.specs.Duration.{as_nanos};
ghost use Rattle.swim_web.specs.Limits.{guest_config, most_nanos};

use http_server::Config;
use http1::Limits;
use std::time::Duration;

/// How many guests are let in at a time. The others wait in the system's queue.
pub(crate) const GUESTS: usize = 32;

/// How long a guest may take for a request, in milliseconds.
const MOST_MS: u64 = 10_000;

/// The same while all places are taken.
const MOST_FULL_MS: u64 = 300;

/// Returns what a request may have: a head of 8 KiB and no body. The next one is read only when the answer to this one
/// is taken.
pub(crate) fn limits() -> Config
    ensures { result ≡ guest_config }
{
    Config {
        limits: Limits {
            max_head_len: 8_192,
            max_extensions_len: 0,
            max_trailers_len: 2,
        },
        max_body_len: 0,
        max_pending: 0,
        read_size: 1_024,
    }
}

/// Returns how long a guest may take for a request, and then for taking its answer.
pub(crate) fn most_for(is_full: bool) -> Duration
    ensures { as_nanos result ≡ most_nanos is_full }
{
    if is_full {
        Duration::from_millis(MOST_FULL_MS)
    } else {
        Duration::from_millis(MOST_MS)
    }
}
