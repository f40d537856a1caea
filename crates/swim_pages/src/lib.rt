//! What the pages of a daemon that `swimd web` serves are made of: what the daemon answers and tells at its sockets, and
//! its journal files, by which verdicts are explained.
#![tactic(auto)]

mod doubts;
mod file_places;
mod kept_files;
mod kept_pages;
mod own_names;
mod searches;
mod served_pages;
mod web_daemons;
mod web_events;
mod web_shelves;

pub use own_names::host_names;
pub use served_pages::web_over;
pub use web_daemons::SocketDaemon;
pub use web_events::SocketEvents;
pub use web_shelves::FileShelf;
