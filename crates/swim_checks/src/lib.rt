//! What the program does without asking a daemon: it reads and checks configurations, makes keys, and prints texts.
#![tactic(auto)]

mod checking;
mod configurations;
mod documents;
mod key_making;
mod texts;

pub use checking::{check, check_file, check_typed, warn};
pub use configurations::{configuration, read_configuration};
pub use documents::{Documents, SystemDocuments};
pub use key_making::make_key;
pub use texts::help;
