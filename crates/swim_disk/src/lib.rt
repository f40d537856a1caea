//! Journal files on a disk that may be slow: how they are named and made, which of earlier lives go, and what waits to
//! be written into them.
#![tactic(auto)]

mod backlogs;
mod file_faults;
mod file_sheets;
mod lost_files;
mod new_files;
mod old_files;
mod pending;
mod plain_files;
mod verdicts;

pub use backlogs::{Backlog, Draft, FileTask, MOST_FILES};
pub use file_faults::FileFault;
pub use file_sheets::{FileEnd, FileSheet, FileState};
pub use lost_files::LostFile;
pub use new_files::{DirPath, NewFile};
pub use old_files::{FilePath, Journaled, Stamp, journals_in, judged_in, path_of};
pub use pending::{FILE_BYTES, Pending};
pub use plain_files::{is_file, make_file};
pub use verdicts::{VerdictSearch, tells_verdict};
