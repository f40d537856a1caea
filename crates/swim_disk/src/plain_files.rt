//! Plain files: what stands at a path, and a new one.

use std::fs::{File, OpenOptions};
use std::io;
use std::os::unix::fs::OpenOptionsExt;
use std::rt::Files;

/// Whether a file stands at a path, and nothing else: no folder, no socket, no pipe, and no link to a file.
pub fn is_file<R: Files>(rt: &R, path: &str) -> bool {
    match rt.symlink_metadata(path) {
        Ok(metadata) => metadata.is_file(),
        Err(_) => false,
    }
}

/// Makes a file of this mode, to be written. `Err` where anything stands at its path, a link to nothing too.
pub fn make_file<R: Files<File = File>>(rt: &R, path: &str, mode: u32) -> io::Result<File> {
    OpenOptions::new()
        .write(true)
        .create_new(true)
        .mode(mode)
        .open(rt, path)
}
