//! What is served of a daemon.

ghost use Rattle.std.specs.Prelude.{◌≡◌, [], IfOk, box_value, false, map, string_bytes};
ghost use Rattle.swim_pages.specs.HostNames.{host_names};

use crate::own_names::host_names;
use crate::web_daemons::SocketDaemon;
use crate::web_shelves::FileShelf;
use std::alloc::{AllocError, Global};
use std::fs::File;
use std::net::Net;
use std::rt::{Clock, Files};
use swim_commands::WebRequest;
use swim_web::{Recent, Web};

/// Returns what is served of a daemon and its journal files under the names of a request, before anything was heard.
pub fn web_over<'r, 'p, R: Files<File = File> + Net + Clock>(
    alloc: Global,
    request: &WebRequest<'_>,
    daemon: SocketDaemon<'r, 'p, R>,
    shelf: FileShelf<'r, 'p, R>,
) -> Result<Web<SocketDaemon<'r, 'p, R>, FileShelf<'r, 'p, R>>, AllocError>
    ensures names { IfOk result (λ web. map string_bytes web.names.items
        ≡ host_names request.now.listen (map (λ name. name.now) request.now.names.items)) }
    ensures fresh { IfOk result (λ web. (web.recent ≡ record { told = 0; lines = [] }) × (web.is_late ≡ false)
        × (web.is_full ≡ false)) }
    ensures over { IfOk result (λ web. (box_value web.daemon ≡ daemon.entry) × (box_value web.shelf ≡ shelf.entry)) }
{
    let names = host_names(alloc, request.listen, request.names.as_slice())?;
    Ok(Web {
        alloc,
        names,
        recent: Recent::new(),
        is_late: false,
        is_full: false,
        daemon: Box::new(alloc, daemon)?,
        shelf: Box::new(alloc, shelf)?,
    })
}
