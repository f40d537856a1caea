//! The names by which a request may call the host.

ghost use Rattle.std.specs.Prelude.{◌≡◌, ◌∷◌, ◌++◌, [], IfOk, OnOk, map, option_copied, string_bytes};
ghost use Rattle.swim_pages.specs.HostNames.{host_names, own_names, without_port};

use std::alloc::{AllocError, Global};
use swim_wire::Peer;

/// Returns the names of a host that listens at an address: that, `localhost` with its port, and those that were given.
/// Each that ends with port 80 is also one without it, as browsers leave that out.
pub fn host_names(alloc: Global, listen: Peer, given: &[&str]) -> Result<Vec<String>, AllocError>
    ensures { IfOk result (λ names. map string_bytes names.items
        ≡ host_names listen (map (λ name. name.now) given.now)) }
{
    let mut names = Vec::new(alloc);
    let address = listen.write();
    add_own(alloc, &mut names, address.as_str())?;
    let local = format!(in alloc; "localhost:{}", listen.port)?;
    add_own(alloc, &mut names, local.as_str())?;
    for name in given {
        add_own(alloc, &mut names, *name)?;
    }
    Ok(names)
}

/// Adds a name, and the same without port 80, if it ends with that.
fn add_own(alloc: Global, names: &mut Vec<String>, name: &str) -> Result<(), AllocError>
    ensures { OnOk result (map string_bytes names.new.items
        ≡ map string_bytes names.old.items ++ own_names name.now) }
{
    add(alloc, names, name)?;
    match without_port(name) {
        Some(name) => add(alloc, names, name),
        None => Ok(()),
    }
}

/// Adds a name.
fn add(alloc: Global, names: &mut Vec<String>, name: &str) -> Result<(), AllocError>
    ensures { OnOk result (map string_bytes names.new.items
        ≡ map string_bytes names.old.items ++ name.now ∷ []) }
{
    names.push(format!(in alloc; "{name}")?)?;
    Ok(())
}

/// Returns what stands in front of the port that browsers leave out, if a name ends with that.
fn without_port(name: &str) -> Option<&str>
    ensures { option_copied result ≡ without_port name.now }
{
    name.strip_suffix(":80")
}
