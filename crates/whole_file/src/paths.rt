//! The text of a path.
ghost use Rattle.std.specs.Prelude.{◌≡◌, ◌++◌, codes, IfOk};
ghost use Rattle.std.specs.String.{string_bytes};
ghost use Rattle.whole_file.specs.Paths.{folder_of, name_of, linked};

use itoa::Buffer;
use std::alloc::{AllocError, Global};

/// The folder of a file, with a slash at its end.
pub fn folder_of(alloc: Global, path: &str) -> Result<String, AllocError>
    ensures { IfOk result (λ folder. string_bytes folder ≡ folder_of path.now) }
{
    let mut folder = String::from_str(alloc, above(path))?;
    folder.push_str("/")?;
    Ok(folder)
}

/// The folder of a file, with no slash at its end.
fn above(path: &str) -> &str
    ensures { result.now ++ codes "/" ≡ folder_of path.now }
{
    match path.rsplit_once('/') {
        Some((above, _)) => above,
        None => ".",
    }
}

/// The name of a file in its folder.
pub fn name_of(path: &str) -> &str
    ensures { result.now ≡ name_of path.now }
{
    match path.rsplit_once('/') {
        Some((_, name)) => name,
        None => path,
    }
}

/// The path to which a link leads.
pub fn linked(alloc: Global, path: &str, target: &str) -> Result<String, AllocError>
    ensures { IfOk result (λ to. string_bytes to ≡ linked path.now target.now) }
{
    if target.starts_with("/") {
        return String::from_str(alloc, target);
    }
    let mut to = folder_of(alloc, path)?;
    to.push_str(target)?;
    Ok(to)
}

/// A path for a new file of a run, in a folder.
pub fn new_path(alloc: Global, folder: &str, run: &str, number: u16) -> Result<String, AllocError> {
    let mut name = String::from_str(alloc, folder)?;
    name.push_str("bearoff-")?;
    name.push_str(run)?;
    if number > 0 {
        name.push_str("-")?;
        name.push_str(Buffer::new().format(number))?;
    }
    name.push_str(".tmp")?;
    Ok(name)
}
