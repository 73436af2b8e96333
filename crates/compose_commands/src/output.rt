//! Writes output files.
use crate::state_folder::unwritten;
use compose_input::Fault;
use std::rt::Files;
use std::{fs, io};

/// Writes a text to a file, whole or not at all: to a new file beside it, which is then renamed.
/// Errors: `Unwritten` with the path if that fails; `NoMemory` if memory runs out.
pub fn write_whole(rt: &(impl Files + AllocGlobal), path: &str, text: &str) -> Result<(), Fault> {
    let part = format!(in rt.alloc(); "{path}.part")?;
    match write_over(rt, &part, path, text) {
        Ok(()) => Ok(()),
        Err(error) => {
            let _ = fs::remove_file(rt, &part);
            Err(unwritten(rt.alloc(), path, error.kind()))
        }
    }
}

/// Writes a text to the file `part`, and renames it to the path.
fn write_over(rt: &impl Files, part: &str, path: &str, text: &str) -> io::Result<()> {
    fs::write(rt, part, text)?;
    fs::rename(rt, part, path)
}
