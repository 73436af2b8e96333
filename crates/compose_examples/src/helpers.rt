//! Common parts of the worked examples.
use compose_read::{SourceFault, Sources};
use keysym_core::Names;
use std::alloc::{AllocError, Global};
use std::fmt::Write;
use std::process::Abort;

/// Asserts that the text is the wanted one; a failure shows the row.
pub fn expect_text(rt: &impl Abort, row: &str, found: &str, wanted: &str) {
    assert_eq!(rt; found, wanted, "{row}");
}

/// Appends these pieces to a text.
/// Errors: `AllocError` if memory runs out.
pub fn push_all(text: &mut String, pieces: &[&str]) -> Result<(), AllocError> {
    for piece in pieces {
        text.push_str(piece)?;
    }
    Ok(())
}

/// Returns the text, repeated.
/// Errors: `AllocError` if memory runs out.
pub fn repeated(alloc: Global, text: &str, times: usize) -> Result<String, AllocError> {
    let mut whole = String::new(alloc);
    for _ in 0..times {
        whole.push_str(text)?;
    }
    Ok(whole)
}

/// Returns the built-in names.
/// Errors: `AllocError` if memory runs out.
pub fn core(alloc: Global) -> Result<Names, AllocError> {
    match Names::core(alloc) {
        Ok(names) => Ok(names),
        Err(_) => Err(AllocError),
    }
}

/// Adds a source with these bytes.
/// Errors: the fault of `Sources::add`; `NoMemory` if memory runs out.
pub fn add(
    sources: &mut Sources,
    alloc: Global,
    name: &str,
    bytes: &[u8],
) -> Result<(), SourceFault> {
    sources.add(name, Vec::from_slice(alloc, bytes)?)
}

/// Returns the sources `r` and `%L`.
/// Errors: `NoMemory` if memory runs out.
pub fn two_sources(
    alloc: Global,
    root: &[u8],
    included: &str,
) -> Result<Sources<'static>, SourceFault> {
    let mut sources = Sources::new(alloc);
    add(&mut sources, alloc, "r", root)?;
    add(&mut sources, alloc, "%L", included.as_bytes())?;
    Ok(sources)
}

/// Prints the name and the bytes of each source; a question mark stands for bytes that are not
/// UTF-8.
/// Errors: `AllocError` if memory runs out.
pub fn push_sources(text: &mut String, sources: &Sources) -> Result<(), AllocError> {
    for index in 0..sources.count() {
        let name = sources.name(index).unwrap_or("no name");
        let bytes = str::from_utf8(sources.bytes(index)).unwrap_or("?");
        write!(text, "{name}={bytes}\n")?;
    }
    Ok(())
}
