//! Calls that read names and sources, start a service and write a bundle.
use crate::checking::check;
use crate::failure::Failure;
use crate::input::{Start, read_file, read_sources, read_start, start_with};
use crate::marks::mark;
use crate::output::{print_bytes, print_line};
use compose_bundle::write_bundle;
use compose_read::Sources;
use keysym_core::Names;

/// Tries the call that the argument names. `Err(Arguments)` if there is no such call; other errors:
/// see [`Failure`].
pub fn try_call(rt: &HostRuntime, call: &str) -> Result<(), Failure> {
    match call {
        "names" => names(rt),
        "add" => add(rt),
        "check" => check(rt),
        "start" => start(rt),
        "bundle" => bundle(rt),
        _ => Err(Failure::Arguments),
    }
}

/// Reads the header, and prints the text of the key that the file `word` names.
fn names(rt: &HostRuntime) -> Result<(), Failure> {
    let header = read_file(rt, "header")?;
    let word = read_file(rt, "word")?;
    read_names(rt, &header, &word)
}

/// Reads these bytes of a header, between two marks.
fn read_names(rt: &HostRuntime, header: &[u8], word: &[u8]) -> Result<(), Failure> {
    mark(rt);
    let read = Names::read(rt.alloc(), header);
    mark(rt);
    match read {
        Ok(names) => print_key_text(rt, &names, word),
        Err(fault) => print_line(rt, fault),
    }
}

/// Prints the text of a key.
fn print_key_text(rt: &HostRuntime, names: &Names, word: &[u8]) -> Result<(), Failure> {
    let Ok(word) = str::from_utf8(word) else {
        return Err(Failure::Input);
    };
    let Some(keysym) = names.lookup(word) else {
        return Err(Failure::Input);
    };
    match names.text_of(keysym) {
        Some(character) => print_line(rt, character),
        None => print_line(rt, "nothing"),
    }
}

/// Adds a second source, and tries again after a refusal. Prints the refusal, and all sources.
fn add(rt: &HostRuntime) -> Result<(), Failure> {
    let mut sources = read_sources(rt, "old")?;
    add_new(rt, &mut sources)
}

/// Adds it to these sources, between two marks.
fn add_new(rt: &HostRuntime, sources: &mut Sources) -> Result<(), Failure> {
    let bytes = read_file(rt, "new")?;
    mark(rt);
    let added = sources.add("new", bytes);
    mark(rt);
    if let Err(fault) = added {
        print_line(rt, fault)?;
        add_again(rt, sources)?;
    }
    print_sources(rt, sources)
}

/// Prints the sources, and adds the second one again.
fn add_again(rt: &HostRuntime, sources: &mut Sources) -> Result<(), Failure> {
    print_sources(rt, sources)?;
    let bytes = read_file(rt, "new")?;
    match sources.add("new", bytes) {
        Ok(()) => Ok(()),
        Err(_) => Err(Failure::Input),
    }
}

/// Prints each source: its name, and the number of its bytes.
fn print_sources(rt: &HostRuntime, sources: &Sources) -> Result<(), Failure> {
    for index in 0..sources.count() {
        if let Some(name) = sources.name(index) {
            print_line(rt, name)?;
        }
        print_line(rt, sources.bytes(index).len())?;
    }
    Ok(())
}

/// Starts a service.
fn start(rt: &HostRuntime) -> Result<(), Failure> {
    let certificate = read_file(rt, "certificate")?;
    let parts = read_start(rt)?;
    start_marked(rt, parts, &certificate)
}

/// Starts it from these parts, between two marks.
fn start_marked(rt: &HostRuntime, parts: Start, certificate: &[u8]) -> Result<(), Failure> {
    mark(rt);
    let started = start_with(rt, parts, certificate);
    mark(rt);
    match started {
        Ok(service) => print_line(rt, service.session_count()),
        Err(fault) => print_line(rt, fault),
    }
}

/// Writes the bundle of the new table and the certificate.
fn bundle(rt: &HostRuntime) -> Result<(), Failure> {
    let sources = read_sources(rt, "new")?;
    let certificate = read_file(rt, "certificate")?;
    write_marked(rt, &sources, &certificate)
}

/// Writes the bundle of these, between two marks.
fn write_marked(rt: &HostRuntime, sources: &Sources, certificate: &[u8]) -> Result<(), Failure> {
    mark(rt);
    let written = write_bundle(rt.alloc(), sources, certificate);
    mark(rt);
    match written {
        Ok(payload) => print_bytes(rt, &payload),
        Err(fault) => print_line(rt, fault),
    }
}
