//! What another reader makes of tables, for `tests/as_reader.py`. The arguments are the version, the
//! folders of `%H` and `%S`, the path of `%L`, and a file whose lines are the paths of tables. For
//! each the program prints `table`, what became of each line, and `refused` or the sequences with
//! their texts, in hexadecimal digits, and `end`.
//!
//! ```text
//! compose_as_reader 1.7 /root /usr/share/X11/locale /usr/share/X11/locale/C/Compose list
//! ```
#![tactic(auto)]

use compose_readers::xkbcommon::{Meanings, Reader, Version};
use compose_readers::{Fate, FileRead, Refusal, Told, Walked, What, fates, walk};
use keysym_core::Names;
use std::alloc::{AllocError, Global};
use std::io;

/// Returns the version with this number.
fn version_named(name: &str) -> Option<Version> {
    match name {
        "1.5" => Some(Version::V1_5),
        "1.7" => Some(Version::V1_7),
        _ => None,
    }
}

/// Reads the file at the path, if it can be read, and appends it.
fn add_file(
    rt: &HostRuntime,
    reader: &Reader<'_>,
    files: &mut Vec<FileRead>,
    path: &[u8],
) -> Result<bool, AllocError> {
    let Ok(name) = str::from_utf8(path) else {
        return Ok(false);
    };
    let Ok(bytes) = std::fs::read(rt, name) else {
        return Ok(false);
    };
    let path = Vec::from_slice(rt.alloc(), path)?;
    files.push(reader.file(rt.alloc(), path, &bytes)?)?;
    Ok(true)
}

/// Returns the path of the file that a walk lacks: that of its last include.
fn missing<'a>(walked: &Walked<'a>) -> Option<&'a [u8]> {
    if walked.refusal != Some(Refusal::Unread) {
        return None;
    }
    match walked.told.last()?.what {
        What::Includes(path) => Some(path),
        _ => None,
    }
}

/// Returns a copy of the path of the file that these files lack.
fn missing_path(alloc: Global, files: &[FileRead]) -> Result<Option<Vec<u8>>, AllocError> {
    if files.is_empty() {
        return Ok(None);
    }
    let walked = walk(alloc, Version::BOUNDS, files, 0)?;
    match missing(&walked) {
        Some(path) => Ok(Some(Vec::from_slice(alloc, path)?)),
        None => Ok(None),
    }
}

/// Returns the file at the path, if there is one, with all that it includes.
fn files_of(
    rt: &HostRuntime,
    reader: &Reader<'_>,
    path: &[u8],
) -> Result<Vec<FileRead>, AllocError> {
    let mut files = Vec::new(rt.alloc());
    if !add_file(rt, reader, &mut files, path)? {
        return Ok(files);
    }
    for _ in 0..10_000 {
        let Some(path) = missing_path(rt.alloc(), &files)? else {
            return Ok(files);
        };
        if !add_file(rt, reader, &mut files, &path)? {
            return Ok(files);
        }
    }
    Ok(files)
}

/// Prints what became of a line.
fn print_fate(rt: &HostRuntime, told: &[Told<'_>], one: &Told<'_>, fate: Fate) -> io::Result<()> {
    print!(rt; "{} {} ", one.file, one.line)?;
    match (one.what, fate) {
        (What::Includes(_), _) => println!(rt; "include"),
        (What::LeftOut(cause), _) => println!(rt; "left out: {}", cause.words()),
        (_, Fate::Taken) => println!(rt; "taken"),
        (_, Fate::Full) => println!(rt; "left out: the table is full"),
        (_, Fate::Overridden(by)) => match told.get(by) {
            Some(by) => println!(rt; "overridden {} {}", by.file, by.line),
            None => println!(rt; "overridden"),
        },
        (_, Fate::Behind(by)) => match told.get(by) {
            Some(by) => println!(rt; "behind {} {}", by.file, by.line),
            None => println!(rt; "behind"),
        },
    }
}

/// Prints a sequence and its text.
fn print_row(rt: &HostRuntime, one: &Told<'_>) -> io::Result<()> {
    let What::Defines(definition) = one.what else {
        return Ok(());
    };
    print!(rt; "seq")?;
    for key in &definition.keys {
        print!(rt; " {key:x}")?;
    }
    print!(rt; " = ")?;
    for byte in &definition.text {
        print!(rt; "{byte:02x}")?;
    }
    println!(rt)
}

/// Prints what a reader makes of a table.
fn print_table(rt: &HostRuntime, most_nodes: usize, walked: &Walked<'_>) -> io::Result<()> {
    let told = walked.told.as_slice();
    let fates = fates(rt.alloc(), most_nodes, told)?;
    for (one, fate) in told.iter().zip(&fates) {
        print_fate(rt, told, one, *fate)?;
    }
    if let Some(refusal) = walked.refusal {
        return println!(rt; "refused: {}", refusal.words());
    }
    for (one, fate) in told.iter().zip(&fates) {
        if *fate == Fate::Taken {
            print_row(rt, one)?;
        }
    }
    println!(rt; "end")
}

/// Prints what the reader makes of the table at the path.
fn print_file(rt: &HostRuntime, reader: &Reader<'_>, path: &str) -> io::Result<()> {
    println!(rt; "table")?;
    let files = files_of(rt, reader, path.as_bytes())?;
    if files.is_empty() {
        return println!(rt; "refused: the file can't be read");
    }
    let walked = walk(rt.alloc(), Version::BOUNDS, &files, 0)?;
    print_table(rt, reader.version.most_nodes(), &walked)
}

/// Prints what the reader makes of each table whose path stands in the input.
fn run(rt: &HostRuntime, words: &[&str]) -> io::Result<()> {
    let [version, home, system, locale, list] = words else {
        return println!(rt; "usage: compose_as_reader VERSION HOME SYSTEM LOCALE LIST");
    };
    let Some(version) = version_named(version) else {
        return println!(rt; "no such version");
    };
    let names = Names::built_in();
    let meanings = Meanings {
        home: Some(home.as_bytes()),
        locale: Some(locale.as_bytes()),
        system: system.as_bytes(),
    };
    let reader = Reader {
        version,
        names: &names,
        meanings,
    };
    let list = std::fs::read_to_string(rt, list)?;
    for path in list.lines() {
        print_file(rt, &reader, path)?;
    }
    Ok(())
}

fn main(rt: HostRuntime) -> io::Result<()> {
    let arguments = std::env::args(&rt)?
        .skip(1)
        .collect::<Vec<String>>(rt.alloc())?;
    let words = arguments
        .iter()
        .map(|word| word.as_str())
        .collect::<Vec<&str>>(rt.alloc())?;
    run(&rt, &words)
}
