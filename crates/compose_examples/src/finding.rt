//! The tables that are found among worked files, with the bytes of their sources.
use crate::helpers::{expect_text, push_sources};
use compose_find::{Files, FindFault, FoundSource, FoundTable, Meanings, find_sources};
use std::alloc::{AllocError, Global};
use std::fmt::Write;
use std::process::Abort;

/// The lines of the root `r/t`, and what is printed: the name, the path and the depth of each
/// source, and then the name and the bytes of each. Beside the root is the file `r/n`, and the
/// folder `%S` has the file `/s/m`.
struct FoundRow {
    root: &'static str,
    prints: &'static str,
}

#[rattlefmt::skip]
static FOUND: [FoundRow; 5] = [
    FoundRow { root: "<c>", prints: "r/t r/t 0\nr/t=<c>\n" },
    FoundRow { root: "include \"n\"", prints: "r/t r/t 0\nn r/n 1\nr/t=include \"n\"\nn=<b>\n" },
    FoundRow { root: "include \"%S/m\"\ninclude \"/s/m\"", prints: "r/t r/t 0\n%S/m /s/m 1\n/s/m /s/m 1\nr/t=include \"%S/m\"\ninclude \"/s/m\"\n%S/m=<a>\n/s/m=<a>\n" },
    FoundRow { root: "include \"n\"\ninclude \"/s/m\"\ninclude \"r/n\"\ninclude \"%S/m\"\ninclude \"n\"", prints: "r/t r/t 0\nn r/n 1\n/s/m /s/m 1\nr/n r/n 1\n%S/m /s/m 1\nr/t=include \"n\"\ninclude \"/s/m\"\ninclude \"r/n\"\ninclude \"%S/m\"\ninclude \"n\"\nn=<b>\n/s/m=<a>\nr/n=<b>\n%S/m=<a>\n" },
    FoundRow { root: "include \"t\"", prints: "r/t r/t 0\nt r/t 1\nr/t=include \"t\"\nt=include \"t\"\n" },
];

/// Adds what is found at a path: a file with this text, or none.
fn add(files: &mut Files, alloc: Global, path: &str, text: Option<&str>) -> Result<(), AllocError> {
    let bytes = match text {
        Some(text) => Some(Vec::from_slice(alloc, text.as_bytes())?),
        None => None,
    };
    files.add(alloc, path, bytes)
}

/// Returns the worked files, with these lines of the root.
fn worked_files(alloc: Global, root: &str) -> Result<Files, AllocError> {
    let mut files = Files::new(alloc);
    add(&mut files, alloc, "n", None)?;
    add(&mut files, alloc, "t", None)?;
    add(&mut files, alloc, "r/n", Some("<b>"))?;
    add(&mut files, alloc, "r/t", Some(root))?;
    add(&mut files, alloc, "/s/m", Some("<a>"))?;
    Ok(files)
}

/// Returns the table that is found from the root with these lines.
fn worked_table(alloc: Global, root: &str) -> Result<FoundTable, FindFault> {
    let meanings = Meanings {
        system: "/s",
        locale: None,
        home: None,
        root: None,
    };
    let files = worked_files(alloc, root)?;
    let found = find_sources(alloc, &files, meanings, "r/t")?;
    Ok(FoundTable::new(alloc, files, found)?)
}

/// Prints the name, the path and the depth of each source.
fn push_files(text: &mut String, files: &[FoundSource]) -> Result<(), AllocError> {
    for file in files {
        let (name, path, depth) = (file.name.as_str(), file.path.as_str(), file.depth);
        write!(text, "{name} {path} {depth}\n")?;
    }
    Ok(())
}

/// Expects the printed table of a row.
fn expect_table(rt: &impl Abort, alloc: Global, row: &FoundRow) -> Result<(), FindFault> {
    let table = worked_table(alloc, row.root)?;
    let mut text = String::new(alloc);
    push_files(&mut text, &table.files)?;
    push_sources(&mut text, &table.sources)?;
    expect_text(rt, row.root, &text, row.prints);
    Ok(())
}

#[test]
fn tables_of_worked_files(rt: HostRuntime) -> Result<(), FindFault> {
    for row in &FOUND {
        expect_table(&rt, rt.alloc(), row)?;
    }
    Ok(())
}
