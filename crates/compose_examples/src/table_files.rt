//! The file of the table in use: what is read is what was written.
use compose_model::Rule;
use compose_read::{SourceFault, Sources};
use compose_table_file::{
    StoredFault, StoredTable, TableParts, file_path, named_from, plain_path, read_table,
    write_table,
};
use keysym_core::Keysym;
use std::alloc::Global;
use std::process::Abort;
use std::test::Fail;

/// A bundle of the source `r`, which is empty, and a certificate, which is `c`.
const PAYLOAD: &[u8] = &[0, 1, 0, 1, b'r', 0, 0, 0, 0, 0, 0, 0, 1, b'c'];

/// The bytes of a file of form 1 up to the length of a payload of 14 bytes.
const FIRST_FORM: &[u8] = b"\0\x01\0\x1ccomposecheck-table 1 longest\0\0\0\x04keys\0\0\0\x0e";

/// The bytes of a file up to the length of a payload of 14 bytes: a line of names, and the keysym
/// 0xfe61.
const FILE: &[u8] =
    b"\0\x03\0\x1ccomposecheck-table 2 longest\0\0\0\x04keys\0\x05names\0\0\0\x02x\n\0\x05fresh\0\0\0\x04\0\0\xfe\x61\0\0\0\x0e";

/// What is read from a file: the rule, the repertoire, the names, the fresh keysyms and the payload.
type Found<'b> = (Rule, Vec<u8>, Vec<u8>, Vec<Keysym>, &'b [u8]);

/// The same, as it is expected.
type Expected<'b> = (Rule, &'b [u8], &'b [u8], &'b [u32], &'b [u8]);

fn found(alloc: Global, bytes: &[u8]) -> Result<Found<'_>, StoredFault> {
    let StoredTable {
        rule,
        repertoire,
        names,
        fresh,
        payload,
    } = read_table(alloc, bytes)?;
    Ok((rule, repertoire, names, fresh, payload))
}

/// Expects what is read from a file.
fn expect_found(
    rt: &impl Abort,
    alloc: Global,
    bytes: &[u8],
    expected: Result<Expected<'_>, StoredFault>,
) {
    match (found(alloc, bytes), expected) {
        (Ok((rule, repertoire, names, fresh, payload)), Ok(expected)) => {
            assert_eq!(rt; (rule, repertoire.as_slice()), (expected.0, expected.1));
            assert_eq!(rt; (names.as_slice(), payload), (expected.2, expected.4));
            assert_eq!(rt; fresh.len(), expected.3.len());
            for index in 0..fresh.len().min(expected.3.len()) {
                assert_eq!(rt; fresh[index].value(), expected.3[index]);
            }
        }
        (Err(fault), Err(expected)) => assert_eq!(rt; fault, expected),
        _ => panic!(rt; "another kind of result"),
    }
}

/// Writes a file with this rule, which keeps a repertoire, a line of names and a fresh keysym.
fn written(alloc: Global, rule: Rule) -> Result<Vec<u8>, StoredFault> {
    let Some(keysym) = Keysym::new(0xfe61) else {
        return Err(StoredFault::Fresh);
    };
    let parts = TableParts {
        rule,
        repertoire: b"keys",
        names: b"x\n",
        fresh: &[keysym],
        payload: PAYLOAD,
    };
    write_table(alloc, &parts)
}

#[test]
fn a_table_is_written_as_a_bundle(rt: HostRuntime) -> Result<(), Fail> {
    let alloc = rt.alloc();
    let mut expected = Vec::from_slice(alloc, FILE)?;
    expected.extend_from_slice(PAYLOAD)?;
    let Ok(written) = written(alloc, Rule::Longest) else {
        panic!(&rt; "not written");
    };
    assert_eq!(&rt; written.as_slice(), expected.as_slice());
    Ok(())
}

#[test]
fn what_is_written_is_read_again(rt: HostRuntime) -> Result<(), Fail> {
    let alloc = rt.alloc();
    for rule in [Rule::Longest, Rule::Refuse] {
        let Ok(written) = written(alloc, rule) else {
            panic!(&rt; "not written");
        };
        let expected: Expected<'_> = (rule, b"keys", b"x\n", &[0xfe61], PAYLOAD);
        expect_found(&rt, alloc, &written, Ok(expected));
    }
    Ok(())
}

#[test]
fn older_files_are_read(rt: HostRuntime) -> Result<(), Fail> {
    let alloc = rt.alloc();
    let mut first = Vec::from_slice(alloc, FIRST_FORM)?;
    first.extend_from_slice(PAYLOAD)?;
    let of_first: Expected<'_> = (Rule::Longest, b"keys", b"", &[], PAYLOAD);
    expect_found(&rt, alloc, &first, Ok(of_first));
    let alone: Expected<'_> = (Rule::Longest, b"", b"", &[], PAYLOAD);
    expect_found(&rt, alloc, PAYLOAD, Ok(alone));
    expect_found(&rt, alloc, b"x", Err(StoredFault::Form));
    expect_found(&rt, alloc, &[], Err(StoredFault::Form));
    expect_found(&rt, alloc, &PAYLOAD[..13], Err(StoredFault::Form));
    Ok(())
}

/// Returns the file of a table in which the byte at this index is another one.
fn changed(alloc: Global, at: usize, byte: u8) -> Result<Vec<u8>, Fail> {
    let mut bytes = Vec::from_slice(alloc, FILE)?;
    bytes.extend_from_slice(PAYLOAD)?;
    if at < bytes.len() {
        bytes[at] = byte;
    }
    Ok(bytes)
}

#[test]
fn parts_that_are_none_are_named(rt: HostRuntime) -> Result<(), Fail> {
    let alloc = rt.alloc();
    // another name than `names`, and than `fresh`
    expect_found(
        &rt,
        alloc,
        &changed(alloc, 42, b'N')?,
        Err(StoredFault::Parts),
    );
    expect_found(
        &rt,
        alloc,
        &changed(alloc, 55, b'F')?,
        Err(StoredFault::Parts),
    );
    // no keysym
    expect_found(
        &rt,
        alloc,
        &changed(alloc, 64, 0x20)?,
        Err(StoredFault::Fresh),
    );
    // the file is cut off
    let whole = changed(alloc, 0, 0)?;
    for end in 0..whole.len() {
        expect_found(&rt, alloc, &whole[..end], Err(StoredFault::Form));
    }
    Ok(())
}

/// The name of the first source, as it is given, and as it is from the folder `/home/ann`.
const NAMES: [(&str, &str); 3] = [
    (".XCompose", "/home/ann/./.XCompose"),
    ("../Compose", "/home/ann/./../Compose"),
    ("/usr/share/Compose", "/usr/share/Compose"),
];

#[test]
fn the_first_source_is_named_from_a_folder(rt: HostRuntime) -> Result<(), SourceFault> {
    let alloc = rt.alloc();
    for (given, expected) in NAMES {
        let mut sources = Sources::new(alloc);
        sources.add(given, Vec::from_slice(alloc, b"x")?)?;
        sources.add("more", Vec::from_slice(alloc, b"y")?)?;
        let named = named_from(alloc, "/home/ann", &sources)?;
        assert_eq!(&rt; named.count(), 2);
        assert_eq!(&rt;
            (named.name(0), named.name(1)),
            (Some(expected), Some("more"))
        );
        if named.count() == 2 {
            assert_eq!(&rt; (named.bytes(0), named.bytes(1)), (&b"x"[..], &b"y"[..]));
        }
    }
    Ok(())
}

#[test]
fn a_name_that_is_taken_is_refused(rt: HostRuntime) -> Result<(), SourceFault> {
    let alloc = rt.alloc();
    let mut sources = Sources::new(alloc);
    sources.add("x", Vec::new(alloc))?;
    sources.add("/home/./x", Vec::new(alloc))?;
    let named = named_from(alloc, "/home", &sources);
    assert_eq!(&rt; named.err(), Some(SourceFault::NameTaken));
    Ok(())
}

/// The name of the first source, that of a source, and where its file is.
const PLACES: [(&str, &str, Option<&str>); 5] = [
    (
        "/home/ann/./.XCompose",
        "/home/ann/./.XCompose",
        Some("/home/ann/.XCompose"),
    ),
    ("/home/ann/./.XCompose", "more", Some("/home/ann/more")),
    ("/home/ann/./a/./b", "more", Some("/home/ann/more")),
    ("/home/ann/.XCompose", "more", None),
    ("more", "/usr/share/Compose", Some("/usr/share/Compose")),
];

#[test]
fn files_are_found_by_the_first_name(rt: HostRuntime) -> Result<(), Fail> {
    for (root, name, expected) in PLACES {
        let path = file_path(rt.alloc(), root, name)?;
        assert_eq!(&rt; path.as_deref(), expected);
    }
    let plain = plain_path(rt.alloc(), "/home/ann/./a/./b")?;
    assert_eq!(&rt; plain.as_str(), "/home/ann/a/./b");
    Ok(())
}
