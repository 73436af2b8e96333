//! The messages about the faults of worked tables and of other files, and their places.
use crate::tables::core;
use compose_cert::{CertFault, RepertoireFault};
use compose_lex::LexFault;
use compose_manifest::ManifestFault;
use compose_messages::{
    CharacterHint, FaultWords, FileMessage, Hint, LocaleHint, Message, Position, certificate_hint,
    certificate_words, fault_position, header_hint, include_hint, key_of_text, manifest_hint,
    manifest_words, name_hint, name_words, open_words, overlap_words, read_message,
    repertoire_hint, repertoire_words, socket_words, source_not_utf8, source_words, table_hint,
    text_in_place,
};
use compose_read::{ReadFault, SourceFault, Sources, read_definitions};
use compose_tree::{BuildFault, TableFault};
use keysym_core::{Keysym, NameFault, Names};
use std::alloc::{AllocError, Global};
use std::io;
use std::process::Abort;
use std::test::Fail;

/// The root's lines, those of the source `%L`, and what is printed for the first fault, if the path
/// of a source is its name.
#[rattlefmt::skip]
static FAULTY: [(&str, &str, &str); 38] = [
    ("<a> 5 : \"x\"", "", "r:1:5: expected \":\" or \"<\", found \"5\""),
    ("<a>\r\n", "", "r:1:5: expected \":\" or \"<\", found the end of the line"),
    ("<a> \t# é", "", "r:1:6: expected \":\" or \"<\", found \"#\""),
    ("<a>\u{1b}", "", "r:1:4: expected \":\" or \"<\", found \"\\u{1b}\""),
    ("é<a> : \"x\"", "", "r:1:1: expected \"<\" or the word include, found \"é\""),
    ("\u{feff}5<a> : \"x\"", "", "r:1:1: expected \"<\" or the word include, found \"5\""),
    ("<é> : \"x\"", "", "r:1:2: expected the name of a keysym, found \"é\""),
    ("<a é> : \"x\"", "", "r:1:4: expected \">\", found \"é\""),
    ("<a> : é", "", "r:1:7: expected a string or the name of a keysym, found \"é\""),
    ("<a> : \"éé\" é", "", "r:1:12: expected the name of a keysym or the end of the line, found \"é\""),
    ("<a> : \"é\" b c", "", "r:1:13: expected the end of the line, found \"c\""),
    ("include \"<\" y", "", "r:1:13: expected the end of the line, found \"y\""),
    ("<a> : b c_1 d", "", "r:1:9: expected the end of the line, found \"c_1\""),
    ("include %L", "", "r:1:9: expected a string, found \"%\""),
    ("include", "", "r:1:8: expected a string, found the end of the line"),
    ("<a> : \"x\"\r\n\r\nCtrl<a> : \"x\"\r\n", "", "r:3:1: a modifier list stands here, which is not supported"),
    ("<a> ~<b> : \"x\"", "", "r:1:5: a modifier list stands here, which is not supported"),
    ("includ \"%L\"", "", "r:1:1: expected \"<\" or the word include, found \"includ\""),
    ("<a> Meta_L : \"x\"", "", "r:1:5: expected \":\" or \"<\", found \"Meta_L\""),
    ("<a> : \"é", "", "r:1:7: the string is not closed"),
    ("<a> : \"é\\q\"", "", "r:1:9: the backslash begins no escape"),
    ("<U00E9> : \"ab\\400\"", "", "r:1:14: the code is that of no byte from 1 to 255"),
    ("<a> :", "", "r:1:5: neither a string nor the name of a keysym follows the colon"),
    ("<a><a><a><a><a><a><a><a><a><a><a><a><a><a><a><a><a><a><a><a><a><a><a><a><a><a><a><a><a><a><a><a> <a> : \"x\"", "", "r:1:98: a sequence has at most 32 keysyms"),
    ("<a> : \"\"", "", "r:1:7: the string is empty"),
    ("<a> : \"\\377\"", "", "r:1:7: the string is not UTF-8"),
    ("<Multi_key> <nosuch> : \"x\"", "", "r:1:13: no keysym has the name \"nosuch\""),
    ("<a> : \"é\" nosuch # é", "", "r:1:11: no keysym has the name \"nosuch\""),
    ("<a> :  nosuch", "", "r:1:8: no keysym has the name \"nosuch\""),
    ("\u{feff}<nosuch> : \"x\"\r\n", "", "r:1:1: no keysym has the name \"nosuch\""),
    ("<a> <Shift_L> : \"x\"", "", "r:1:5: a sequence can't have an ignored keysym, as \"Shift_L\""),
    ("include \"%H/\u{202e}\"", "", "r:1:9: the manifest does not list the included file \"%H/\\u{202e}\""),
    ("include \"r\"", "", "r:1:9: the includes go in a circle: this file includes itself, as \"r\""),
    ("include \"%L\"", "include \"r\"", "r:1:9: the includes go in a circle: more than eight lead to the file \"%L\""),
    ("\n\n\n\n\n\n\n\n\n\n\n\n\n\n\n\n\n\n\n\n <b> <nosuch> : \"x\"\n\n", "", "r:21:6: no keysym has the name \"nosuch\""),
    ("<a> : \"x\"\n<nosuch> : \"x\"", "", "r:2:1: no keysym has the name \"nosuch\""),
    ("<a> : \"x\"\ninclude \"%L\"\n<b>", "\u{feff}# é\r\n<b> : \"é\" nosuch\r\n", "%L:2:11: no keysym has the name \"nosuch\""),
    ("<a> : \"x\"\n", "", "-: no fault"),
];

/// Returns the sources `r` and `%L`.
fn two_sources(alloc: Global, root: &[u8], included: &str) -> Result<Sources<'static>, Fail> {
    let mut sources = Sources::new(alloc);
    sources.add("r", Vec::from_slice(alloc, root)?)?;
    sources.add("%L", Vec::from_slice(alloc, included.as_bytes())?)?;
    Ok(sources)
}

/// Returns the first fault when reading from the root, if there is one.
fn first_fault(alloc: Global, names: &Names, sources: &Sources) -> Option<ReadFault> {
    match read_definitions(alloc, names, sources, "r") {
        Ok(_) => None,
        Err(fault) => Some(fault),
    }
}

/// Returns the name of a fault's source, or a hyphen, and its position there.
fn stands<'a>(sources: &'a Sources, fault: &ReadFault) -> (&'a str, Option<Position>) {
    match fault_position(sources, fault) {
        Some((source, position)) => (sources.name(source).unwrap_or("-"), Some(position)),
        None => ("-", None),
    }
}

/// Returns the printed fault, without the program's name.
fn printed_fault(
    alloc: Global,
    sources: &Sources,
    fault: &ReadFault,
) -> Result<String, AllocError> {
    let (path, position) = stands(sources, fault);
    let reported = FileMessage {
        path,
        position,
        message: read_message(sources, fault),
    };
    let text = format!(in alloc; "{reported}")?;
    String::from_str(alloc, text.strip_prefix("composecheck: ").unwrap_or("?"))
}

/// Returns the printed text of the first fault.
fn printed_first(alloc: Global, names: &Names, sources: &Sources) -> Result<String, AllocError> {
    match first_fault(alloc, names, sources) {
        Some(fault) => printed_fault(alloc, sources, &fault),
        None => String::from_str(alloc, "-: no fault"),
    }
}

fn check_faulty(rt: &impl Abort, alloc: Global, names: &Names) -> Result<(), Fail> {
    for (root, included, expected) in &FAULTY {
        let sources = two_sources(alloc, root.as_bytes(), included)?;
        let text = printed_first(alloc, names, &sources)?;
        assert_eq!(rt; text.as_str(), *expected);
    }
    Ok(())
}

#[test]
fn faults_of_tables(rt: HostRuntime) -> Result<(), Fail> {
    let names = core(rt.alloc())?;
    check_faulty(&rt, rt.alloc(), &names)
}

/// Returns the printed text of the first fault of this root.
fn printed_root(alloc: Global, names: &Names, root: &[u8]) -> Result<String, Fail> {
    let sources = two_sources(alloc, root, "")?;
    Ok(printed_first(alloc, names, &sources)?)
}

#[test]
fn fault_of_bytes(rt: HostRuntime) -> Result<(), Fail> {
    let names = core(rt.alloc())?;
    let text = printed_root(rt.alloc(), &names, b"\n<a> : \"\xc3\xa9\xff\" # none\n")?;
    assert_eq!(rt; text.as_str(), "r:2:9: the line is not UTF-8");
    Ok(())
}

/// Returns the printed text for a string of this number of blanks.
fn printed_string(alloc: Global, names: &Names, blanks: usize) -> Result<String, Fail> {
    let mut line = String::from_str(alloc, "<a>: \"")?;
    for _ in 0..blanks {
        line.push(' ')?;
    }
    line.push('"')?;
    printed_root(alloc, names, line.as_bytes())
}

#[test]
fn faults_of_long_strings(rt: HostRuntime) -> Result<(), Fail> {
    let names = core(rt.alloc())?;
    let longest = printed_string(rt.alloc(), &names, 255)?;
    assert_eq!(rt; longest.as_str(), "-: no fault");
    let longer = printed_string(rt.alloc(), &names, 256)?;
    assert_eq!(rt;
        longer.as_str(),
        "r:1:6: the string has more than 255 bytes"
    );
    Ok(())
}

/// Expects the printed text of a fault.
fn expect_printed_fault(
    rt: &impl Abort,
    alloc: Global,
    sources: &Sources,
    fault: &ReadFault,
    expected: &str,
) -> Result<(), Fail> {
    let text = printed_fault(alloc, sources, fault)?;
    assert_eq!(rt; text.as_str(), expected);
    Ok(())
}

#[test]
fn faults_of_sizes(rt: HostRuntime) -> Result<(), Fail> {
    let alloc = rt.alloc();
    let sources = two_sources(alloc, b"", "\n<a> : \"x\"\n")?;
    let (source, line) = (1, 2);
    let lines = ReadFault::TooManyLines { source, line };
    expect_printed_fault(
        &rt,
        alloc,
        &sources,
        &lines,
        "%L:2:1: more than 1,000,000 lines are read",
    )?;
    let definitions = ReadFault::TooManyDefinitions { source, line };
    expect_printed_fault(
        &rt,
        alloc,
        &sources,
        &definitions,
        "%L:2:1: more than 100,000 sequences are defined",
    )?;
    let missing = ReadFault::MissingRoot;
    expect_printed_fault(
        &rt,
        alloc,
        &sources,
        &missing,
        "-: the manifest lists no file",
    )?;
    expect_printed_fault(
        &rt,
        alloc,
        &sources,
        &ReadFault::NoMemory,
        "-: out of memory",
    )
}

/// Expects the printed text for a file.
fn expect_printed(
    rt: &impl Abort,
    alloc: Global,
    reported: FileMessage<'_>,
    expected: &str,
) -> Result<(), Fail> {
    assert_eq!(rt; format!(in alloc; "{reported}")?.as_str(), expected);
    Ok(())
}

#[test]
fn messages_about_files(rt: HostRuntime) -> Result<(), Fail> {
    let position = Some(Position {
        line: 400,
        column: 17,
    });
    let plain = FileMessage {
        path: "a\u{1b}é",
        position: None,
        message: Message::Plain("no such file"),
    };
    expect_printed(
        &rt,
        rt.alloc(),
        plain,
        "composecheck: a\\u{1b}é: no such file",
    )?;
    let quoting = FileMessage {
        path: "fi_FI.UTF-8/Compose",
        position,
        message: Message::Quoting("no keysym has the name ", "a\n"),
    };
    expect_printed(
        &rt,
        rt.alloc(),
        quoting,
        "composecheck: fi_FI.UTF-8/Compose:400:17: no keysym has the name \"a\\u{a}\"",
    )?;
    let expected = FileMessage {
        path: "t",
        position,
        message: Message::Expected("\">\"", ""),
    };
    expect_printed(
        &rt,
        rt.alloc(),
        expected,
        "composecheck: t:400:17: expected \">\", found the end of the line",
    )
}

/// Returns the line of a fault and its words.
fn parts(words: FaultWords) -> (Option<usize>, &'static str) {
    (words.line, words.words)
}

#[test]
fn words_of_headers_of_names(rt: HostRuntime) -> Result<(), Fail> {
    let line = 3;
    let rows = [
        (
            NameFault::NotUtf8 { line },
            (Some(3), "the line is not UTF-8"),
        ),
        (
            NameFault::BadLine { line },
            (
                Some(3),
                "expected \"#define XK_\", a name, and 0x with one to eight hexadecimal digits",
            ),
        ),
        (
            NameFault::ValueTooLarge { line },
            (
                Some(3),
                "the number is above 0x1fffffff, the greatest keysym",
            ),
        ),
        (
            NameFault::NameConflict { line },
            (Some(3), "the name is that of another keysym already"),
        ),
        (NameFault::TooManyNames, (None, "more than 16,384 names")),
        (NameFault::NoMemory, (None, "out of memory")),
    ];
    for (fault, expected) in &rows {
        assert_eq!(rt; parts(name_words(fault)), *expected);
    }
    Ok(())
}

#[test]
fn words_of_certificates(rt: HostRuntime) -> Result<(), Fail> {
    let rows = [
        (
            CertFault::NotText { line: 1 },
            (
                Some(1),
                "the line is missing, or not of the form of a certificate",
            ),
        ),
        (CertFault::TooLarge, (None, "a count is above 1,048,576")),
        (CertFault::NoMemory, (None, "out of memory")),
    ];
    for (fault, expected) in &rows {
        assert_eq!(rt; parts(certificate_words(fault)), *expected);
    }
    Ok(())
}

#[test]
fn words_of_repertoires(rt: HostRuntime) -> Result<(), Fail> {
    let rows = [
        (
            RepertoireFault::BadLine { line: 21 },
            (
                Some(21),
                "expected a character as U+00E9, or before all characters the word keys and two keysyms as 0x20 0x7e",
            ),
        ),
        (
            RepertoireFault::NotRising { line: 2 },
            (Some(2), "the line is not above the one before it"),
        ),
        (
            RepertoireFault::TooMany,
            (None, "more than 65,536 characters, or ranges of keys"),
        ),
        (RepertoireFault::NoMemory, (None, "out of memory")),
    ];
    for (fault, expected) in &rows {
        assert_eq!(rt; parts(repertoire_words(fault)), *expected);
    }
    Ok(())
}

#[test]
fn words_of_manifests(rt: HostRuntime) -> Result<(), Fail> {
    let rows = [
        (
            ManifestFault::BadLine { line: 4 },
            (
                Some(4),
                "expected a name, a tab and a path, or once before these `overlap longest` or `overlap refuse`",
            ),
        ),
        (ManifestFault::Empty, (None, "the manifest lists no file")),
        (ManifestFault::NoMemory, (None, "out of memory")),
    ];
    for (fault, expected) in &rows {
        assert_eq!(rt; parts(manifest_words(fault)), *expected);
    }
    Ok(())
}

#[test]
fn words_of_files(rt: HostRuntime) -> Result<(), Fail> {
    assert_eq!(rt;
        source_words(SourceFault::NameTaken),
        "two entries have the same name"
    );
    assert_eq!(rt;
        source_words(SourceFault::TooManySources),
        "more than 64 entries"
    );
    assert_eq!(rt; source_words(SourceFault::NoMemory), "out of memory");
    assert_eq!(rt; open_words(io::ErrorKind::NotFound), "no such file");
    assert_eq!(rt;
        open_words(io::ErrorKind::PermissionDenied),
        "permission denied"
    );
    assert_eq!(rt; open_words(io::ErrorKind::IsADirectory), "is a directory");
    assert_eq!(rt; open_words(io::ErrorKind::Interrupted), "can't be read");
    Ok(())
}

#[test]
fn words_of_sockets(rt: HostRuntime) {
    let rows = [
        (io::ErrorKind::NotFound, "no such file"),
        (io::ErrorKind::PermissionDenied, "permission denied"),
        (io::ErrorKind::ConnectionRefused, "nobody listens there"),
        (io::ErrorKind::AlreadyExists, "a file is there already"),
        (
            io::ErrorKind::InvalidInput,
            "the path is too long for a socket",
        ),
        (io::ErrorKind::NotSeekable, "can't be used as a socket"),
    ];
    for (kind, words) in &rows {
        assert_eq!(rt; socket_words(*kind), *words);
    }
}

#[test]
fn words_of_an_overlap(rt: HostRuntime) -> Result<(), Fail> {
    let names = core(rt.alloc())?;
    let multi = Keysym::new(0xff20).ok_or("a keysym")?;
    let letter = Keysym::new(0x65).ok_or("a keysym")?;
    let unnamed = Keysym::new(0x1000101).ok_or("a keysym")?;
    let text = overlap_words(rt.alloc(), &names, &[multi], &[multi, letter, unnamed])?;
    assert_eq!(rt;
        text.as_str(),
        "the sequence <Multi_key> is a prefix of the sequence <Multi_key> <e> <U0101>"
    );
    Ok(())
}

#[test]
fn hints_of_tables(rt: HostRuntime) -> Result<(), Fail> {
    let sources = two_sources(
        rt.alloc(),
        b"<a> <multi_key> : \"x\"\n<a> : \"x\" other",
        "",
    )?;
    let unknown = |line, index| {
        TableFault::Read(ReadFault::UnknownKeysym {
            source: 0,
            line,
            index,
        })
    };
    assert_eq!(rt;
        table_hint(&sources, &unknown(1, 1), true),
        Some(Hint::ComposeKey)
    );
    assert_eq!(rt;
        table_hint(&sources, &unknown(2, 1), false),
        Some(Hint::BuiltinNames)
    );
    assert_eq!(rt;
        table_hint(&sources, &unknown(2, 1), true),
        Some(Hint::OwnNames)
    );
    let large = TableFault::Build(BuildFault::TooManyNodes);
    assert_eq!(rt; table_hint(&sources, &large, false), None);
    Ok(())
}

#[test]
fn hints_of_encodings(rt: HostRuntime) -> Result<(), Fail> {
    let rows: [(&[u8], Hint); 4] = [
        (b"<a> : \"\xe9\"", Hint::Encoding),
        (b"\xff\xfe<\x00a\x00>\x00", Hint::Utf16),
        (b"\xfe\xff\x00<\x00a\x00>", Hint::Utf16),
        (b"\xff", Hint::Encoding),
    ];
    for (root, expected) in &rows {
        let sources = two_sources(rt.alloc(), root, "")?;
        let fault = TableFault::Read(ReadFault::NotUtf8 { source: 0, line: 1 });
        assert_eq!(rt; table_hint(&sources, &fault, true), Some(*expected));
    }
    Ok(())
}

#[test]
fn hints_of_files_of_another_kind(rt: HostRuntime) -> Result<(), Fail> {
    let rows: [(&[u8], Option<Hint>); 9] = [
        (b"compose-certificate 2", Some(Hint::Certificate)),
        (b"U+00E9", Some(Hint::Repertoire)),
        (b"keys 0x20 0x7e", Some(Hint::Repertoire)),
        (b"%L\ttables/en_US", Some(Hint::Manifest)),
        (b"root tables/en_US", None),
        (b"Ctrl\t<a> : \"x\"", None),
        (b"include\t%L", None),
        (b"<a>\tb", None),
        (b"\t%", None),
    ];
    let names = core(rt.alloc())?;
    for (root, expected) in &rows {
        let sources = two_sources(rt.alloc(), root, "")?;
        let fault = first_fault(rt.alloc(), &names, &sources).unwrap_or(ReadFault::MissingRoot);
        assert_eq!(rt;
            table_hint(&sources, &TableFault::Read(fault), true),
            *expected
        );
    }
    Ok(())
}

#[test]
fn hints_of_names(rt: HostRuntime) {
    let rows = [
        ("UE9", Hint::UnicodeName),
        ("U2dd", Hint::UnicodeName),
        ("U", Hint::OwnNames),
        ("U00E9", Hint::OwnNames),
        ("u2dd", Hint::OwnNames),
        ("Ugg", Hint::OwnNames),
        ("Compose", Hint::ComposeKey),
        ("multi_key", Hint::ComposeKey),
        ("Multi_kei", Hint::OwnNames),
        ("", Hint::OwnNames),
    ];
    for (name, expected) in &rows {
        assert_eq!(rt; name_hint(name, true), *expected);
    }
    assert_eq!(rt; name_hint("Multi_kei", false), Hint::BuiltinNames);
}

#[test]
fn hints_of_headers_and_includes(rt: HostRuntime) {
    assert_eq!(rt;
        header_hint(&NameFault::NotUtf8 { line: 3 }),
        Some(Hint::NamesEncoding)
    );
    assert_eq!(rt; header_hint(&NameFault::BadLine { line: 3 }), None);
    assert_eq!(rt; include_hint("~/.XCompose"), Some(Hint::HomeFolder));
    assert_eq!(rt; include_hint("~user/.XCompose"), None);
    assert_eq!(rt; include_hint("/~/x"), None);
    assert_eq!(rt; include_hint("~"), None);
}

#[test]
fn hints_of_certificates(rt: HostRuntime) {
    let rows: [(&[u8], Option<Hint>); 4] = [
        (b"# a table\n\n<a> : \"x\"\n", Some(Hint::NoCertificate)),
        (b"include \"%L\"", Some(Hint::NoCertificate)),
        (b"compose-certificate 1\nx\n", None),
        (b"", None),
    ];
    for (bytes, expected) in &rows {
        let fault = CertFault::NotText { line: 1 };
        assert_eq!(rt; certificate_hint(bytes, &fault), *expected);
        assert_eq!(rt; certificate_hint(bytes, &CertFault::TooLarge), None);
    }
}

#[test]
fn hints_of_repertoires(rt: HostRuntime) {
    let rows: [(&[u8], Option<Hint>); 4] = [
        (b"# a table\n\n<a> : \"x\"\n", Some(Hint::NoRepertoire)),
        (b"include \"%L\"", Some(Hint::NoRepertoire)),
        (b"U+00E9\nx\n", None),
        (b"", None),
    ];
    for (bytes, expected) in &rows {
        let fault = RepertoireFault::BadLine { line: 1 };
        assert_eq!(rt; repertoire_hint(bytes, &fault), *expected);
        assert_eq!(rt; repertoire_hint(bytes, &RepertoireFault::TooMany), None);
    }
}

#[test]
fn hints_of_locales(rt: HostRuntime) -> Result<(), Fail> {
    let hint = LocaleHint("de_DE\u{1b}");
    let printed = format!(in rt.alloc(); "{hint}")?;
    assert_eq!(rt;
        printed.as_str(),
        "composecheck: hint: this is the table of the locale de_DE\\u{1b}; `--locale en_US.UTF-8` takes that of another one"
    );
    Ok(())
}

#[test]
fn sources_that_are_not_utf8(rt: HostRuntime) {
    let (source, line) = (3, 7);
    let bytes = TableFault::Read(ReadFault::NotUtf8 { source, line });
    assert_eq!(rt; source_not_utf8(&bytes), Some(3));
    let lexed = |fault| {
        TableFault::Read(ReadFault::Lex {
            source,
            line,
            fault,
        })
    };
    assert_eq!(rt; source_not_utf8(&lexed(LexFault::TextNotUtf8)), Some(3));
    assert_eq!(rt; source_not_utf8(&lexed(LexFault::EmptyText)), None);
    let unknown = TableFault::Read(ReadFault::MissingInclude { source, line });
    assert_eq!(rt; source_not_utf8(&unknown), None);
    assert_eq!(rt; source_not_utf8(&TableFault::NoMemory), None);
}

#[test]
fn texts_in_the_place_of_names(rt: HostRuntime) -> Result<(), Fail> {
    let rows: [(&[u8], &str); 9] = [
        ("<a> <é> : \"x\"".as_bytes(), "é"),
        (b"<a> </> : \"x\"", "/"),
        (b"< /> : \"x\"", "/"),
        (b"</ > : \"x\"", "/ "),
        ("<éa> : \"x\"".as_bytes(), "éa"),
        ("<é".as_bytes(), "é"),
        (b"<nosuch> : \"x\"", "nosuch"),
        ("<a> é".as_bytes(), ""),
        ("<a> : é".as_bytes(), ""),
    ];
    let names = core(rt.alloc())?;
    for (root, expected) in &rows {
        let sources = two_sources(rt.alloc(), root, "")?;
        let fault = first_fault(rt.alloc(), &names, &sources).unwrap_or(ReadFault::MissingRoot);
        assert_eq!(rt;
            text_in_place(&sources, &TableFault::Read(fault)),
            *expected
        );
    }
    Ok(())
}

#[test]
fn keys_of_texts(rt: HostRuntime) -> Result<(), Fail> {
    let names = core(rt.alloc())?;
    let rows = [
        ("é", Some(0xe9)),
        ("/", Some(0x2f)),
        ("б", Some(0x0100_0431)),
        ("", None),
        ("éé", None),
        ("\u{1b}", None),
    ];
    for (text, expected) in &rows {
        let found = key_of_text(&names, text).map(|keysym| keysym.value());
        assert_eq!(rt; found, *expected, "{text}");
    }
    let hint = CharacterHint("eacute");
    assert_eq!(rt;
        format!(in rt.alloc(); "{hint}")?.as_str(),
        "composecheck: hint: the key of this character is eacute"
    );
    Ok(())
}

#[test]
fn names_of_80_characters(rt: HostRuntime) -> Result<(), Fail> {
    let (tens, rest) = ("é234567890", "12");
    let long = format!(in rt.alloc(); "{tens}{tens}{tens}{tens}{tens}{tens}{tens}{tens}{rest}")?;
    let whole = format!(in rt.alloc(); "{tens}{tens}{tens}{tens}{tens}{tens}{tens}{tens}")?;
    let content = Message::Naming("no ", &long);
    assert_eq!(rt;
        format!(in rt.alloc(); "{content}")?.as_str(),
        format!(in rt.alloc(); "no \"{whole}\"...")?.as_str()
    );
    let content = Message::Naming("no ", &whole);
    assert_eq!(rt;
        format!(in rt.alloc(); "{content}")?.as_str(),
        format!(in rt.alloc(); "no \"{whole}\"")?.as_str()
    );
    Ok(())
}

#[test]
fn hints_of_manifests(rt: HostRuntime) -> Result<(), Fail> {
    let rows: [(&str, &[u8], usize, Option<Hint>); 9] = [
        ("en_US.UTF-8/Compose", b"", 1, Some(Hint::Table)),
        ("Compose/t", b"", 1, None),
        ("t", b"r\tx\n<a> : \"x\"\n", 2, Some(Hint::Table)),
        ("t", b"r\tx\n<a> : \"x\"\n", 1, None),
        ("t", b"r\tx\n<a> : \"x\"\n", 3, None),
        ("t", b"include \"%L\"\r\n", 1, Some(Hint::Table)),
        ("t", b"<a> \"x\"", 1, None),
        ("t", b"# a table", 1, None),
        ("t", b"<a> : \"x\" # \xe9", 1, None),
    ];
    for (path, bytes, line, expected) in &rows {
        let fault = ManifestFault::BadLine { line: *line };
        assert_eq!(rt; manifest_hint(path, bytes, &fault), *expected);
    }
    assert_eq!(rt;
        manifest_hint("Compose", b"<a> : \"x\"", &ManifestFault::Empty),
        None
    );
    Ok(())
}

#[test]
fn texts_of_hints(rt: HostRuntime) -> Result<(), Fail> {
    let rows = [
        (
            Hint::BuiltinNames,
            "composecheck: hint: `--names builtin` has the names of keysymdef.h",
        ),
        (
            Hint::OwnNames,
            "composecheck: hint: `--names builtin --names FILE` adds the names of a header of your own",
        ),
        (
            Hint::UnicodeName,
            "composecheck: hint: four to six hexadecimal digits follow the U, as in U00E9",
        ),
        (
            Hint::ComposeKey,
            "composecheck: hint: the Compose key is Multi_key",
        ),
        (
            Hint::Encoding,
            "composecheck: hint: a Compose file is in UTF-8; `iconv -f ENCODING -t UTF-8` converts another one",
        ),
        (
            Hint::Utf16,
            "composecheck: hint: the file is in UTF-16; `iconv -f UTF-16 -t UTF-8` converts it",
        ),
        (
            Hint::Certificate,
            "composecheck: hint: this is a certificate, and no Compose file",
        ),
        (
            Hint::Repertoire,
            "composecheck: hint: this is a repertoire, and no Compose file",
        ),
        (
            Hint::Manifest,
            "composecheck: hint: this is a manifest, which lists Compose files, and none itself",
        ),
        (
            Hint::OverlapLongest,
            "composecheck: hint: with the line `overlap longest` before the entries of the manifest, or `diff --overlap longest`, the longer sequence counts",
        ),
        (
            Hint::Fresh,
            "composecheck: hint: `--fresh` takes the keysyms for which nothing has to be promised",
        ),
        (
            Hint::Table,
            "composecheck: hint: this is a Compose file: use --files, or the manifest that `composecheck manifest FILE` prints",
        ),
        (
            Hint::NoCertificate,
            "composecheck: hint: this is a Compose file, and no certificate",
        ),
        (
            Hint::NamesEncoding,
            "composecheck: hint: a header of names is in UTF-8; `iconv -f ENCODING -t UTF-8` converts another one",
        ),
        (
            Hint::HomeFolder,
            "composecheck: hint: an include says the home folder as %H, and not as ~",
        ),
    ];
    for (hint, text) in &rows {
        assert_eq!(rt; format!(in rt.alloc(); "{hint}")?.as_str(), *text);
    }
    Ok(())
}
