//! Worked examples of the names of keysyms.
use crate::helpers::{core, expect_text};
use arrayvec::ArrayVec;
use builtin_names::builtin_names;
use keysym_core::{KeyList, Keysym, NameFault, Names, ShownChar, ShownKeysym};
use std::alloc::{AllocError, Global};
use std::fmt::Write;
use std::ops::Range;
use std::process::Abort;

/// A name or another form of a keysym, and the value of the keysym that it means.
struct ValueRow {
    name: &'static str,
    value: Option<u32>,
}

/// Values of the built-in names.
#[rattlefmt::skip]
static CORE: [ValueRow; 10] = [
    ValueRow { name: "U00E9", value: Some(0xe9) },
    ValueRow { name: "U0101", value: Some(0x0100_0101) },
    ValueRow { name: "U1F600", value: Some(0x0101_f600) },
    ValueRow { name: "0x1fffffff", value: Some(0x1fff_ffff) },
    ValueRow { name: "quoteright", value: Some(0x27) },
    ValueRow { name: "U007F", value: None },
    ValueRow { name: "UD800", value: None },
    ValueRow { name: "U110000", value: None },
    ValueRow { name: "U41", value: None },
    ValueRow { name: "0x20000000", value: None },
];

/// A header, and the values of its names together with the built-in ones.
struct NamesRow {
    header: &'static [u8],
    values: &'static [ValueRow],
}

/// Names of each length, and names that are only similar to one of them; names with the same ends;
/// and the Greek alpha.
#[rattlefmt::skip]
static NAMES: [NamesRow; 3] = [
    NamesRow {
        header: LENGTHS,
        values: &[
            ValueRow { name: "_", value: Some(0x900) },
            ValueRow { name: "_2", value: Some(0x901) },
            ValueRow { name: "_23", value: Some(0x902) },
            ValueRow { name: "_234", value: Some(0x903) },
            ValueRow { name: "_2345", value: Some(0x904) },
            ValueRow { name: "_23456", value: Some(0x905) },
            ValueRow { name: "_234567", value: Some(0x906) },
            ValueRow { name: "_2345678", value: Some(0x907) },
            ValueRow { name: "_23456789", value: Some(0x908) },
            ValueRow { name: "", value: None },
            ValueRow { name: "-", value: None },
            ValueRow { name: "_3", value: None },
            ValueRow { name: "_2_", value: None },
            ValueRow { name: "_2_4", value: None },
            ValueRow { name: "_23_5", value: None },
            ValueRow { name: "_23_56", value: None },
            ValueRow { name: "_23_567", value: None },
            ValueRow { name: "_23__678", value: None },
            ValueRow { name: "_234_6789", value: None },
            ValueRow { name: "space", value: Some(0x20) },
        ],
    },
    NamesRow {
        header: SAME_ENDS,
        values: &[
            ValueRow { name: "beginning_1_the_end", value: Some(0x900) },
            ValueRow { name: "beginning_2_the_end", value: Some(0x901) },
            ValueRow { name: "a1b", value: Some(0x902) },
            ValueRow { name: "a2b", value: Some(0x903) },
            ValueRow { name: "beginning_3_the_end", value: None },
            ValueRow { name: "beginning_the_end", value: None },
            ValueRow { name: "a3b", value: None },
            ValueRow { name: "ab", value: None },
            ValueRow { name: "space", value: Some(0x20) },
        ],
    },
    NamesRow {
        header: ALPHA,
        values: &[ValueRow { name: "Greek_alpha", value: Some(0x7e1) }],
    },
];

const LENGTHS: &[u8] =
    b"#define XK__ 0x900\n#define XK__2 0x901\n#define XK__23 0x902\n#define XK__234 0x903\n#define XK__2345 0x904\n#define XK__23456 0x905\n#define XK__234567 0x906\n#define XK__2345678 0x907\n#define XK__23456789 0x908\n";

const SAME_ENDS: &[u8] =
    b"#define XK_beginning_1_the_end 0x900\n#define XK_beginning_2_the_end 0x901\n#define XK_a1b 0x902\n#define XK_a2b 0x903\n";

const ALPHA: &[u8] = b"#define XK_Greek_alpha 0x07e1  /* U+03B1 GREEK SMALL LETTER ALPHA */";

/// A character, the keysym after which the next one with the character is looked for, and the value
/// of that one.
struct NextRow {
    character: char,
    after: u32,
    next: Option<u32>,
}

#[rattlefmt::skip]
static NEXT: [NextRow; 4] = [
    NextRow { character: 'α', after: u32::MAX, next: Some(0x7e1) },
    NextRow { character: 'α', after: 0x7e1, next: Some(0x0100_03b1) },
    NextRow { character: 'α', after: 0x0100_03b1, next: None },
    NextRow { character: '5', after: 0x35, next: Some(0xffb5) },
];

/// A header, and its printed fault, or `accepted`.
struct HeaderRow {
    header: &'static [u8],
    prints: &'static str,
}

#[rattlefmt::skip]
static HEADERS: [HeaderRow; 7] = [
    HeaderRow { header: b"x\n\xe9\n", prints: "1 NotUtf8 line=2" },
    HeaderRow { header: b"#define XK_odd 12", prints: "2 BadLine line=1" },
    HeaderRow { header: b"\n\n#define XK_ 0x5\n", prints: "2 BadLine line=3" },
    HeaderRow { header: b"#define XK_big 0x20000000", prints: "3 ValueTooLarge line=1" },
    HeaderRow { header: b"#define XK_space 0x0021", prints: "4 NameConflict line=1" },
    HeaderRow { header: b"#define XK_U0101 0x5", prints: "4 NameConflict line=1" },
    HeaderRow { header: b"#define XK_space 0x0020", prints: "accepted" },
];

/// A keysym, and its printed form.
struct PrintedRow {
    number: u32,
    prints: &'static str,
}

#[rattlefmt::skip]
static PRINTED: [PrintedRow; 6] = [
    PrintedRow { number: 0x20, prints: "space" },
    PrintedRow { number: 0x27, prints: "apostrophe" },
    PrintedRow { number: 0x0100_0101, prints: "U0101" },
    PrintedRow { number: 0x0100_d800, prints: "0x100d800" },
    PrintedRow { number: 0xfe03, prints: "0xfe03" },
    PrintedRow { number: 0, prints: "NoSymbol" },
];

fn keysym(number: u32) -> Keysym {
    Keysym::new(number).unwrap_or_default()
}

/// Returns the value of a keysym, if there is one.
fn number_of(keysym: Option<Keysym>) -> Option<u32> {
    match keysym {
        Some(keysym) => Some(keysym.value()),
        None => None,
    }
}

fn read(alloc: Global, header: &[u8]) -> Result<Names, NameFault> {
    Names::read(alloc, header)
}

fn value_of(names: &Names, name: &str) -> Option<u32> {
    number_of(names.lookup(name))
}

fn next_value(names: &Names, row: &NextRow) -> Option<u32> {
    number_of(names.next_of(row.character, Keysym::new(row.after)))
}

fn text_of(names: &Names, number: u32) -> Option<char> {
    names.text_of(keysym(number))
}

fn printed(alloc: Global, names: &Names, number: u32) -> Result<String, NameFault> {
    names.print(alloc, keysym(number))
}

fn expect_value(rt: &impl Abort, names: &Names, row: &ValueRow) {
    assert_eq!(rt; value_of(names, row.name), row.value, "{}", row.name);
}

/// Expects the values of the built-in names.
fn expect_core(rt: &impl Abort, names: &Names) {
    for row in &CORE {
        expect_value(rt, names, row);
    }
}

#[test]
fn names_and_forms_are_looked_up(rt: HostRuntime) -> Result<(), AllocError> {
    expect_core(&rt, &core(rt.alloc())?);
    Ok(())
}

fn expect_values(rt: &impl Abort, names: &Names, rows: &[ValueRow]) {
    for row in rows {
        expect_value(rt, names, row);
    }
}

fn expect_names(rt: &impl Abort, alloc: Global, row: &NamesRow) -> Result<(), NameFault> {
    let names = read(alloc, row.header)?;
    expect_values(rt, &names, row.values);
    Ok(())
}

#[test]
fn names_of_headers_are_looked_up(rt: HostRuntime) -> Result<(), NameFault> {
    for row in &NAMES {
        expect_names(&rt, rt.alloc(), row)?;
    }
    Ok(())
}

/// Returns the name that a line of the built-in header defines.
fn defined_name(line: &str) -> &str {
    let rest = line.strip_prefix("#define XK_").unwrap_or(line);
    match rest.split_once(' ') {
        Some((name, _)) => name,
        None => rest,
    }
}

/// Expects that a name, its keysym and the character of that are the same in both.
fn expect_same(
    rt: &impl Abort,
    alloc: Global,
    one: &Names,
    other: &Names,
    name: &str,
) -> Result<(), NameFault> {
    let keysym = one.lookup(name).unwrap_or_default();
    assert_eq!(rt; other.lookup(name), Some(keysym), "{name}");
    assert_eq!(rt;
        one.print(alloc, keysym)?,
        other.print(alloc, keysym)?,
        "{name}"
    );
    assert_eq!(rt; one.text_of(keysym), other.text_of(keysym), "{name}");
    if let Some(character) = one.text_of(keysym) {
        let before = one.next_of(character, None);
        assert_eq!(rt; before, other.next_of(character, None), "{name}");
        assert_eq!(rt;
            one.next_of(character, before),
            other.next_of(character, before),
            "{name}"
        );
    }
    Ok(())
}

/// The built-in header is not read, but with one more line it is.
#[test]
fn built_in_names_are_those_of_their_header(rt: HostRuntime) -> Result<(), NameFault> {
    let mut header = String::from_str(rt.alloc(), builtin_names())?;
    header.push_str("#define XK_one_more 0x1ffffff0\n")?;
    let longer = read(rt.alloc(), header.as_bytes())?;
    let built_in = read(rt.alloc(), builtin_names().as_bytes())?;
    for line in builtin_names().lines() {
        expect_same(&rt, rt.alloc(), &built_in, &longer, defined_name(line))?;
    }
    assert_eq!(rt; value_of(&built_in, "one_more"), None);
    assert_eq!(rt; value_of(&longer, "one_more"), Some(0x1fff_fff0));
    expect_core(&rt, &built_in);
    Ok(())
}

/// Expects the characters that are added by a header with the Greek alpha.
fn expect_alpha(rt: &impl Abort, names: &Names) {
    assert_eq!(rt; text_of(names, 0x7e1), Some('α'));
    for row in &NEXT {
        assert_eq!(rt; next_value(names, row), row.next, "behind {}", row.after);
    }
}

#[test]
fn a_header_adds_characters(rt: HostRuntime) -> Result<(), NameFault> {
    expect_alpha(&rt, &read(rt.alloc(), ALPHA)?);
    Ok(())
}

/// Returns the fault of a header, if it has one.
fn fault_of(alloc: Global, header: &[u8]) -> Option<NameFault> {
    read(alloc, header).err()
}

/// Prints the fault of a header, or `accepted`.
fn push_fault(text: &mut String, fault: &Option<NameFault>) -> Result<(), AllocError> {
    match fault {
        None => text.push_str("accepted"),
        Some(fault) => push_printed(text, fault),
    }
}

fn push_printed(text: &mut String, fault: &NameFault) -> Result<(), AllocError> {
    write!(text, "{fault}")?;
    Ok(())
}

fn expect_read(
    rt: &impl Abort,
    alloc: Global,
    row: &str,
    header: &[u8],
    prints: &str,
) -> Result<(), AllocError> {
    let mut text = String::new(alloc);
    push_fault(&mut text, &fault_of(alloc, header))?;
    expect_text(rt, row, &text, prints);
    Ok(())
}

#[test]
fn a_faulty_line_is_named(rt: HostRuntime) -> Result<(), AllocError> {
    for row in &HEADERS {
        expect_read(&rt, rt.alloc(), row.prints, row.header, row.prints)?;
    }
    Ok(())
}

/// Appends a line with a new name for each of these numbers.
fn push_lines(header: &mut String, numbers: Range<u32>) -> Result<(), AllocError> {
    for number in numbers {
        write!(header, "#define XK_made_{number} 0x{number:x}\n")?;
    }
    Ok(())
}

#[test]
fn names_are_limited(rt: HostRuntime) -> Result<(), AllocError> {
    let alloc = rt.alloc();
    let mut header = String::new(alloc);
    push_lines(&mut header, 0..16_384 - 243)?;
    expect_read(&rt, alloc, "the most", header.as_bytes(), "accepted")?;
    push_lines(&mut header, 16_384 - 243..16_384 - 242)?;
    expect_read(&rt, alloc, "one more", header.as_bytes(), "5 TooManyNames")
}

fn expect_printed(
    rt: &impl Abort,
    alloc: Global,
    names: &Names,
    row: &PrintedRow,
) -> Result<(), NameFault> {
    let text = printed(alloc, names, row.number)?;
    expect_text(rt, row.prints, &text, row.prints);
    Ok(())
}

fn expect_each_printed(rt: &impl Abort, alloc: Global, names: &Names) -> Result<(), NameFault> {
    for row in &PRINTED {
        expect_printed(rt, alloc, names, row)?;
    }
    Ok(())
}

#[test]
fn keysyms_are_printed(rt: HostRuntime) -> Result<(), NameFault> {
    let names = core(rt.alloc())?;
    expect_each_printed(&rt, rt.alloc(), &names)
}

#[test]
fn fields_of_faults_are_printed(rt: HostRuntime) -> Result<(), AllocError> {
    let shown = ShownKeysym(keysym(0x27));
    let character = ShownChar('á');
    let mut keys = ArrayVec::new();
    keys.push(keysym(0x61));
    keys.push(keysym(0x62));
    let list = KeyList(keys);
    let text = format!(in rt.alloc(); "{shown} {character} {list}")?;
    expect_text(&rt, "each field", &text, "0x27 U+00E1 0x61,0x62");
    Ok(())
}

/// Pseudorandom bytes, with the beginning of a definition here and there.
fn random_bytes(alloc: Global) -> Result<Vec<u8>, AllocError> {
    let mut state: u32 = 1;
    let mut bytes = Vec::new(alloc);
    for _ in 0..4096u32 {
        state = state.wrapping_mul(1_664_525).wrapping_add(1_013_904_223);
        bytes.push((state >> 24) as u8)?;
        if state & 0x1ff == 0 {
            bytes.extend_from_slice(b"\n#define XK_a 0x")?;
        }
    }
    Ok(bytes)
}

#[test]
fn any_bytes_are_read_or_refused(rt: HostRuntime) -> Result<(), AllocError> {
    let bytes = random_bytes(rt.alloc())?;
    for prefix in bytes.chunks(97) {
        let _ = fault_of(rt.alloc(), prefix);
    }
    let _ = fault_of(rt.alloc(), bytes.as_slice());
    Ok(())
}
