//! Worked certificates and repertoires, as texts.
use crate::helpers::expect_text;
use compose_cert::{CertFault, Certificate, Repertoire, RepertoireFault, Typing};
use keysym_core::Keysym;
use std::alloc::{AllocError, Global};
use std::process::Abort;

const TYPED: &[u8; 97] =
    b"compose-certificate 1\nbound 2\npairs 4\n0 0\n1 1\n2 2\n3 3\ntypings 2\nU+00E1 ff20 27 61\nU+00E9 fe51 65\n";

const FRESH: &[u8] =
    b"compose-certificate 2\nbound 2\npairs 3\n0 0\n1 2\n2 3\ntypings 0\nfresh 1\nfe5a\n";

fn read(alloc: Global, text: &[u8]) -> Result<Certificate, CertFault> {
    Certificate::read(alloc, text)
}

fn written(alloc: Global, certificate: &Certificate) -> Result<String, CertFault> {
    certificate.write_text(alloc)
}

/// Expects the text of a certificate.
fn expect_written(
    rt: &impl Abort,
    alloc: Global,
    certificate: &Certificate,
    text: &[u8],
) -> Result<(), CertFault> {
    assert_eq!(rt; written(alloc, certificate)?.as_bytes(), text);
    Ok(())
}

/// Returns the bound of a certificate, and the numbers of its pairs, typings and fresh keysyms.
fn counts(certificate: &Certificate) -> [usize; 4] {
    [
        certificate.bound() as usize,
        certificate.pair_count(),
        certificate.typing_count(),
        certificate.fresh_count(),
    ]
}

fn pair_at(certificate: &Certificate, index: usize) -> Option<(u32, u32)> {
    if index < certificate.pair_count() {
        Some(certificate.pair(index))
    } else {
        None
    }
}

fn typing_at(certificate: &Certificate, index: usize) -> Option<&Typing> {
    if index < certificate.typing_count() {
        Some(certificate.typing(index))
    } else {
        None
    }
}

fn fresh_at(certificate: &Certificate, index: usize) -> Option<Keysym> {
    if index < certificate.fresh_count() {
        Some(certificate.fresh(index))
    } else {
        None
    }
}

/// Returns the character of a typing, and the number of its keys.
fn typed(typing: Option<&Typing>) -> Option<(char, usize)> {
    match typing {
        Some(typing) => Some((typing.character(), typing.keys().len())),
        None => None,
    }
}

/// Expects the contents of `TYPED`.
fn expect_typed(rt: &impl Abort, certificate: &Certificate) {
    assert_eq!(rt; counts(certificate), [2, 4, 2, 0]);
    assert_eq!(rt; pair_at(certificate, 3), Some((3, 3)));
    assert_eq!(rt; typed(typing_at(certificate, 0)), Some(('á', 3)));
}

/// Expects the fresh keysyms of `FRESH`.
fn expect_fresh(rt: &impl Abort, certificate: &Certificate) {
    assert_eq!(rt; counts(certificate)[3], 1);
    assert_eq!(rt; fresh_at(certificate, 0), Keysym::new(0xfe5a));
}

#[test]
fn a_text_is_read_and_written_back(rt: HostRuntime) -> Result<(), CertFault> {
    let typed = read(rt.alloc(), TYPED)?;
    expect_typed(&rt, &typed);
    expect_written(&rt, rt.alloc(), &typed, TYPED)
}

#[test]
fn a_text_with_fresh_keysyms_is_read_and_written_back(rt: HostRuntime) -> Result<(), CertFault> {
    let fresh = read(rt.alloc(), FRESH)?;
    expect_fresh(&rt, &fresh);
    expect_written(&rt, rt.alloc(), &fresh, FRESH)
}

/// Returns a certificate with these pairs and one typing with these keys, if there can be one.
fn of_one_typing(
    alloc: Global,
    pairs: Vec<(u32, u32)>,
    keys: Vec<Keysym>,
) -> Result<Option<Certificate>, AllocError> {
    let typings = vec![in alloc; Typing::new('a', keys)]?;
    Ok(Certificate::new(1, pairs, typings))
}

fn with_fresh(certificate: Certificate, fresh: Vec<Keysym>) -> Option<Certificate> {
    certificate.with_fresh(fresh)
}

/// Expects the text of a certificate with one fresh keysym.
fn expect_with_fresh(
    rt: &impl Abort,
    alloc: Global,
    certificate: Certificate,
    fresh: Vec<Keysym>,
) -> Result<(), CertFault> {
    let text = b"compose-certificate 2\nbound 1\npairs 1\n0 0\ntypings 1\nU+0061 61\nfresh 1\n61\n";
    match with_fresh(certificate, fresh) {
        Some(certificate) => expect_written(rt, alloc, &certificate, text),
        None => rt.panic("no certificate with fresh keysyms"),
    }
}

#[test]
fn parts_make_a_certificate(rt: HostRuntime) -> Result<(), CertFault> {
    let alloc = rt.alloc();
    let key = Keysym::new(0x61).unwrap_or_default();
    let (keys, fresh) = (vec![in alloc; key]?, vec![in alloc; key]?);
    match of_one_typing(alloc, vec![in alloc; (0, 0)]?, keys)? {
        Some(certificate) => expect_with_fresh(&rt, alloc, certificate, fresh),
        None => rt.panic("no certificate"),
    }
}

/// A typing has at least one key.
#[test]
fn a_typing_of_no_key_makes_no_certificate(rt: HostRuntime) -> Result<(), AllocError> {
    let alloc = rt.alloc();
    let certificate = of_one_typing(alloc, Vec::new(alloc), Vec::new(alloc))?;
    assert!(rt; certificate.is_none());
    Ok(())
}

/// A text that is not a certificate, and its fault.
struct CertificateRow {
    text: &'static [u8],
    fault: CertFault,
}

#[rattlefmt::skip]
static NO_CERTIFICATES: [CertificateRow; 14] = [
    CertificateRow { text: b"compose-certificate 1\nbound 02\n", fault: CertFault::NotText { line: 2 } },
    CertificateRow { text: b"compose-certificate 1\nbound 4294967296\n", fault: CertFault::NotText { line: 2 } },
    CertificateRow { text: b"compose-certificate 1\nbound 1\npairs 1048577", fault: CertFault::NotText { line: 3 } },
    CertificateRow { text: b"compose-certificate 1\nbound 1\npairs 0\ntypings 0\n\n", fault: CertFault::NotText { line: 5 } },
    CertificateRow { text: b"compose-certificate 1\nbound 1\npairs 0\ntypings 0\ntypings 0\n", fault: CertFault::NotText { line: 5 } },
    CertificateRow { text: b"compose-certificate 1\nbound 1\npairs 0\ntypings 0\nfresh 1\nfe5a\n", fault: CertFault::NotText { line: 5 } },
    CertificateRow { text: b"compose-certificate 2\nbound 1\npairs 0\ntypings 0\nfresh 0\n", fault: CertFault::NotText { line: 5 } },
    CertificateRow { text: b"compose-certificate 2\nbound 1\npairs 0\ntypings 0\n", fault: CertFault::NotText { line: 5 } },
    CertificateRow { text: b"compose-certificate 1\nbound 1\npairs 0\ntypings 1\nU+00061 61\n", fault: CertFault::NotText { line: 5 } },
    CertificateRow { text: b"compose-certificate 1\nbound 1\npairs 0\ntypings 1\nU+00e1 61\n", fault: CertFault::NotText { line: 5 } },
    CertificateRow { text: b"compose-certificate 1\nbound 1\npairs 0\ntypings 1\nU+D800 61\n", fault: CertFault::NotText { line: 5 } },
    CertificateRow { text: b"compose-certificate 1\nbound 1\npairs 0\ntypings 1\nU+0061\n", fault: CertFault::NotText { line: 5 } },
    CertificateRow { text: b"compose-certificate 1\nbound 1\npairs 0\ntypings 1\nU+0061 20000000\n", fault: CertFault::NotText { line: 5 } },
    CertificateRow { text: b"compose-certificate 1\nbound 1\npairs 1048577\n", fault: CertFault::TooLarge },
];

/// Returns the fault of a text, if it is not a certificate.
fn fault_of(alloc: Global, text: &[u8]) -> Option<CertFault> {
    read(alloc, text).err()
}

fn expect_fault(rt: &impl Abort, alloc: Global, text: &[u8], fault: &CertFault) {
    assert_eq!(rt; fault_of(alloc, text).as_ref(), Some(fault), "{text:?}");
}

#[test]
fn faults_have_their_lines(rt: HostRuntime) {
    for row in &NO_CERTIFICATES {
        expect_fault(&rt, rt.alloc(), row.text, &row.fault);
    }
}

/// Returns whether this is the text of this certificate. False if memory runs out.
fn spells(alloc: Global, certificate: &Certificate, text: &[u8]) -> bool {
    match written(alloc, certificate) {
        Ok(written) => written.as_bytes() == text,
        Err(_) => false,
    }
}

/// Returns whether the text is refused, or read as a certificate with exactly this text. False if
/// memory runs out.
fn is_refused_or_spells(alloc: Global, text: &[u8]) -> bool {
    match read(alloc, text) {
        Ok(certificate) => spells(alloc, &certificate, text),
        Err(fault) => fault != CertFault::NoMemory,
    }
}

#[test]
fn the_greatest_numbers_are_read(rt: HostRuntime) {
    let text = b"compose-certificate 1\nbound 4294967295\npairs 0\ntypings 1\nU+0000 0 1fffffff\n";
    assert!(rt; is_refused_or_spells(rt.alloc(), text));
}

#[test]
fn a_changed_byte_is_refused_or_another_text(rt: HostRuntime) {
    let alloc = rt.alloc();
    for index in 0..TYPED.len() {
        for byte in 0..=255u8 {
            let mut changed = *TYPED;
            changed[index] = byte;
            assert!(rt; is_refused_or_spells(alloc, &changed), "{byte} at {index}");
        }
    }
}

#[test]
fn a_cut_text_is_refused_at_its_line(rt: HostRuntime) {
    let mut line = 1usize;
    for length in 0..TYPED.len() {
        expect_fault(
            &rt,
            rt.alloc(),
            &TYPED[..length],
            &CertFault::NotText { line },
        );
        if TYPED[length] == b'\n' {
            line = line.wrapping_add(1);
        }
    }
}

/// A text that is not a repertoire, and its fault.
struct RepertoireRow {
    text: &'static [u8],
    fault: RepertoireFault,
}

#[rattlefmt::skip]
static NO_REPERTOIRES: [RepertoireRow; 6] = [
    RepertoireRow { text: b"U+00E9\nU+00E1\n", fault: RepertoireFault::NotRising { line: 2 } },
    RepertoireRow { text: b"U+D800", fault: RepertoireFault::BadLine { line: 1 } },
    RepertoireRow { text: b"U+00E1\nkeys 0x61 0x7a\n", fault: RepertoireFault::BadLine { line: 2 } },
    RepertoireRow { text: b"keys 0x7a 0x61", fault: RepertoireFault::BadLine { line: 1 } },
    RepertoireRow { text: b"keys 0x61 0x7a\nkeys 0x7a 0x7b\n", fault: RepertoireFault::NotRising { line: 2 } },
    RepertoireRow { text: b"# \xff\n", fault: RepertoireFault::BadLine { line: 1 } },
];

/// A keysym, and whether the worked repertoire has a key with it.
struct KeyRow {
    number: u32,
    is_key: bool,
}

#[rattlefmt::skip]
static KEYS: [KeyRow; 8] = [
    KeyRow { number: 0x20, is_key: true },
    KeyRow { number: 0x61, is_key: true },
    KeyRow { number: 0x7e, is_key: true },
    KeyRow { number: 0xfe51, is_key: true },
    KeyRow { number: 0x1f, is_key: false },
    KeyRow { number: 0x7f, is_key: false },
    KeyRow { number: 0xfe50, is_key: false },
    KeyRow { number: 0xfe52, is_key: false },
];

/// The worked repertoire.
const REPERTOIRE: &str = " keys\t0x20 0x7E # ASCII\n#\n\nkeys 0xfe51 0xfe51\r\nU+00e1\n  U+00E9";

fn read_repertoire(alloc: Global, text: &[u8]) -> Result<Repertoire, RepertoireFault> {
    Repertoire::read(alloc, text)
}

fn expect_keys(rt: &impl Abort, repertoire: &Repertoire) {
    for row in &KEYS {
        let key = Keysym::new(row.number).unwrap_or_default();
        assert_eq!(rt; repertoire.is_key(key), row.is_key, "{}", row.number);
    }
}

/// Returns the character at this index, if there is one.
fn char_at(repertoire: &Repertoire, index: usize) -> Option<char> {
    if index < repertoire.count() {
        Some(repertoire.char_at(index))
    } else {
        None
    }
}

fn expect_characters(rt: &impl Abort, repertoire: &Repertoire) {
    assert_eq!(rt; repertoire.count(), 2);
    assert_eq!(rt; char_at(repertoire, 0), Some('á'));
    assert_eq!(rt; char_at(repertoire, 1), Some('é'));
}

#[test]
fn repertoires_are_read(rt: HostRuntime) -> Result<(), RepertoireFault> {
    let repertoire = read_repertoire(rt.alloc(), REPERTOIRE.as_bytes())?;
    expect_characters(&rt, &repertoire);
    expect_keys(&rt, &repertoire);
    Ok(())
}

#[test]
fn an_empty_repertoire_is_read(rt: HostRuntime) -> Result<(), RepertoireFault> {
    assert_eq!(rt; read_repertoire(rt.alloc(), b"")?.count(), 0);
    Ok(())
}

/// Returns the fault of a text, if it is not a repertoire.
fn repertoire_fault_of(alloc: Global, text: &[u8]) -> Option<RepertoireFault> {
    read_repertoire(alloc, text).err()
}

fn expect_refused(rt: &impl Abort, alloc: Global, text: &[u8], fault: &RepertoireFault) {
    assert_eq!(rt;
        repertoire_fault_of(alloc, text).as_ref(),
        Some(fault),
        "{text:?}"
    );
}

#[test]
fn repertoires_are_refused(rt: HostRuntime) {
    for row in &NO_REPERTOIRES {
        expect_refused(&rt, rt.alloc(), row.text, &row.fault);
    }
}

#[test]
fn faults_are_printed(rt: HostRuntime) -> Result<(), AllocError> {
    let (no_text, large) = (CertFault::NotText { line: 2 }, CertFault::TooLarge);
    let not_rising = RepertoireFault::NotRising { line: 7 };
    let text = format!(in rt.alloc(); "{no_text}, {large}, {not_rising}")?;
    let prints = "1 NotText line=2, 2 TooLarge, 2 NotRising line=7";
    expect_text(&rt, prints, &text, prints);
    Ok(())
}
