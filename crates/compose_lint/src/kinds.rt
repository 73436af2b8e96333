//! The findings in the lines of a file.
ghost use Rattle.std.specs.Prelude.{◌≡◌, ◌++◌, ℕ, List, IfOk, OnOk, Some, IfSome, IsTrue, bytes_eq, slice_get, option_copied, map};
ghost use Rattle.std.specs.Borrow.{Bor};
ghost use Rattle.std.specs.Option.{option_and_then};
ghost use Rattle.indexmap.specs.IndexMap.{get_by, get_by_text};
ghost use Rattle.compose_model.specs.Table.{Definition};
ghost use Rattle.compose_lint.specs.Counting.{last_defining};
ghost use Rattle.compose_lint.specs.Lines.{all_lines};
ghost use Rattle.compose_lint.specs.Alike.{form_place};
ghost use Rattle.compose_lint.specs.Longer.{longer_place};
ghost use Rattle.compose_lint.specs.Comments.{comments_in, turned};
ghost use Rattle.compose_lint.specs.Commonest.{IsLed, times};
ghost use Rattle.compose_lint.specs.Findings as words;

use crate::alike::FormPlaces;
use crate::classes::{
    has_digit_name, has_eleven_keysyms, has_letter_escape, has_longest_text, has_no_string,
    has_no_symbol, has_nul, has_ten_keysyms, has_wide_keysym,
};
use crate::comments::has_misplaced_comment;
use crate::commonest::{Leaders, Note};
use crate::counting::{LastLines, last_lines};
use crate::definition::LineDefinition;
use crate::faults::push_fault_kinds;
use crate::file_lines::{
    has_return, has_return_in_include, has_spaced_name, is_after_mark, is_joined,
    is_without_newline,
};
use crate::finding::{Finding, FindingKind};
use crate::lines::LintLine;
use crate::longer::LongerPlaces;
use crate::production::Written;
use crate::reader::{Class, Reader, Readers};
use crate::signs::has_sign_pair;
use crate::source_lines::SourceLines;
use crate::texts::{has_other_character, is_normal, repeats_mark};
use compose_read::ReadFault;
use keysym_core::{Keysym, Names};
use std::alloc::{AllocError, Global};

/// Adds this kind if `is_so` is true.
fn push_when(kinds: &mut Vec<FindingKind>, is_so: bool, kind: FindingKind) -> Result<(), AllocError>
    ensures { OnOk result (kinds.new.items ≡ kinds.old.items ++ words.when is_so kind) }
{
    if is_so {
        kinds.push(kind)?;
    }
    Ok(())
}

/// Returns whether the line has a definition with this text.
fn has_own_text(text: &str, line: &LintLine<'_>) -> bool
    ensures { result ≡ words.has_own_text text.now line.now }
{
    match line.definition() {
        Some(definition) => text == definition.text(),
        None => false,
    }
}

/// Adds `Overridden` or `Repeated` if a later line of the file defines the sequence again. None
/// does if `is_once`.
fn push_defined_again(
    kinds: &mut Vec<FindingKind>,
    lines: &[LintLine<'_>],
    last: &LastLines<'_>,
    is_once: bool,
    line: &LintLine<'_>,
    definition: &LineDefinition<'_>,
) -> Result<(), AllocError>
    requires last { (q : Bor (List ℕ))
        → option_and_then (slice_get lines.now) (get_by (λ k. bytes_eq q.now k.now) last.now)
        ≡ last_defining lines.now q.now }
    requires once { IsTrue is_once
        → last_defining lines.now definition.now.sequence ≡ Some line.now }
    ensures { OnOk result
        (kinds.new.items
        ≡ kinds.old.items ++ words.defined_again lines.now line.now definition.now) }
{
    if is_once {
        return Ok(());
    }
    match counting_line(lines, last, definition.sequence()) {
        Some(counting) => push_beside(kinds, line, definition, counting),
        None => Ok(()),
    }
}

/// Returns the line that counts for a sequence, which is the last one, if there is one.
fn counting_line<'b, 'a>(
    lines: &'b [LintLine<'a>],
    last: &LastLines<'_>,
    sequence: &[Keysym],
) -> Option<&'b LintLine<'a>>
    requires { (q : Bor (List ℕ))
        → option_and_then (slice_get lines.now) (get_by (λ k. bytes_eq q.now k.now) last.now)
        ≡ last_defining lines.now q.now }
    ensures { option_copied result ≡ last_defining lines.now sequence.now }
{
    lines.get(*last.get(sequence)?)
}

/// Adds `Overridden` or `Repeated` if the line that counts is a later one.
fn push_beside(
    kinds: &mut Vec<FindingKind>,
    line: &LintLine<'_>,
    definition: &LineDefinition<'_>,
    counting: &LintLine<'_>,
) -> Result<(), AllocError>
    ensures { OnOk result
        (kinds.new.items
        ≡ kinds.old.items ++ words.beside line.now definition.now counting.now) }
{
    if line.line() >= counting.line() {
        return Ok(());
    }
    let line = counting.line();
    if has_own_text(definition.text(), counting) {
        kinds.push(FindingKind::Repeated { line })?;
    } else {
        kinds.push(FindingKind::Overridden { line })?;
    }
    Ok(())
}

/// Adds the findings in the text alone.
fn push_text_kinds(
    names: &Names,
    kinds: &mut Vec<FindingKind>,
    written: &Written<'_>,
    definition: &LineDefinition<'_>,
) -> Result<(), AllocError>
    ensures { OnOk result
        (kinds.new.items
        ≡ kinds.old.items ++ words.text_kinds names.now written.now definition.now) }
{
    let is_other = has_other_character(names, written, definition);
    push_when(kinds, is_other, FindingKind::Keysym)?;
    push_when(kinds, repeats_mark(definition.text()), FindingKind::Mark)
}

/// Adds the findings about libX11.
fn push_libx11_kinds(
    kinds: &mut Vec<FindingKind>,
    readers: Readers,
    definition: &LineDefinition<'_>,
) -> Result<(), AllocError>
    ensures { OnOk result
        (kinds.new.items ≡ kinds.old.items ++ words.libx11_kinds readers definition.now) }
{
    let reader = Reader::LibX11;
    let many = readers.libx11 && has_ten_keysyms(definition);
    push_when(kinds, many, FindingKind::Reader(reader, Class::ManyKeysyms))?;
    let none = readers.libx11 && has_no_symbol(definition);
    push_when(kinds, none, FindingKind::Reader(reader, Class::NoSymbol))?;
    let nul = readers.libx11 && has_nul(definition);
    push_when(kinds, nul, FindingKind::Reader(reader, Class::Nul))
}

/// Adds the findings about libxkbcommon.
fn push_libxkbcommon_kinds(
    kinds: &mut Vec<FindingKind>,
    readers: Readers,
    written: &Written<'_>,
    definition: &LineDefinition<'_>,
) -> Result<(), AllocError>
    ensures { OnOk result
        (kinds.new.items
        ≡ kinds.old.items
        ++ words.libxkbcommon_kinds readers written.now definition.now) }
{
    let reader = Reader::Libxkbcommon;
    let many = readers.libxkbcommon && has_eleven_keysyms(definition);
    push_when(kinds, many, FindingKind::Reader(reader, Class::ManyKeysyms))?;
    let none = readers.libxkbcommon && has_no_symbol(definition);
    push_when(kinds, none, FindingKind::Reader(reader, Class::NoSymbol))?;
    let long = readers.libxkbcommon && has_longest_text(definition);
    push_when(kinds, long, FindingKind::Reader(reader, Class::LongestText))?;
    let nul = readers.libxkbcommon && has_nul(definition);
    push_when(kinds, nul, FindingKind::Reader(reader, Class::Nul))?;
    let digit = readers.libxkbcommon && has_digit_name(written);
    push_when(kinds, digit, FindingKind::Reader(reader, Class::DigitName))?;
    let letter = readers.libxkbcommon && has_letter_escape(written);
    push_when(
        kinds,
        letter,
        FindingKind::Reader(reader, Class::LetterEscape),
    )
}

/// Adds the findings about GTK.
fn push_gtk_kinds(
    kinds: &mut Vec<FindingKind>,
    readers: Readers,
    written: &Written<'_>,
    definition: &LineDefinition<'_>,
) -> Result<(), AllocError>
    ensures { OnOk result
        (kinds.new.items
        ≡ kinds.old.items ++ words.gtk_kinds readers written.now definition.now) }
{
    let none = has_no_string(written);
    push_when(
        kinds,
        readers.gtk3 && none,
        FindingKind::Reader(Reader::Gtk3, Class::NoString),
    )?;
    let wide = readers.gtk4 && has_wide_keysym(definition);
    push_when(
        kinds,
        wide,
        FindingKind::Reader(Reader::Gtk4, Class::WideKeysym),
    )?;
    push_when(
        kinds,
        readers.gtk4 && none,
        FindingKind::Reader(Reader::Gtk4, Class::NoString),
    )
}

/// Adds the findings of other readers about the form of the file.
fn push_file_kinds(
    kinds: &mut Vec<FindingKind>,
    readers: Readers,
    bytes: &[u8],
    lines: &[LintLine<'_>],
    line: &LintLine<'_>,
) -> Result<(), AllocError>
    ensures { OnOk result
        (kinds.new.items
        ≡ kinds.old.items ++ words.file_kinds readers bytes.now lines.now line.now) }
{
    let marked = is_after_mark(bytes, line);
    let class = Class::ByteOrderMark;
    push_when(
        kinds,
        readers.libx11 && marked,
        FindingKind::Reader(Reader::LibX11, class),
    )?;
    let is_lost = readers.libxkbcommon && marked;
    push_when(
        kinds,
        is_lost,
        FindingKind::Reader(Reader::Libxkbcommon, class),
    )?;
    let is_last = readers.libxkbcommon && is_without_newline(bytes, lines.len(), line);
    push_when(
        kinds,
        is_last,
        FindingKind::Reader(Reader::Libxkbcommon, Class::NoNewline),
    )?;
    let joined = readers.libx11 && is_joined(lines, line);
    push_when(
        kinds,
        joined,
        FindingKind::Reader(Reader::LibX11, Class::Joined),
    )?;
    let returned = readers.libx11 && has_return_in_include(line.bytes());
    push_when(
        kinds,
        returned,
        FindingKind::Reader(Reader::LibX11, Class::CarriageReturn),
    )
}

/// Adds the findings of other readers about blanks in a production. Most lines have no sign of any.
fn push_blank_kinds(
    kinds: &mut Vec<FindingKind>,
    readers: Readers,
    line: &[u8],
    written: &Written<'_>,
) -> Result<(), AllocError>
    ensures { OnOk result
        (kinds.new.items
        ≡ kinds.old.items ++ words.blank_kinds readers line.now written.now) }
{
    if !has_sign_pair(line) {
        return Ok(());
    }
    let returned = readers.libx11 && has_return(line, written);
    push_when(
        kinds,
        returned,
        FindingKind::Reader(Reader::LibX11, Class::CarriageReturn),
    )?;
    let spaced = readers.libxkbcommon && has_spaced_name(line);
    push_when(
        kinds,
        spaced,
        FindingKind::Reader(Reader::Libxkbcommon, Class::SpacedName),
    )
}

/// The names, the wanted readers, the faults of the table, and a file: its bytes and its lines.
#[derive(Clone, Copy)]
pub(crate) struct LintFile<'b, 'a> {
    pub(crate) names: &'b Names,
    pub(crate) readers: Readers,
    pub(crate) faults: &'b [ReadFault],
    pub(crate) bytes: &'b [u8],
    pub(crate) lines: &'b [LintLine<'a>],
}

/// Adds the findings in a line of the file with this definition, made from `written`.
fn push_kinds_of(
    kinds: &mut Vec<FindingKind>,
    file: LintFile<'_, '_>,
    last: &LastLines<'_>,
    is_once: bool,
    line: &LintLine<'_>,
    written: &Written<'_>,
    definition: &LineDefinition<'_>,
) -> Result<(), AllocError>
    requires last { (q : Bor (List ℕ))
        → option_and_then (slice_get file.lines.now) (get_by (λ k. bytes_eq q.now k.now) last.now)
        ≡ last_defining file.lines.now q.now }
    requires once { IsTrue is_once
        → last_defining file.lines.now definition.now.sequence ≡ Some line.now }
    ensures { OnOk result
        (kinds.new.items
        ≡ kinds.old.items
        ++ words.kinds_of file.entry.names.now file.entry.readers file.entry.lines.now line.now
        written.now definition.now) }
{
    push_defined_again(kinds, file.lines, last, is_once, line, definition)?;
    push_text_kinds(file.names, kinds, written, definition)?;
    push_blank_kinds(kinds, file.readers, line.bytes(), written)?;
    push_libx11_kinds(kinds, file.readers, definition)?;
    push_libxkbcommon_kinds(kinds, file.readers, written, definition)?;
    push_gtk_kinds(kinds, file.readers, written, definition)
}

/// Adds the findings in the definition of a line of the file, if it has one.
fn push_kinds_if(
    kinds: &mut Vec<FindingKind>,
    file: LintFile<'_, '_>,
    last: &LastLines<'_>,
    is_once: bool,
    line: &LintLine<'_>,
) -> Result<(), AllocError>
    requires last { (q : Bor (List ℕ))
        → option_and_then (slice_get file.lines.now) (get_by (λ k. bytes_eq q.now k.now) last.now)
        ≡ last_defining file.lines.now q.now }
    requires once { IsTrue is_once
        → (d : Definition) → line.now.definition ≡ Some d
        → last_defining file.lines.now d.sequence ≡ Some line.now }
    ensures { OnOk result
        (kinds.new.items
        ≡ kinds.old.items
        ++ words.kinds_if file.entry.names.now file.entry.readers file.entry.lines.now line.now
        line.now.written line.now.definition) }
{
    match (line.written(), line.definition()) {
        (Some(written), Some(definition)) => {
            push_kinds_of(kinds, file, last, is_once, line, written, definition)
        }
        _ => Ok(()),
    }
}

/// Returns the kinds of the findings in a line that depend on its file alone.
pub(crate) fn own_kinds(
    alloc: Global,
    file: LintFile<'_, '_>,
    last: &LastLines<'_>,
    is_once: bool,
    line: &LintLine<'_>,
) -> Result<Vec<FindingKind>, AllocError>
    requires last { (q : Bor (List ℕ))
        → option_and_then (slice_get file.lines.now) (get_by (λ k. bytes_eq q.now k.now) last.now)
        ≡ last_defining file.lines.now q.now }
    requires once { IsTrue is_once
        → (d : Definition) → line.now.definition ≡ Some d
        → last_defining file.lines.now d.sequence ≡ Some line.now }
    ensures { IfOk result
        (λ kinds. kinds.items
        ≡ words.own_kinds file.entry.names.now file.entry.readers file.entry.faults.now
        file.entry.bytes.now file.entry.lines.now line.now) }
{
    let mut kinds = Vec::new(alloc);
    push_fault_kinds(&mut kinds, file.faults, line)?;
    push_file_kinds(&mut kinds, file.readers, file.bytes, file.lines, line)?;
    push_kinds_if(&mut kinds, file, last, is_once, line)?;
    Ok(kinds)
}

/// Adds a finding of each of these kinds in the line.
fn push_kinds(
    findings: &mut Vec<Finding>,
    line: &LintLine<'_>,
    kinds: &[FindingKind],
) -> Result<(), AllocError>
    ensures { OnOk result
        (findings.new.items
        ≡ findings.old.items
        ++ map (λ k. record { source = line.now.source; line = line.now.line; kind = k })
        kinds.now) }
{
    let (source, line) = (line.source(), line.line());
    for kind in kinds {
        findings.push(Finding {
            source,
            line,
            kind: *kind,
        })?;
    }
    Ok(())
}

/// Adds `Form` if the text of the line is not in normal form C. If it is, adds `Alike` if a line of
/// any file produces another text with this normal form C.
fn push_form_kinds(
    alloc: Global,
    kinds: &mut Vec<FindingKind>,
    files: &[SourceLines<'_>],
    forms: &FormPlaces,
    line: &LintLine<'_>,
) -> Result<(), AllocError>
    requires { (q : List ℕ) → get_by_text forms.now q ≡ form_place (all_lines files.now) q }
    ensures { OnOk result
        (kinds.new.items ≡ kinds.old.items ++ words.form_kinds (all_lines files.now) line.now) }
{
    match line.definition() {
        Some(definition) => push_form_of(alloc, kinds, files, forms, definition.text()),
        None => Ok(()),
    }
}

/// Does the work of `push_form_kinds` for a text.
fn push_form_of(
    alloc: Global,
    kinds: &mut Vec<FindingKind>,
    _files: &[SourceLines<'_>],
    forms: &FormPlaces,
    text: &str,
) -> Result<(), AllocError>
    requires { (q : List ℕ) → get_by_text forms.now q ≡ form_place (all_lines _files.now) q }
    ensures { OnOk result
        (kinds.new.items ≡ kinds.old.items ++ words.form_of (all_lines _files.now) text.now) }
{
    if !is_normal(alloc, text)? {
        kinds.push(FindingKind::Form)?;
    } else if let Some(place) = forms.get(text) {
        kinds.push(FindingKind::Alike(*place))?;
    }
    Ok(())
}

/// Adds `Prefix` if a line of any file defines a longer sequence that begins with the one of the
/// line.
fn push_prefix_kinds(
    kinds: &mut Vec<FindingKind>,
    files: &[SourceLines<'_>],
    longer: &LongerPlaces<'_>,
    line: &LintLine<'_>,
) -> Result<(), AllocError>
    requires { (q : Bor (List ℕ))
        → get_by (λ k. bytes_eq q.now k.now) longer.now ≡ longer_place (all_lines files.now) q.now }
    ensures { OnOk result
        (kinds.new.items ≡ kinds.old.items ++ words.prefix_kinds (all_lines files.now) line.now) }
{
    if let Some(definition) = line.definition() {
        if let Some(place) = longer.get(definition.sequence()) {
            kinds.push(FindingKind::Prefix(*place))?;
        }
    }
    Ok(())
}

/// Adds `Redundant` if the included files define the sequence of the line with the same text.
fn push_redundant_kinds(
    kinds: &mut Vec<FindingKind>,
    included: &[LintLine<'_>],
    last: &LastLines<'_>,
    line: &LintLine<'_>,
) -> Result<(), AllocError>
    requires { (q : Bor (List ℕ))
        → option_and_then (slice_get included.now) (get_by (λ k. bytes_eq q.now k.now) last.now)
        ≡ last_defining included.now q.now }
    ensures { OnOk result
        (kinds.new.items ≡ kinds.old.items ++ words.redundant_kinds included.now line.now) }
{
    let Some(definition) = line.definition() else {
        return Ok(());
    };
    match counting_line(included, last, definition.sequence()) {
        Some(counting) => push_again(kinds, definition, counting),
        None => Ok(()),
    }
}

/// Adds `Redundant` if this line of an included file has the same text.
fn push_again(
    kinds: &mut Vec<FindingKind>,
    definition: &LineDefinition<'_>,
    counting: &LintLine<'_>,
) -> Result<(), AllocError>
    ensures { OnOk result
        (kinds.new.items ≡ kinds.old.items ++ words.again definition.now counting.now) }
{
    let is_same = has_own_text(definition.text(), counting);
    push_when(kinds, is_same, FindingKind::Redundant(counting.place()))
}

/// What the lines of all files contribute to the findings in a line: the places of texts that look
/// like others, those of longer sequences, the comments, and what occurs most often with each.
#[derive(Clone, Copy)]
pub(crate) struct AllFiles<'c, 'b, 'a> {
    pub(crate) files: &'b [SourceLines<'a>],
    pub(crate) forms: &'c FormPlaces,
    pub(crate) longer: &'c LongerPlaces<'b>,
    pub(crate) comments: &'c [Note<'b>],
    pub(crate) by_comment: &'c Leaders<'b>,
}

/// Adds the findings in the lines of a file, in order. `by_text` is what occurs most often with each
/// text, once that is needed. O(bytes).
pub(crate) fn push_findings<'b>(
    alloc: Global,
    findings: &mut Vec<Finding>,
    all: AllFiles<'_, 'b, '_>,
    by_text: &mut Option<Leaders<'b>>,
    file: LintFile<'_, '_>,
    included: &[LintLine<'_>],
) -> Result<(), AllocError>
    requires forms { (q : List ℕ)
        → get_by_text all.forms.now q ≡ form_place (all_lines all.files.now) q }
    requires longer { (q : Bor (List ℕ))
        → get_by (λ k. bytes_eq q.now k.now) all.longer.now
        ≡ longer_place (all_lines all.files.now) q.now }
    requires notes { all.comments.now ≡ comments_in (all_lines all.files.now) }
    requires comments { (k : Bor (List ℕ))
        → IsLed (times all.comments.now k.now) k.now all.comments.now
        (get_by (λ p. bytes_eq k.now p.now) all.by_comment.now) }
    requires texts { IfSome by_text.old
        (λ leaders. (k : Bor (List ℕ))
        → IsLed (times (map turned all.comments.now) k.now) k.now (map turned all.comments.now)
        (get_by (λ p. bytes_eq k.now p.now) leaders)) }
    ensures found { OnOk result
        (findings.new.items
        ≡ findings.old.items
        ++ words.findings_in file.entry.names.now file.entry.readers file.entry.faults.now
        (all_lines all.entry.files.now)
        (record {
          bytes = file.entry.bytes.now;
          lines = file.entry.lines.now;
          included = included.now;
        })) }
    ensures texts { OnOk result
        (IfSome by_text.new
        (λ leaders. (k : Bor (List ℕ))
        → IsLed (times (map turned all.entry.comments.now) k.now) k.now
        (map turned all.entry.comments.now) (get_by (λ p. bytes_eq k.now p.now) leaders))) }
{
    let lines = file.lines;
    let (last, is_once) = last_lines(alloc, lines)?;
    let (last_included, _) = last_lines(alloc, included)?;
    for line in lines {
        let mut kinds = own_kinds(alloc, file, &last, is_once, line)?;
        push_form_kinds(alloc, &mut kinds, all.files, all.forms, line)?;
        push_prefix_kinds(&mut kinds, all.files, all.longer, line)?;
        let is_misplaced = has_misplaced_comment(
            alloc,
            all.comments,
            all.by_comment,
            by_text,
            line,
        )?;
        push_when(&mut kinds, is_misplaced, FindingKind::Comment)?;
        push_redundant_kinds(&mut kinds, included, &last_included, line)?;
        push_kinds(findings, line, &kinds)?;
    }
    Ok(())
}
