//! What `-v` prints of a refusal.
ghost use Rattle.std.specs.Prelude.{◌≡◌, ◌++◌, not, map, option_copied, option_map, OnOk, IfOk, string_bytes};
ghost use Rattle.keysym_core.specs.Header.{names_of};
ghost use Rattle.keysym_core.specs.Printed.{printed};
ghost use Rattle.compose_details.specs.Refusals as words;
ghost use Rattle.compose_details.specs.Refusals.{CallsKey, IsCalled, IsRefusalDetails};

use crate::definitions::push_overlap;
use crate::faulty::push_faulty_lines;
use crate::given::{Given, GivenTable};
use crate::lines::{header_line, push_line, push_remark, whole_line};
use compose_answer::Refusal;
use compose_check::CheckFault;
use compose_input::{Header, LocaleTable};
use compose_messages::{
    CharacterHint, FaultWords, Hint, LocaleHint, Message, certificate_hint, certificate_words,
    header_hint, key_of_text, name_hint, name_words, push_events, repertoire_hint,
    repertoire_words, source_not_utf8, table_hint, text_in_place,
};
use compose_migration::Side;
use compose_read::SettleFault;
use compose_tree::TableFault;
use keysym_core::{Keysym, NameFault, Names};
use std::alloc::{AllocError, Global};
use std::fmt::Write;

/// Returns what `-v` prints of a refusal, as lines: the faulty lines of a table (at most twenty),
/// both places of an overlap, the faulty line of another file, and a hint if one helps. Empty if
/// the refusal is that memory ran out.
///
/// Costs reading the table and the names once more, and O(bytes of the lines that are visited).
///
/// Errors: `AllocError` if memory runs out here.
pub fn refusal_details(
    alloc: Global,
    given: &Given<'_>,
    refusal: &Refusal,
) -> Result<String, AllocError>
    ensures { IfOk result
        (λ text. IsRefusalDetails given.now refusal.now (string_bytes text)) }
{
    let called = key_called(alloc, given.header, refused_text(given, refusal))?;
    let mut text = String::new(alloc);
    push_refusal(alloc, &mut text, given, refusal)?;
    let locale = refused_locale(given, refusal);
    push_last_hint(&mut text, &called, locale, refusal_hint(given, refusal))?;
    Ok(text)
}

/// Returns the name of the key of a character, if the text is one, by the names of this header;
/// `None` if it is no character, or if no key has it.
fn key_called(alloc: Global, header: &[u8], text: &str) -> Result<Option<String>, AllocError>
    ensures { IfOk result
        (λ called. CallsKey (names_of header.now) text.now (option_map string_bytes called)) }
{
    match Names::read(alloc, header) {
        Ok(names) => called_by(alloc, &names, text),
        Err(NameFault::NoMemory) => Err(AllocError),
        Err(_) => Ok(None),
    }
}

/// Returns the name of the key of the character, if the text is one, by these names.
fn called_by(alloc: Global, names: &Names, text: &str) -> Result<Option<String>, AllocError>
    ensures { IfOk result
        (λ called. IsCalled names.now text.now (option_map string_bytes called)) }
{
    match key_of_text(names, text) {
        Some(keysym) => Ok(Some(printed(alloc, names, keysym)?)),
        None => Ok(None),
    }
}

/// Returns the keysym as it is printed.
fn printed(alloc: Global, names: &Names, keysym: Keysym) -> Result<String, AllocError>
    ensures { IfOk result (λ name. string_bytes name ≡ printed names.now keysym) }
{
    match names.print(alloc, keysym) {
        Ok(name) => Ok(name),
        Err(_) => Err(AllocError),
    }
}

/// Adds the hint with the name of a character's key if there is one, and otherwise the other hint,
/// if there is one.
fn push_last_hint(
    text: &mut String,
    called: &Option<String>,
    locale: Option<&str>,
    hint: Option<Hint>,
) -> Result<(), AllocError>
    ensures { OnOk result
        (string_bytes text.new
        ≡ string_bytes text.old
        ++ words.last_hint (option_map string_bytes called.now) (option_copied locale.entry)
        hint) }
{
    match called {
        Some(name) => push_character_hint(text, name),
        None => push_other_hint(text, locale, hint),
    }
}

/// Adds the hint with the locale whose table is not in UTF-8 if that is the fault, and otherwise
/// the other hint, if there is one.
fn push_other_hint(
    text: &mut String,
    locale: Option<&str>,
    hint: Option<Hint>,
) -> Result<(), AllocError>
    ensures { OnOk result
        (string_bytes text.new
        ≡ string_bytes text.old ++ words.other_hint (option_copied locale.entry) hint) }
{
    match locale {
        Some(name) => push_locale_hint(text, name),
        None => push_hint(text, hint),
    }
}

/// Adds the hint with the locale whose table is not in UTF-8.
fn push_locale_hint(text: &mut String, name: &str) -> Result<(), AllocError>
    ensures { OnOk result
        (string_bytes text.new ≡ string_bytes text.old ++ words.locale_line name.now) }
{
    let hint = LocaleHint(name);
    writeln!(text, "{hint}")?;
    Ok(())
}

/// Adds the hint with the name of a character's key.
fn push_character_hint(text: &mut String, name: &str) -> Result<(), AllocError>
    ensures { OnOk result
        (string_bytes text.new ≡ string_bytes text.old ++ words.character_line name.now) }
{
    let hint = CharacterHint(name);
    writeln!(text, "{hint}")?;
    Ok(())
}

/// Returns the text that was written instead of a keysym's name, if the refusal is about one, and
/// otherwise an empty text.
fn refused_text<'a>(given: &Given<'a>, refusal: &Refusal) -> &'a str
    ensures { result.now ≡ words.refused_text given.now refusal.now }
{
    match refusal {
        Refusal::Key { index } => argument_text(given.arguments, *index),
        Refusal::Table(fault) => table_text(given, 0, fault),
        Refusal::Side {
            side: Side::Old,
            fault,
        } => table_text(given, 0, fault),
        Refusal::Side {
            side: Side::New,
            fault,
        } => table_text(given, 1, fault),
        _ => "",
    }
}

/// Returns the locale whose table has a text that is not UTF-8, if that is the refusal.
fn refused_locale<'a>(given: &Given<'a>, refusal: &Refusal) -> Option<&'a str>
    ensures { option_copied result ≡ words.refused_locale given.now refusal.now }
{
    match refusal {
        Refusal::Table(fault) => numbered_locale(given.tables, 0, fault),
        Refusal::Side {
            side: Side::Old,
            fault,
        } => numbered_locale(given.tables, 0, fault),
        Refusal::Side {
            side: Side::New,
            fault,
        } => numbered_locale(given.tables, 1, fault),
        _ => None,
    }
}

/// Returns the locale whose table has a text that is not UTF-8, if that is the fault of the table
/// with this index.
fn numbered_locale<'a>(
    tables: &[GivenTable<'a>],
    index: usize,
    fault: &TableFault,
) -> Option<&'a str>
    ensures { option_copied result ≡ words.numbered_locale tables.now index fault.now }
{
    match tables.get(index) {
        Some(table) => table_locale(table, fault),
        None => None,
    }
}

/// Returns the locale whose table has a text that is not UTF-8, if that is the fault of this table.
fn table_locale<'a>(table: &GivenTable<'a>, fault: &TableFault) -> Option<&'a str>
    ensures { option_copied result ≡ words.table_locale table.now fault.now }
{
    match source_not_utf8(fault) {
        Some(source) => locale_of_source(table, source),
        None => None,
    }
}

/// Returns the locale whose table is the source with this index.
fn locale_of_source<'a>(table: &GivenTable<'a>, source: usize) -> Option<&'a str>
    ensures { option_copied result ≡ words.locale_of_source table.now source }
{
    match table.paths.get(source) {
        Some(path) => locale_at(table.locale, path),
        None => None,
    }
}

/// Returns the name of this locale, if its table is at this path.
fn locale_at<'a>(locale: Option<&'a LocaleTable>, path: &str) -> Option<&'a str>
    ensures { option_copied result ≡ words.locale_at path.now (option_copied locale.entry) }
{
    match locale {
        Some(locale) if locale.path.as_str() == path => Some(locale.name.as_str()),
        _ => None,
    }
}

/// Returns the argument with this index, or an empty text if there is none.
fn argument_text<'a>(arguments: &'a [&'a str], index: usize) -> &'a str
    ensures { result.now ≡ words.argument_text (map (λ a. a.now) arguments.now) index }
{
    match arguments.get(index) {
        Some(argument) => argument,
        None => "",
    }
}

/// Returns the text that was written instead of a keysym's name, at a fault of the table with this
/// index.
fn table_text<'a>(given: &Given<'a>, index: usize, fault: &TableFault) -> &'a str
    ensures { result.now ≡ words.numbered_text given.now index fault.now }
{
    match given.tables.get(index) {
        Some(table) => text_in_place(table.input.sources, fault),
        None => "",
    }
}

/// Returns the hint for a refusal, if one helps, except for the hint with the name of a key.
fn refusal_hint(given: &Given<'_>, refusal: &Refusal) -> Option<Hint>
    ensures { result ≡ words.refusal_hint given.now refusal.now }
{
    let are_given = has_headers(given);
    match refusal {
        Refusal::Names(fault) => header_hint(fault),
        Refusal::Key { index } => key_hint(given.arguments, are_given, *index),
        Refusal::Table(fault) => numbered_hint(given.tables, are_given, 0, fault),
        Refusal::Side {
            side: Side::Old,
            fault,
        } => numbered_hint(given.tables, are_given, 0, fault),
        Refusal::Side {
            side: Side::New,
            fault,
        } => numbered_hint(given.tables, are_given, 1, fault),
        Refusal::Repertoire(fault) => repertoire_hint(given.repertoire_text, fault),
        Refusal::Certificate(fault) => certificate_hint(given.certificate_text, fault),
        _ => None,
    }
}

/// Returns whether files of names are given.
fn has_headers(given: &Given<'_>) -> bool
    ensures { result ≡ not (words.is_unnamed given.now) }
{
    !given.headers.is_empty()
}

/// Returns the hint for a fault of the table with this index.
fn numbered_hint(
    tables: &[GivenTable<'_>],
    are_given: bool,
    index: usize,
    fault: &TableFault,
) -> Option<Hint>
    ensures { result ≡ words.numbered_hint are_given tables.now index fault.now }
{
    match tables.get(index) {
        Some(table) => table_hint(table.input.sources, fault, are_given),
        None => None,
    }
}

/// Adds the lines of a refusal, without its hint.
fn push_refusal(
    alloc: Global,
    text: &mut String,
    given: &Given<'_>,
    refusal: &Refusal,
) -> Result<(), AllocError>
    ensures { OnOk result
        (string_bytes text.new
        ≡ string_bytes text.old ++ words.refusal_lines given.now refusal.now) }
{
    match refusal {
        Refusal::Names(fault) => push_name_fault(text, given.headers, fault),
        Refusal::Key { index } => push_argument(text, given.arguments, *index),
        Refusal::Table(fault) => push_table(alloc, text, given, 0, fault),
        Refusal::Side {
            side: Side::Old,
            fault,
        } => push_table(alloc, text, given, 0, fault),
        Refusal::Side {
            side: Side::New,
            fault,
        } => push_table(alloc, text, given, 1, fault),
        Refusal::Repertoire(fault) => push_words(text, given.repertoire, &repertoire_words(fault)),
        Refusal::Certificate(fault) => {
            push_words(text, given.certificate, &certificate_words(fault))
        }
        Refusal::Fresh(fault) => push_fresh_fault(alloc, text, given, fault),
        Refusal::TooManyFresh => push_remark(
            text,
            &Message::Plain("there are more than 1,048,576 fresh keysyms"),
        ),
        Refusal::NoMemory => Ok(()),
    }
}

/// Adds the message for a line of a file, or for the whole file.
pub(crate) fn push_words(
    text: &mut String,
    path: &str,
    sentence: &FaultWords,
) -> Result<(), AllocError>
    ensures { OnOk result
        (string_bytes text.new
        ≡ string_bytes text.old ++ words.words_line path.now sentence.now.line sentence.now.words.now) }
{
    let position = match sentence.line {
        Some(line) => whole_line(line),
        None => None,
    };
    push_line(text, path, position, &Message::Plain(sentence.words))
}

/// Adds the line of a hint, if there is one. O(1).
///
/// Errors: `AllocError` if memory runs out.
pub fn push_hint(text: &mut String, hint: Option<Hint>) -> Result<(), AllocError>
    ensures { OnOk result
        (string_bytes text.new ≡ string_bytes text.old ++ words.hint_line hint) }
{
    if let Some(hint) = hint {
        writeln!(text, "{hint}")?;
    }
    Ok(())
}

/// Adds the message for a fault of the names.
fn push_name_fault(
    text: &mut String,
    headers: &[Header<'_>],
    fault: &NameFault,
) -> Result<(), AllocError>
    ensures { OnOk result
        (string_bytes text.new
        ≡ string_bytes text.old ++ words.name_lines headers.now fault.now) }
{
    let sentence = name_words(fault);
    let found = match sentence.line {
        Some(line) => header_line(headers, line),
        None => None,
    };
    let message = Message::Plain(sentence.words);
    match found {
        Some((header, line)) => push_line(text, header.path, whole_line(line), &message),
        None => push_remark(text, &message),
    }
}

/// Adds that the argument with this index names no keysym, if there is such an argument.
fn push_argument(text: &mut String, arguments: &[&str], index: usize) -> Result<(), AllocError>
    ensures { OnOk result
        (string_bytes text.new
        ≡ string_bytes text.old
        ++ words.argument_line (map (λ a. a.now) arguments.now) index) }
{
    match arguments.get(index) {
        Some(argument) => push_remark(text, &Message::Naming("no keysym has the name ", argument)),
        None => Ok(()),
    }
}

/// Returns the hint for an argument that names no keysym.
fn key_hint(arguments: &[&str], are_given: bool, index: usize) -> Option<Hint>
    ensures { result ≡ words.key_hint are_given (map (λ a. a.now) arguments.now) index }
{
    match arguments.get(index) {
        Some(argument) => Some(name_hint(argument, are_given)),
        None => None,
    }
}

/// Adds the lines of a fault of the table with this index.
fn push_table(
    alloc: Global,
    text: &mut String,
    given: &Given<'_>,
    index: usize,
    fault: &TableFault,
) -> Result<(), AllocError>
    ensures { OnOk result
        (string_bytes text.new
        ≡ string_bytes text.old ++ words.numbered_lines given.now index fault.now) }
{
    match given.tables.get(index) {
        Some(table) => push_by_header(alloc, text, given.header, table, fault),
        None => Ok(()),
    }
}

/// Adds the lines of a fault of a table, which is read with the names of this header.
fn push_by_header(
    alloc: Global,
    text: &mut String,
    header: &[u8],
    table: &GivenTable<'_>,
    fault: &TableFault,
) -> Result<(), AllocError>
    ensures { OnOk result
        (string_bytes text.new
        ≡ string_bytes text.old ++ words.lines_by table.now fault.now (names_of header.now)) }
{
    match Names::read(alloc, header) {
        Ok(names) => push_fault_lines(alloc, text, &names, table, fault),
        Err(NameFault::NoMemory) => Err(AllocError),
        Err(_) => Ok(()),
    }
}

/// Adds the lines of a fault of a table.
fn push_fault_lines(
    alloc: Global,
    text: &mut String,
    names: &Names,
    table: &GivenTable<'_>,
    fault: &TableFault,
) -> Result<(), AllocError>
    ensures { OnOk result
        (string_bytes text.new
        ≡ string_bytes text.old ++ words.fault_lines names.now table.now fault.now) }
{
    match fault {
        TableFault::Read(fault) => push_faulty_lines(alloc, text, names, table, fault),
        TableFault::Settle(SettleFault::Overlap { short, long }) => {
            push_overlap(alloc, text, names, table, &short.0, &long.0)
        }
        TableFault::Build(_) => push_line(
            text,
            table.manifest,
            None,
            &Message::Plain("the sequences have more than 1,048,576 nodes"),
        ),
        TableFault::Settle(SettleFault::NoMemory) | TableFault::NoMemory => Ok(()),
    }
}

/// Adds the line of a fault of the fresh keysyms.
fn push_fresh_fault(
    alloc: Global,
    text: &mut String,
    given: &Given<'_>,
    fault: &CheckFault,
) -> Result<(), AllocError>
    ensures { OnOk result
        (string_bytes text.new ≡ string_bytes text.old ++ words.fresh_lines given.now fault.now) }
{
    match fault {
        CheckFault::FreshIgnored { keysym } => push_keysyms(
            alloc,
            text,
            given.header,
            "a compose state ignores the keysym",
            &[*keysym],
        ),
        CheckFault::FreshUsed { keysym } => push_keysyms(
            alloc,
            text,
            given.header,
            "a sequence of the old table has the keysym",
            &[*keysym],
        ),
        _ => Ok(()),
    }
}

/// Adds a line of these words and the keysyms, written like events of a table; nothing if there are
/// no keysyms.
pub(crate) fn push_keysyms(
    alloc: Global,
    text: &mut String,
    header: &[u8],
    sentence: &str,
    keysyms: &[Keysym],
) -> Result<(), AllocError>
    ensures { OnOk result
        (string_bytes text.new
        ≡ string_bytes text.old
        ++ words.keysyms_line sentence.now keysyms.now (names_of header.now)) }
{
    match Names::read(alloc, header) {
        Ok(names) => push_named(alloc, text, &names, sentence, keysyms),
        Err(NameFault::NoMemory) => Err(AllocError),
        Err(_) => Ok(()),
    }
}

/// Adds a line of these words and the keysyms by these names; nothing if there are no keysyms.
fn push_named(
    alloc: Global,
    text: &mut String,
    names: &Names,
    sentence: &str,
    keysyms: &[Keysym],
) -> Result<(), AllocError>
    ensures { OnOk result
        (string_bytes text.new
        ≡ string_bytes text.old ++ words.named_line names.now sentence.now keysyms.now) }
{
    if keysyms.is_empty() {
        return Ok(());
    }
    text.push_str("composecheck: ")?;
    text.push_str(sentence)?;
    push_events(alloc, text, names, keysyms)?;
    text.push_str("\n")
}
