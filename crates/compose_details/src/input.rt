//! Why an input of a command can't be read, as lines.
ghost use Rattle.std.specs.Prelude.{◌≡◌, ◌++◌, ℕ, List, flat_map, IfOk, OnOk, string_bytes};
ghost use Rattle.compose_details.specs.Input as words;

use crate::files::{find_message, manifest_details};
use crate::lines::push_line;
use crate::refusal::push_hint;
use compose_find::FindFault;
use compose_input::{Fault, Unopened};
use compose_messages::{Hint, Message, include_hint, open_words, socket_words, source_words};
use compose_shown::Shown;
use std::alloc::{AllocError, Global};
use std::fmt::Write;
use std::io::ErrorKind;

/// Returns the lines that report why an input of a command can't be read: the refusal, and with
/// `verbose` also the place of the fault and the reason. O(bytes of a refused manifest).
///
/// Errors: `AllocError` if memory runs out.
pub fn fault_text(alloc: Global, verbose: bool, fault: &Fault) -> Result<String, AllocError>
    ensures { IfOk result
        (λ text. (own : List ℕ) × (string_bytes text ≡ words.fault_lines own verbose fault.now)) }
{
    let own = own_text(alloc, fault)?;
    fault_lines(alloc, verbose, fault, &own)
}

/// Returns the lines that report to people why an input of a command can't be read: the place of
/// the fault and the reason, or the refusal alone if nothing more is known. O(bytes of a refused
/// manifest).
///
/// Errors: `AllocError` if memory runs out.
pub fn fault_words(alloc: Global, fault: &Fault) -> Result<String, AllocError>
    ensures { IfOk result
        (λ text. (own : List ℕ) × (string_bytes text ≡ words.fault_words own fault.now)) }
{
    let own = own_text(alloc, fault)?;
    worded_lines(alloc, fault, &own)
}

/// Returns the same lines, by the text that the fault is printed as.
fn worded_lines(alloc: Global, fault: &Fault, own: &str) -> Result<String, AllocError>
    ensures { IfOk result (λ text. string_bytes text ≡ words.fault_words own.now fault.now) }
{
    let mut details = String::new(alloc);
    push_details(alloc, &mut details, fault)?;
    match details.as_bytes().first() {
        Some(_) => Ok(details),
        None => refusal_line(alloc, fault, own),
    }
}

/// Returns the text that the fault of a manifest, of a source or of a search is printed as; an
/// empty text for any other fault.
fn own_text(alloc: Global, fault: &Fault) -> Result<String, AllocError> {
    match fault {
        Fault::Manifest { fault, .. } => format!(in alloc; "{fault}"),
        Fault::Source { fault, .. } => format!(in alloc; "{fault}"),
        Fault::Find { fault, .. } => format!(in alloc; "{fault}"),
        _ => Ok(String::new(alloc)),
    }
}

/// Returns the lines of `fault_text`, by the text that the fault is printed as.
fn fault_lines(alloc: Global, verbose: bool, fault: &Fault, own: &str) -> Result<String, AllocError>
    ensures { IfOk result
        (λ text. string_bytes text ≡ words.fault_lines own.now verbose fault.now) }
{
    let mut text = refusal_line(alloc, fault, own)?;
    if verbose {
        push_details(alloc, &mut text, fault)?;
    }
    Ok(text)
}

/// Returns the line that refuses the input. Its path may come from an untrusted file.
fn refusal_line(alloc: Global, fault: &Fault, own: &str) -> Result<String, AllocError>
    ensures { IfOk result (λ text. string_bytes text ≡ words.refusal_line own.now fault.now) }
{
    match fault {
        Fault::Unread(Unopened { path, .. }) | Fault::Unwritten(Unopened { path, .. }) => {
            format!(in alloc; "refused: file: {path}\n", path = Shown(path))
        }
        Fault::Manifest { .. } => format!(in alloc; "refused: manifest: {own}\n"),
        Fault::Source { part, .. } => format!(in alloc; "refused: {part}: {own}\n"),
        Fault::Socket(Unopened { path, .. }) => {
            format!(in alloc; "refused: socket: {path}\n", path = Shown(path))
        }
        Fault::Find { .. } => format!(in alloc; "refused: find: {own}\n", own = Shown(own)),
        Fault::Refused { part, text } => {
            format!(in alloc; "refused: {part}: {text}\n", text = Shown(text))
        }
        Fault::Word => String::from_str(alloc, "refused: word: not UTF-8\n"),
        Fault::NoMemory => String::from_str(alloc, "out of memory\n"),
    }
}

/// Adds the place of the fault and the reason.
fn push_details(alloc: Global, text: &mut String, fault: &Fault) -> Result<(), AllocError>
    ensures { OnOk result
        (string_bytes text.new ≡ string_bytes text.old ++ words.fault_details fault.now) }
{
    match fault {
        Fault::Unread(unopened) => push_unopened(text, unopened),
        Fault::Unwritten(unopened) => push_unwritten(text, unopened),
        Fault::Manifest { path, bytes, fault } => {
            text.push_str(&manifest_details(alloc, path, bytes, fault)?)
        }
        Fault::Source { path, fault, .. } => {
            push_line(text, path, None, &Message::Plain(source_words(*fault)))
        }
        Fault::Find { fault, tried } => push_search(text, fault, tried),
        Fault::Socket(unopened) => push_socket(text, unopened),
        Fault::Refused { .. } | Fault::Word | Fault::NoMemory => Ok(()),
    }
}

/// Adds which include leads to no file, why nothing is read at each place where its file was
/// searched for, and a hint if one helps.
fn push_search(text: &mut String, fault: &FindFault, tried: &[Unopened]) -> Result<(), AllocError>
    ensures { OnOk result
        (string_bytes text.new
        ≡ string_bytes text.old
        ++ words.search_lines fault.now tried.now) }
{
    push_include(text, fault)?;
    push_tried(text, tried)?;
    push_hint(text, find_hint(fault))
}

/// Returns the hint for an include that leads to no file, if one helps.
fn find_hint(fault: &FindFault) -> Option<Hint>
    ensures { result ≡ words.find_hint fault.now }
{
    match fault {
        FindFault::MissingFile { path, .. } => include_hint(path),
        _ => None,
    }
}

/// Adds which include leads to no file, if the fault concerns an include.
fn push_include(text: &mut String, fault: &FindFault) -> Result<(), AllocError>
    ensures { OnOk result
        (string_bytes text.new ≡ string_bytes text.old ++ words.include_line fault.now) }
{
    if let Some(message) = find_message(fault) {
        writeln!(text, "{message}")?;
    }
    Ok(())
}

/// Adds why nothing is read at each of these paths.
fn push_tried(text: &mut String, tried: &[Unopened]) -> Result<(), AllocError>
    ensures { OnOk result
        (string_bytes text.new
        ≡ string_bytes text.old ++ flat_map words.unopened_line tried.now) }
{
    for unopened in tried {
        push_unopened(text, unopened)?;
    }
    Ok(())
}

/// Adds why nothing is read at a path.
fn push_unopened(text: &mut String, unopened: &Unopened) -> Result<(), AllocError>
    ensures { OnOk result
        (string_bytes text.new ≡ string_bytes text.old ++ words.unopened_line unopened.now) }
{
    push_line(
        text,
        &unopened.path,
        None,
        &Message::Plain(open_words(unopened.kind)),
    )
}

/// Adds why a file can't be written.
fn push_unwritten(text: &mut String, unopened: &Unopened) -> Result<(), AllocError>
    ensures { OnOk result
        (string_bytes text.new ≡ string_bytes text.old ++ words.unwritten_line unopened.now) }
{
    push_line(
        text,
        &unopened.path,
        None,
        &Message::Plain(write_words(unopened.kind)),
    )
}

/// Returns the message for a file that can't be written.
fn write_words(kind: ErrorKind) -> &'static str
    ensures { result.now ≡ words.write_message kind }
{
    match kind {
        ErrorKind::NotFound => "can't be written: no such folder",
        ErrorKind::PermissionDenied => "can't be written: permission denied",
        ErrorKind::ReadOnlyFilesystem => "can't be written: the file system is read-only",
        ErrorKind::StorageFull => "can't be written: no space left",
        _ => "can't be written",
    }
}

/// Adds why a socket can't be used.
fn push_socket(text: &mut String, unopened: &Unopened) -> Result<(), AllocError>
    ensures { OnOk result
        (string_bytes text.new ≡ string_bytes text.old ++ words.socket_line unopened.now) }
{
    push_line(
        text,
        &unopened.path,
        None,
        &Message::Plain(socket_words(unopened.kind)),
    )
}
