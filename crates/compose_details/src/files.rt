//! Manifests, includes and files of names.
ghost use Rattle.std.specs.Prelude.{◌≡◌, IfOk, string_bytes};
ghost use Rattle.std.specs.Option.{option_map};
ghost use Rattle.compose_messages.specs.Messages.{file_text};
ghost use Rattle.compose_details.specs.Files as words;

use crate::lines::whole_line;
use crate::refusal::{push_hint, push_words};
use compose_find::{FindFault, IncludeFault};
use compose_manifest::ManifestFault;
use compose_messages::{FileMessage, Message, manifest_hint, manifest_words};
use std::alloc::{AllocError, Global};

/// Returns what `-v` prints of a fault in the manifest at this path with these bytes: the faulty
/// line, and a hint if the file is a table. O(bytes).
///
/// Errors: `AllocError` if memory runs out.
pub fn manifest_details(
    alloc: Global,
    path: &str,
    bytes: &[u8],
    fault: &ManifestFault,
) -> Result<String, AllocError>
    ensures { IfOk result
        (λ text. string_bytes text ≡ words.manifest_lines path.now bytes.now fault.now) }
{
    let mut text = String::new(alloc);
    push_words(&mut text, path, &manifest_words(fault))?;
    push_hint(&mut text, manifest_hint(path, bytes, fault))?;
    Ok(text)
}

/// Returns the message for an include that leads to no file: its place, and the reason. `None` for
/// any other fault. O(1).
pub fn find_message(fault: &FindFault) -> Option<FileMessage<'_>>
    ensures { option_map (λ reported. file_text reported) result ≡ words.found_include_message fault.now }
{
    match fault {
        FindFault::MissingFile { from, line, path } => Some(FileMessage {
            path: from,
            position: whole_line(*line),
            message: Message::Quoting("can't open the included file ", path),
        }),
        FindFault::Include { from, line, fault } => Some(FileMessage {
            path: from,
            position: whole_line(*line),
            message: Message::Plain(include_words(fault)),
        }),
        _ => None,
    }
}

/// Returns the words for the reason why an include leads to no file.
fn include_words(fault: &IncludeFault) -> &'static str
    ensures { result.now ≡ words.include_message fault.now }
{
    match fault {
        IncludeFault::Text { .. } => "the string of the include is no text",
        IncludeFault::UnknownPercent => "none of %, S, L and H follows the percent sign",
        IncludeFault::NoLocale => "%L stands for the table of a locale, and none is known",
        IncludeFault::NoHome => "%H stands for the home folder, and none is known",
        IncludeFault::TwoFiles => "the same string led to another file before",
        IncludeFault::TooManySources => "there are more than 64 files",
        IncludeFault::IncludeDepth => "more than eight includes lead to this file",
        IncludeFault::NoMemory => "out of memory",
    }
}
