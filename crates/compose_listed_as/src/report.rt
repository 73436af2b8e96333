//! What a reader doesn't take, in words.
ghost use Rattle.std.specs.Prelude.{◌≡◌, ◌++◌, ◌-◌, map, take, length, flat_map, IfOk, OnOk, string_bytes, codes};
ghost use Rattle.compose_listed_as.specs.Judged as judged_words;
ghost use Rattle.compose_listed_as.specs.Report as words;
ghost use Rattle.compose_readers.specs.Seen.{what_of};

use crate::judged::{Judged, others, taken_count};
use crate::line::push_place;
use compose_readers::xkbcommon::Version;
use compose_readers::{Definition, Fate, FileRead, Told, What};
use std::alloc::{AllocError, Global};
use std::fmt::Write;

/// The greatest number of lines for what isn't taken.
const MOST: usize = 20;

/// Returns the name of the reader.
pub(crate) fn reader_name(version: Version) -> &'static str
    ensures { result.now ≡ words.reader_name version }
{
    match version {
        Version::V1_5 => "libxkbcommon 1.5",
        Version::V1_7 => "libxkbcommon 1.7",
    }
}

/// Returns the report: a line for each of the first that aren't taken, how many follow, and how
/// many definitions are taken. O(bytes).
pub(crate) fn report(
    alloc: Global,
    version: Version,
    files: &[FileRead],
    all: &[Judged<'_, '_>],
) -> Result<String, AllocError>
    ensures { IfOk result
        (λ text. string_bytes text ≡ words.report version files.now all.now) }
{
    let others = others(alloc, all)?;
    report_of(alloc, version, files, all, &others)
}

/// Returns the report, given those that aren't taken.
fn report_of(
    alloc: Global,
    version: Version,
    files: &[FileRead],
    all: &[Judged<'_, '_>],
    others: &[&Judged<'_, '_>],
) -> Result<String, AllocError>
    requires { map (λ j. j.now) others.now ≡ judged_words.others all.now }
    ensures { IfOk result
        (λ text. string_bytes text ≡ words.report version files.now all.now) }
{
    let mut text = String::new(alloc);
    push_others(&mut text, files, all, first_of(others))?;
    push_end(
        &mut text,
        version,
        taken_count(all),
        others.len(),
        files.len(),
    )?;
    Ok(text)
}

/// Appends how many of the others follow, and how many definitions are taken, of this number of
/// taken ones, others and files.
fn push_end(
    text: &mut String,
    version: Version,
    taken: usize,
    other: usize,
    files: usize,
) -> Result<(), AllocError>
    ensures { OnOk result
        (string_bytes text.new ≡ string_bytes text.old ++ words.end_text version taken other files) }
{
    push_more(text, other.saturating_sub(MOST))?;
    push_summary(text, version, taken, other, files)
}

/// Returns those that have a line.
fn first_of<'o, 'a, 'j, 't>(others: &'o [&'a Judged<'j, 't>]) -> &'o [&'a Judged<'j, 't>]
    ensures { result.now ≡ take 20 others.now }
{
    &others[..others.len().min(MOST)]
}

/// Appends a line for each of these.
fn push_others(
    text: &mut String,
    files: &[FileRead],
    all: &[Judged<'_, '_>],
    others: &[&Judged<'_, '_>],
) -> Result<(), AllocError>
    ensures { OnOk result
        (string_bytes text.new
        ≡ string_bytes text.old
        ++ flat_map (λ j. words.other_line files.now all.now j.now) others.now) }
{
    for one in others {
        push_other(text, files, all, one)?;
    }
    Ok(())
}

/// Appends the line of one that isn't taken.
fn push_other(
    text: &mut String,
    files: &[FileRead],
    all: &[Judged<'_, '_>],
    one: &Judged<'_, '_>,
) -> Result<(), AllocError>
    ensures { OnOk result
        (string_bytes text.new
        ≡ string_bytes text.old ++ words.other_line files.now all.now one.now) }
{
    text.push_str("composecheck: ")?;
    let told = one.told;
    push_place(text, files, told)?;
    text.push_str(": ")?;
    push_reason(text, files, all, one.fate, told.what)?;
    text.push('\n')
}

/// Appends why something isn't taken.
fn push_reason(
    text: &mut String,
    files: &[FileRead],
    all: &[Judged<'_, '_>],
    fate: Fate,
    what: What<'_>,
) -> Result<(), AllocError>
    ensures { OnOk result
        (string_bytes text.new
        ≡ string_bytes text.old ++ words.reason files.now all.now fate (what_of what.entry)) }
{
    match what {
        What::Defines(definition) => push_fate(text, files, all, definition, fate),
        What::LeftOut(cause) => {
            text.push_str("left out: ")?;
            text.push_str(cause.words())
        }
        What::Includes(_) => text.push_str("included"),
    }
}

/// Appends what becomes of a definition.
fn push_fate(
    text: &mut String,
    files: &[FileRead],
    all: &[Judged<'_, '_>],
    definition: &Definition,
    fate: Fate,
) -> Result<(), AllocError>
    ensures { OnOk result
        (string_bytes text.new
        ≡ string_bytes text.old ++ words.fate_text files.now all.now definition.now fate) }
{
    match fate {
        Fate::Taken => text.push_str("taken"),
        Fate::Overridden(by) => push_overridden(text, files, all, definition, by),
        Fate::Behind(by) => {
            text.push_str("behind ")?;
            push_by(text, files, all, definition, by)
        }
        Fate::Full => push_full(text),
    }
}

/// Appends that this definition overrides it.
fn push_overridden(
    text: &mut String,
    files: &[FileRead],
    all: &[Judged<'_, '_>],
    definition: &Definition,
    by: usize,
) -> Result<(), AllocError>
    ensures { OnOk result
        (string_bytes text.new
        ≡ string_bytes text.old
        ++ (codes "overridden by " ++ words.by_text files.now all.now definition.now by)) }
{
    text.push_str("overridden by ")?;
    push_by(text, files, all, definition, by)
}

/// Appends that the table has no room for it.
fn push_full(text: &mut String) -> Result<(), AllocError>
    ensures { OnOk result
        (string_bytes text.new ≡ string_bytes text.old ++ codes "left out: the table is full") }
{
    text.push_str("left out: the table is full")
}

/// Appends which definition counts in the place of this one.
fn push_by(
    text: &mut String,
    files: &[FileRead],
    all: &[Judged<'_, '_>],
    definition: &Definition,
    by: usize,
) -> Result<(), AllocError>
    ensures { OnOk result
        (string_bytes text.new
        ≡ string_bytes text.old ++ words.by_text files.now all.now definition.now by) }
{
    match all.get(by) {
        Some(one) => push_counting(text, files, definition, one.told),
        None => Ok(()),
    }
}

/// Appends the place of the definition that counts in the place of this one.
fn push_counting(
    text: &mut String,
    files: &[FileRead],
    definition: &Definition,
    told: &Told<'_>,
) -> Result<(), AllocError>
    ensures { OnOk result
        (string_bytes text.new
        ≡ string_bytes text.old ++ words.counting_text files.now definition.now told.now) }
{
    push_longer(text, is_longer(definition, told))?;
    push_place(text, files, told)
}

/// Appends that it has more keys, if it has.
fn push_longer(text: &mut String, has_more_keys: bool) -> Result<(), AllocError>
    ensures { OnOk result
        (string_bytes text.new ≡ string_bytes text.old ++ words.longer_text has_more_keys) }
{
    if has_more_keys {
        text.push_str("the longer sequence of ")?;
    }
    Ok(())
}

/// Returns whether what is told is a definition with more keys than this one.
fn is_longer(definition: &Definition, told: &Told<'_>) -> bool
    ensures { result ≡ words.is_longer definition.now told.now }
{
    match told.what {
        What::Defines(other) => definition.keys.len() < other.keys.len(),
        What::LeftOut(_) | What::Includes(_) => false,
    }
}

/// Appends how many others follow, if any do.
fn push_more(text: &mut String, count: usize) -> Result<(), AllocError>
    ensures { OnOk result
        (string_bytes text.new ≡ string_bytes text.old ++ words.more_line count) }
{
    if count == 0 {
        return Ok(());
    }
    write!(text, "and {count} more\n")?;
    Ok(())
}

/// Appends how many definitions of how many files are taken, of this number of taken ones and of
/// others.
fn push_summary(
    text: &mut String,
    version: Version,
    taken: usize,
    other: usize,
    files: usize,
) -> Result<(), AllocError>
    ensures { OnOk result
        (string_bytes text.new
        ≡ string_bytes text.old ++ words.summary_line version taken other files) }
{
    let Some(all) = taken.checked_add(other) else {
        return Err(AllocError);
    };
    push_counts(text, version, taken, all)?;
    push_files(text, files)
}

/// Appends how many of all definitions are taken.
fn push_counts(
    text: &mut String,
    version: Version,
    taken: usize,
    all: usize,
) -> Result<(), AllocError>
    ensures { OnOk result
        (string_bytes text.new ≡ string_bytes text.old ++ words.counts_text version taken all) }
{
    let name = reader_name(version);
    write!(text, "{name} takes {taken} of {all} definitions of ")?;
    Ok(())
}

/// Appends how many files there are.
fn push_files(text: &mut String, count: usize) -> Result<(), AllocError>
    ensures { OnOk result
        (string_bytes text.new ≡ string_bytes text.old ++ words.files_text count) }
{
    if count == 1 {
        return text.push_str("1 file\n");
    }
    write!(text, "{count} files\n")?;
    Ok(())
}
