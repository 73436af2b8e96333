//! The search for the files of a table, over the answers from C.
ghost use Rattle.std.specs.Prelude.{◌≡◌, ◌<◌, ◌≤◌, ◌≢◌, ◌⊎◌, ◌∷◌, [], IfOk, MatchResult, length, map, take, option_copied, option_map};
ghost use Rattle.compose_find.specs.FindReturns.{words};
ghost use Rattle.compose_find.specs.Found.{held};
ghost use Rattle.compose_find.specs.Sources.{AreHeld};
ghost use Rattle.compose_c.specs.Faults as numbers;
ghost use Rattle.compose_c.specs.Finds as finds;
ghost use Rattle.compose_c.specs.Finds.{IsBundled, IsSearchResult, IsSearchResultOf, FailsSearch, Finds, Wants, Needs, ReportsFind, search_by, search_of, words_of};

use crate::answers::{FileAnswer, answer_for, files_of, held_at, read_answers};
use crate::copies::put;
use crate::fault::{FaultRecord, of_lexical, of_part};
use crate::pieces::text_of;
use compose_bundle::{BundleFault, write_bundle};
use compose_find::{
    Files, FindFault, FoundSource, FoundTable, IncludeFault, Meanings, find_sources,
};
use compose_messages::fault_position;
use compose_read::{ReadFault, Sources};
use std::alloc::{AllocError, Global};

/// The result of a search that does not fail.
#[derive(Drop)]
pub enum SearchResult {
    /// All files are found: the bundle of the sources and the certificate.
    Found(Vec<u8>),
    /// The path that has to be looked for next.
    Wanted(String),
}

/// Returns the path, or `None` if it is empty.
fn known(path: &str) -> Option<&str>
    ensures { option_copied result ≡ finds.known path.now }
{
    if path.is_empty() {
        return None;
    }
    Some(path)
}

/// Returns the expansions of `%S`, `%L` and `%H`, and the folder in which absolute paths are looked
/// for first; `None` if a path is not UTF-8.
fn meanings_of<'a>(
    system: &'a [u8],
    locale: &'a [u8],
    home: &'a [u8],
    sysroot: &'a [u8],
) -> Option<Meanings<'a>>
    ensures { option_map words result ≡ words_of system.now locale.now home.now sysroot.now }
{
    Some(Meanings {
        system: text_of(system)?,
        locale: known(text_of(locale)?),
        home: known(text_of(home)?),
        root: known(text_of(sysroot)?),
    })
}

/// Does the work of `composecheck_find`.
#[tactic(auto, using(crate::proofs::Searched::found_put, crate::proofs::Searched::wanted_put, crate::proofs::Searched::needs))]
pub fn find(
    alloc: Global,
    answers: &[u8],
    root: &[u8],
    system: &[u8],
    locale: &[u8],
    home: &[u8],
    sysroot: &[u8],
    certificate: &[u8],
    target: &mut [u8],
    target_length: &mut usize,
    fault: &mut FaultRecord,
) -> u32
    ensures found { result ≡ 0 → Finds
        (search_of answers.now root.now system.now locale.now home.now sysroot.now)
        certificate.now (take target_length.new target.new) }
    ensures refused { result ≡ 1 → ReportsFind
        (search_of answers.now root.now system.now locale.now home.now sysroot.now)
        certificate.now fault.new }
    ensures wide { result ≡ 2 → length target.old < target_length.new }
    ensures needed { result ≡ 2 → Needs
        (search_of answers.now root.now system.now locale.now home.now sysroot.now)
        certificate.now target_length.new }
    ensures wanted { result ≡ 3 → Wants
        (search_of answers.now root.now system.now locale.now home.now sysroot.now)
        (take target_length.new target.new) }
    ensures few { result ≤ 3 }
    ensures untouched { result ≢ 0 → result ≢ 3 → target.new ≡ target.old }
    ensures same_length { result ≡ 1 → target_length.new ≡ target_length.old }
    ensures same_fault { result ≢ 1 → fault.new ≡ fault.old }
{
    match search(
        alloc,
        answers,
        root,
        system,
        locale,
        home,
        sysroot,
        certificate,
    ) {
        Ok(search_result) => put_search_result(&search_result, target, target_length),
        Err(refused) => {
            *fault = refused;
            1
        }
    }
}

/// Puts the result of the search into the caller's memory, and returns its number; 2 if it doesn't
/// fit.
fn put_search_result(
    search_result: &SearchResult,
    target: &mut [u8],
    target_length: &mut usize,
) -> u32
    ensures length { target_length.new ≡ length (finds.search_result_bytes search_result.now) }
    ensures wide { result ≡ 2 → length target.old < target_length.new }
    ensures number { result ≢ 2 → result ≡ finds.search_result_number search_result.now }
    ensures bytes { result ≢ 2
        → take target_length.new target.new ≡ finds.search_result_bytes search_result.now }
    ensures few { result ≤ 3 }
    ensures untouched { result ≡ 2 → target.new ≡ target.old }
{
    let bytes = search_result_bytes(search_result);
    *target_length = bytes.len();
    if bytes.len() > target.len() {
        return 2;
    }
    put(bytes, target);
    search_result_number(search_result)
}

/// Returns the bytes of the bundle or of the path.
fn search_result_bytes(search_result: &SearchResult) -> &[u8]
    ensures { result.now ≡ finds.search_result_bytes search_result.now }
{
    match search_result {
        SearchResult::Found(bytes) => bytes.as_slice(),
        SearchResult::Wanted(path) => path.as_bytes(),
    }
}

/// Returns the number for C: 0 for a bundle, 3 for a path.
fn search_result_number(search_result: &SearchResult) -> u32
    ensures { result ≡ finds.search_result_number search_result.now }
{
    match search_result {
        SearchResult::Found(_) => 0,
        SearchResult::Wanted(_) => 3,
    }
}

/// Searches with the answers in a payload and these paths. `Err` with the fault for C if the search
/// fails.
#[tactic(auto, using(crate::proofs::Searched::passed_on, crate::proofs::Searched::whole))]
fn search(
    alloc: Global,
    answers: &[u8],
    root: &[u8],
    system: &[u8],
    locale: &[u8],
    home: &[u8],
    sysroot: &[u8],
    certificate: &[u8],
) -> Result<SearchResult, FaultRecord>
    ensures { MatchResult result
        (λ search_result. IsSearchResultOf
        (search_of answers.now root.now system.now locale.now home.now sysroot.now)
        certificate.now search_result)
        (λ fault. ReportsFind
        (search_of answers.now root.now system.now locale.now home.now sysroot.now)
        certificate.now fault) }
{
    let Ok(read) = read_answers(alloc, answers) else {
        return Err(of_part(6, 0));
    };
    let Some(answers) = read else {
        return Err(of_part(10, 1));
    };
    let Some(root) = text_of(root) else {
        return Err(of_part(10, 1));
    };
    let Some(meanings) = meanings_of(system, locale, home, sysroot) else {
        return Err(of_part(10, 1));
    };
    search_over(alloc, &answers, meanings, root, certificate)
}

/// Searches with these answers.
fn search_over(
    alloc: Global,
    answers: &[FileAnswer<'_>],
    meanings: Meanings<'_>,
    root: &str,
    certificate: &[u8],
) -> Result<SearchResult, FaultRecord>
    ensures { MatchResult result
        (λ search_result. IsSearchResult (search_by answers.now (words meanings.entry) root.now)
        certificate.now search_result)
        (λ fault. FailsSearch (search_by answers.now (words meanings.entry) root.now)
        certificate.now fault) }
{
    let Ok(files) = files_of(alloc, answers) else {
        return Err(of_part(6, 0));
    };
    match find_sources(alloc, &files, meanings, root) {
        Ok(found) => bundle_found(alloc, files, found, certificate),
        Err(FindFault::Wanted { path }) => Ok(SearchResult::Wanted(path)),
        Err(FindFault::MissingRoot { path }) => Err(of_missing_root(answers, &path)),
        Err(FindFault::MissingFile { from, line, .. }) => {
            Err(of_missing_file(alloc, answers, &from, line))
        }
        Err(FindFault::Include { from, line, fault }) => {
            Err(of_include(alloc, answers, &from, line, fault))
        }
        Err(FindFault::NoMemory) => Err(of_part(6, 0)),
    }
}

/// Returns the bundle of the sources that were found among these files, and of this certificate.
fn bundle_found(
    alloc: Global,
    files: Files,
    found: Vec<FoundSource>,
    certificate: &[u8],
) -> Result<SearchResult, FaultRecord>
    requires { AreHeld files found.items }
    ensures { IsBundled
        (record { sources = map (held files) found.items; certificate = certificate.now })
        result }
{
    match FoundTable::new(alloc, files, found) {
        Ok(table) => bundle_of(alloc, &table.sources, certificate),
        Err(_) => Err(of_part(6, 0)),
    }
}

/// Returns the bundle of these sources and this certificate.
fn bundle_of(
    alloc: Global,
    sources: &Sources,
    certificate: &[u8],
) -> Result<SearchResult, FaultRecord>
    ensures { IsBundled (record { sources = sources.now; certificate = certificate.now }) result }
{
    match write_bundle(alloc, sources, certificate) {
        Ok(bytes) => Ok(SearchResult::Found(bytes)),
        Err(BundleFault::TooLarge) => Err(of_part(2, 2)),
        Err(BundleFault::NoMemory) => Err(of_part(6, 0)),
        Err(BundleFault::Form) => unreachable!(),
    }
}

/// Returns the fault of the file at this path.
fn in_answer(
    answers: &[FileAnswer<'_>],
    from: &str,
    line: usize,
    column: usize,
    code: u32,
) -> FaultRecord
    ensures { result ≡ finds.in_answer answers.now from.now line column code }
{
    let mut reported = of_part(10, code);
    reported.source = answer_for(answers, from) as u64;
    reported.line = line as u64;
    reported.column = column as u64;
    reported
}

/// Returns the fault that there is no file at the root's path.
fn of_missing_root(answers: &[FileAnswer<'_>], path: &str) -> FaultRecord
    ensures { result ≡ finds.of_missing_root answers.now path.now }
{
    in_answer(answers, path, 0, 0, 2)
}

/// Returns the fault that there is no file for an include.
fn of_missing_file(
    alloc: Global,
    answers: &[FileAnswer<'_>],
    from: &str,
    line: usize,
) -> FaultRecord
    ensures { (result ≡ numbers.of_part 6 0)
        ⊎ (result ≡ finds.of_missing_file answers.now from.now line) }
{
    let read = ReadFault::MissingInclude { source: 0, line };
    match column_in(alloc, answers, from, &read) {
        Ok(column) => in_answer(answers, from, line, column, 3),
        Err(_) => of_part(6, 0),
    }
}

/// Returns the fault that an include can't be resolved.
fn of_include(
    alloc: Global,
    answers: &[FileAnswer<'_>],
    from: &str,
    line: usize,
    fault: IncludeFault,
) -> FaultRecord
    ensures { (result ≡ numbers.of_part 6 0)
        ⊎ (result ≡ finds.of_include answers.now from.now line fault) }
{
    let code = include_code(&fault);
    let (lexical, at) = include_lexical(&fault);
    let read = as_read(line, fault);
    match column_in(alloc, answers, from, &read) {
        Ok(column) => {
            let mut reported = in_answer(answers, from, line, column, code);
            reported.lexical = lexical;
            reported.at = at as u64;
            reported
        }
        Err(_) => of_part(6, 0),
    }
}

/// Returns the code of the reason why an include can't be resolved.
fn include_code(fault: &IncludeFault) -> u32
    ensures { result ≡ finds.include_code fault.now }
{
    match fault {
        IncludeFault::Text { .. } => 4,
        IncludeFault::UnknownPercent => 5,
        IncludeFault::NoLocale => 6,
        IncludeFault::NoHome => 7,
        IncludeFault::TwoFiles => 8,
        IncludeFault::TooManySources => 9,
        IncludeFault::IncludeDepth => 10,
        IncludeFault::NoMemory => 11,
    }
}

/// Returns the number of the lexical fault in the text of an include, and its offset in bytes;
/// zeros if there is none.
fn include_lexical(fault: &IncludeFault) -> (u32, usize)
    ensures number { result.0 ≡ finds.include_lexical fault.now }
    ensures place { result.1 ≡ finds.include_place fault.now }
{
    match fault {
        IncludeFault::Text { fault } => of_lexical(fault),
        IncludeFault::UnknownPercent => (0, 0),
        IncludeFault::NoLocale => (0, 0),
        IncludeFault::NoHome => (0, 0),
        IncludeFault::TwoFiles => (0, 0),
        IncludeFault::TooManySources => (0, 0),
        IncludeFault::IncludeDepth => (0, 0),
        IncludeFault::NoMemory => (0, 0),
    }
}

/// Returns the fault with which reading the file would reject the include; it has the include's
/// column.
fn as_read(line: usize, fault: IncludeFault) -> ReadFault
    ensures { result ≡ finds.as_read line fault }
{
    match fault {
        IncludeFault::Text { fault } => ReadFault::Lex {
            source: 0,
            line,
            fault,
        },
        IncludeFault::UnknownPercent => ReadFault::MissingInclude { source: 0, line },
        IncludeFault::NoLocale => ReadFault::MissingInclude { source: 0, line },
        IncludeFault::NoHome => ReadFault::MissingInclude { source: 0, line },
        IncludeFault::TwoFiles => ReadFault::MissingInclude { source: 0, line },
        IncludeFault::TooManySources => ReadFault::MissingInclude { source: 0, line },
        IncludeFault::IncludeDepth => ReadFault::MissingInclude { source: 0, line },
        IncludeFault::NoMemory => ReadFault::MissingInclude { source: 0, line },
    }
}

/// Returns the column of a fault in the file at this path, in characters from 1; 0 if the fault is
/// not on a line. `Err` if memory runs out.
fn column_in(
    alloc: Global,
    answers: &[FileAnswer<'_>],
    from: &str,
    fault: &ReadFault,
) -> Result<usize, AllocError>
    ensures { IfOk result (λ column. column ≡ finds.column_in answers.now from.now fault.now) }
{
    let sources = alone(alloc, held_at(answers, from).unwrap_or(&[]))?;
    match fault_position(&sources, fault) {
        Some((_, position)) => Ok(position.column),
        None => Ok(0),
    }
}

/// Returns one source of these bytes, without a name. `Err` if memory runs out.
fn alone(alloc: Global, bytes: &[u8]) -> Result<Sources<'static>, AllocError>
    ensures { IfOk result (λ sources. sources ≡ record { name = []; bytes = bytes.now } ∷ []) }
{
    let mut sources = Sources::new(alloc);
    match sources.add("", Vec::from_slice(alloc, bytes)?) {
        Ok(()) => Ok(sources),
        Err(_) => Err(AllocError),
    }
}
