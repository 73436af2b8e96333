//! `check`: does a certificate show that the new table follows the old one?
ghost use Rattle.std.specs.Prelude.{◌≡◌, map};
ghost use Rattle.compose_check.specs.Input.{allowed_parts, parts_of};
ghost use Rattle.compose_check.specs.CheckReturns.{input_of};
ghost use Rattle.compose_migration.specs.Refused.{Returns};
ghost use Rattle.compose_tool.specs.Answers.{IsChecked, IsCheckedFor, first_not_among};

use compose_answer::{Answer, Refusal};
use compose_check::{CheckInput, CheckParts, Verdict};
use compose_tree::BuildTable;
use keysym_core::Keysym;
use std::alloc::Global;

/// Checks a certificate: the answer is `yes`, or the first condition that it does not meet. It
/// costs what reading the parts and `check` do.
///
/// The parts are read in the order names, old table, new table, repertoire, certificate. Errors:
/// the first of these that is refused; `NoMemory` if memory runs out.
pub fn check_migration<T: BuildTable>(
    alloc: Global,
    input: &CheckInput<'_>,
) -> Result<Answer, Refusal>
    ensures { Returns IsChecked result (parts_of (input_of input.entry.now)) }
{
    let parts: CheckParts<T> = CheckParts::read(alloc, input, &[])?;
    match parts.verdict() {
        Verdict::Yes => Ok(Answer::Yes(String::from_str(alloc, "yes\n")?)),
        Verdict::No(fault) => Ok(Answer::Invalid(fault)),
    }
}

/// Checks a certificate as `check_migration` does, and then that its fresh keysyms are all among
/// those of the key names: the certificate promises nothing for fresh keysyms, and its maker chose
/// them. It costs what `check_migration` does, and O(f w) for f fresh keysyms and w key names.
///
/// The key names are read after the names. Errors: the first part that is refused; `NoMemory` if
/// memory runs out.
pub fn check_allowed<T: BuildTable>(
    alloc: Global,
    input: &CheckInput<'_>,
    key_names: &[&str],
) -> Result<Answer, Refusal>
    ensures { Returns IsCheckedFor result
        (allowed_parts (map (λ word. word.now) key_names.now) (input_of input.entry.now)) }
{
    let parts: CheckParts<T> = CheckParts::read(alloc, input, key_names)?;
    let allowed = &parts.migration.keys;
    match parts.verdict() {
        Verdict::Yes => match first_not_allowed(parts.certificate.fresh_keys(), allowed) {
            Some(keysym) => Ok(Answer::FreshNotAllowed(keysym)),
            None => Ok(Answer::Yes(String::from_str(alloc, "yes\n")?)),
        },
        Verdict::No(fault) => Ok(Answer::Invalid(fault)),
    }
}

/// Returns the first of the keysyms that is not among the allowed ones.
fn first_not_allowed(keysyms: &[Keysym], allowed: &[Keysym]) -> Option<Keysym>
    ensures { result ≡ first_not_among allowed.now keysyms.now }
{
    keysyms
        .iter()
        .copied()
        .find(|keysym| !allowed.contains(keysym))
}
