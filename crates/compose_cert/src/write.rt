//! Writes a certificate's text line by line.
ghost use Rattle.std.specs.Prelude.{◌≡◌, [], ◌∷◌, ◌++◌, length, map, OnOk, string_bytes, IsTrue, codes, ◌&&◌, flat_map, if◌then◌else◌};
ghost use Rattle.std.specs.List.{list_all};
ghost use Rattle.keysym_core.specs.Keysym.{is_keysym};
ghost use Rattle.compose_cert.specs.Spelling.{counted, character_text, keysym_text, pair_text, typing_text, version_line, fresh_lines, are_numbers, is_character, is_spelled, ended};

use crate::certificate::Typing;
use keysym_core::Keysym;
use std::alloc::AllocError;
use std::fmt::Write;

/// Adds the three lines before the pairs. Errors: `AllocError` if memory runs out.
pub fn add_head(
    text: &mut String,
    bound: u32,
    pair_count: usize,
    fresh: &[Keysym],
) -> Result<(), AllocError>
    ensures { OnOk result (string_bytes text.new ≡ string_bytes text.old ++ ended (version_line fresh.now ∷ counted (codes "bound") bound ∷ counted (codes "pairs") pair_count ∷ [])) }
{
    text.push_str(version_of(fresh))?;
    write!(text, "bound {bound}\npairs {pair_count}\n")
}

/// Adds the lines of the pairs. Errors: `AllocError` if memory runs out.
pub fn add_pairs(text: &mut String, pairs: &[(u32, u32)]) -> Result<(), AllocError>
    ensures text { OnOk result
        (string_bytes text.new ≡ string_bytes text.old ++ ended (map pair_text pairs.now)) }
    ensures numbers { OnOk result (IsTrue (list_all are_numbers pairs.now)) }
{
    for pair in pairs {
        let (old, new) = *pair;
        write!(text, "{old} {new}\n")?;
    }
    Ok(())
}

/// Adds the line with the number of typings, and the lines of the typings. Errors: `AllocError` if
/// memory runs out.
pub fn add_typings(text: &mut String, typings: &[Typing]) -> Result<(), AllocError>
    ensures text { OnOk result (string_bytes text.new ≡ string_bytes text.old ++ ended (counted (codes "typings") (length typings.now) ∷ map typing_text typings.now)) }
    ensures spelled { OnOk result (IsTrue (list_all is_spelled typings.now)) }
{
    let count = typings.len();
    write!(text, "typings {count}\n")?;
    for typing in typings {
        add_character(text, typing.character())?;
        add_keys(text, typing.keys())?;
        text.push_str("\n")?;
    }
    Ok(())
}

/// Adds the lines of the fresh keysyms, if there are any. Errors: `AllocError` if memory runs out.
pub fn add_fresh(text: &mut String, fresh: &[Keysym]) -> Result<(), AllocError>
    ensures text { OnOk result
        (string_bytes text.new ≡ string_bytes text.old ++ ended (fresh_lines fresh.now)) }
    ensures keysyms { OnOk result (IsTrue (list_all is_keysym fresh.now)) }
{
    if fresh.is_empty() {
        return Ok(());
    }
    let count = fresh.len();
    write!(text, "fresh {count}\n")?;
    for key in fresh {
        let number = key.value();
        write!(text, "{number:x}\n")?;
    }
    Ok(())
}

/// Returns the first line.
fn version_of(fresh: &[Keysym]) -> &'static str
    ensures { result.now ≡ version_line fresh.now ++ 10 ∷ [] }
{
    match fresh {
        [] => "compose-certificate 1\n",
        [..] => "compose-certificate 2\n",
    }
}

/// Adds a blank and the keysym, for each of the keys.
fn add_keys(text: &mut String, keys: &[Keysym]) -> Result<(), AllocError>
    ensures text { OnOk result
        (string_bytes text.new
        ≡ string_bytes text.old ++ flat_map (λ k. 32 ∷ keysym_text k) keys.now) }
    ensures keysyms { OnOk result (IsTrue (list_all is_keysym keys.now)) }
{
    for key in keys {
        let number = key.value();
        write!(text, " {number:x}")?;
    }
    Ok(())
}

/// Adds `U+` and at least four digits.
fn add_character(text: &mut String, character: char) -> Result<(), AllocError>
    ensures text { OnOk result
        (string_bytes text.new ≡ string_bytes text.old ++ character_text character) }
    ensures character { IsTrue (is_character character) }
{
    let number = u32::from(character);
    write!(text, "U+{number:04X}")
}
