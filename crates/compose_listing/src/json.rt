//! Arrays of JSON strings.
ghost use Rattle.std.specs.Prelude.{◌≡◌, ◌++◌, map, OnOk, string_bytes};
ghost use Rattle.compose_diff.specs.Json as words;

use compose_diff::push_json_string;
use std::alloc::AllocError;

/// Appends the array of the texts to the text. O(bytes).
pub(crate) fn push_json_strings(text: &mut String, texts: &[&str]) -> Result<(), AllocError>
    ensures { OnOk result
        (string_bytes text.new
        ≡ string_bytes text.old ++ words.json_strings (map (λ t. t.now) texts.now)) }
{
    let Some((first, others)) = texts.split_first() else {
        return text.push_str("[]");
    };
    text.push_str("[")?;
    push_json_string(text, first)?;
    push_others(text, others)?;
    text.push_str("]")
}

/// Appends each of the texts, after a comma, to the text.
fn push_others(text: &mut String, texts: &[&str]) -> Result<(), AllocError>
    ensures { OnOk result
        (string_bytes text.new
        ≡ string_bytes text.old ++ words.other_strings (map (λ t. t.now) texts.now)) }
{
    for other in texts {
        text.push_str(",")?;
        push_json_string(text, other)?;
    }
    Ok(())
}
