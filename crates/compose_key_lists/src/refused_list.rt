//! The line in which a key is refused.
ghost use Rattle.std.specs.Prelude.{◌≡◌, IfOk, string_bytes};
ghost use Rattle.compose_key_lists.specs.Lists as wanted;

use compose_answer::{Answer, Refusal};
use std::alloc::{AllocError, Global};

/// Returns the message that names the line of standard input in which a key is refused, or nothing
/// if none is. `Err(AllocError)` if memory runs out. O(lines).
pub fn refused_line(
    alloc: Global,
    counts: &[usize],
    answered: &Result<Answer, Refusal>,
) -> Result<String, AllocError>
    ensures { IfOk result
        (λ line. string_bytes line ≡ wanted.refused_line counts.now answered.now) }
{
    match answered {
        Err(Refusal::Key { index }) => {
            let line = line_of(counts, *index);
            format!(in alloc; "composecheck: the key is in line {line} of standard input\n")
        }
        _ => Ok(String::new(alloc)),
    }
}

/// Returns the number of the line that has the key with this index, counted from 1; one more than
/// the number of lines, if none has it.
fn line_of(counts: &[usize], index: usize) -> usize
    ensures { result ≡ wanted.line_of counts.now index }
{
    let mut left = index;
    for place in 0..counts.len() {
        if left < counts[place] {
            return place + 1;
        }
        left -= counts[place];
    }
    counts.len() + 1
}
