//! Definitions that are put together one by one.
use crate::helpers::expect_text;
use crate::sources::push_rows;
use compose_model::Rule;
use compose_read::{Draft, SettleFault, settle};
use keysym_core::Keysym;
use std::alloc::{AllocError, Global};
use std::fmt::Write;
use std::process::Abort;

/// The numbers of the keysyms and the text of each definition that is added, what is answered, how
/// many there are then, and the sequences that are settled.
struct DraftRow {
    added: &'static [(&'static [u32], &'static str)],
    answers: &'static str,
    prints: &'static str,
}

#[rattlefmt::skip]
static DRAFTS: [DraftRow; 6] = [
    DraftRow { added: &[], answers: "0", prints: "" },
    DraftRow { added: &[(&[0x62], "y"), (&[0x61, 0x63], "x")], answers: "true;true;2", prints: "0x61,0x63=x;0x62=y;" },
    DraftRow { added: &[(&[0x61, 0x62], "x"), (&[0x61, 0x62], "y")], answers: "true;true;2", prints: "0x61,0x62=y;" },
    DraftRow { added: &[(&[], "x"), (&[0x61], "")], answers: "false;true;1", prints: "0x61=;" },
    DraftRow { added: &[(&[0x61, 0xffe1], "x"), (&[0x61], "é")], answers: "false;true;1", prints: "0x61=é;" },
    DraftRow { added: &[(&[0x61; 33], "x")], answers: "false;0", prints: "" },
];

/// Returns the keysyms with these numbers.
pub fn keysyms(alloc: Global, numbers: &[u32]) -> Result<Vec<Keysym>, AllocError> {
    let mut keysyms = Vec::new(alloc);
    for number in numbers {
        keysyms.push(Keysym::new(*number).unwrap_or_default())?;
    }
    Ok(keysyms)
}

/// Adds the definitions of a row, and expects what is answered.
fn drafted(rt: &impl Abort, alloc: Global, row: &DraftRow) -> Result<Draft, AllocError> {
    let mut draft = Draft::new(alloc);
    let mut text = String::new(alloc);
    for (numbers, content) in row.added {
        let is_added = draft.add(&keysyms(alloc, numbers)?, content)?;
        write!(text, "{is_added};")?;
    }
    let count = draft.len();
    write!(text, "{count}")?;
    expect_text(rt, row.answers, &text, row.answers);
    Ok(draft)
}

/// Expects the sequences of a row.
fn expect_drafted(rt: &impl Abort, alloc: Global, row: &DraftRow) -> Result<(), SettleFault> {
    let draft = drafted(rt, alloc, row)?;
    let settled = settle(alloc, draft.into_definitions(), Rule::Refuse)?;
    let mut text = String::new(alloc);
    push_rows(&mut text, &settled)?;
    expect_text(rt, row.prints, &text, row.prints);
    Ok(())
}

#[test]
fn drafts(rt: HostRuntime) -> Result<(), SettleFault> {
    for row in &DRAFTS {
        expect_drafted(&rt, rt.alloc(), row)?;
    }
    Ok(())
}
