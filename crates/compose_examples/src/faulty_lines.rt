//! Sources without their faulty lines, as libxkbcommon reads them.
use crate::helpers::{core, expect_text, two_sources};
use compose_skip::other_lines;
use std::alloc::Global;
use std::process::Abort;
use std::test::Fail;

/// The lines of a source, those that remain (between the byte order mark and the end), rewritten
/// where only libxkbcommon reads them, and the number of skipped lines.
struct FaultyRow {
    lines: &'static str,
    left: &'static str,
    faults: usize,
}

#[rattlefmt::skip]
static FAULTY: [FaultyRow; 8] = [
    FaultyRow { lines: "<a> : \"x\"\n", left: "\u{feff}<a> : \"x\"\n", faults: 0 },
    FaultyRow { lines: "<a> : \"x\"\n<nosuch> : \"y\"\n<b> : \"z\"\n", left: "\u{feff}<a> : \"x\"\n\n<b> : \"z\"\n", faults: 1 },
    FaultyRow { lines: "foo\nCtrl <a> : \"x\"\n# none\n", left: "\u{feff}\n<a> : \"x\"\n# none\n", faults: 1 },
    FaultyRow { lines: "include \"nowhere\"\n<a> : nosuch\n", left: "\u{feff}include \"nowhere\"\n\n", faults: 1 },
    FaultyRow { lines: "<a> : \"\\400\"\n<b> : \"z\"\n", left: "\u{feff}<a> : 0xffffff\n<b> : \"z\"\n", faults: 0 },
    FaultyRow { lines: "!Shift<a>~Ctrl <UE9> : \"\\q\\\"\" x <b>\n", left: "\u{feff}<a> <U00E9> : \"q\\\"\"\n", faults: 0 },
    FaultyRow { lines: "Ctrl <a> : \"\\351\"\n<b> : U7a x\n", left: "\u{feff}\n<b> : U007A\n", faults: 1 },
    FaultyRow { lines: "<Shift_L> : \"x\"\n<b> : \"z\"\n", left: "\u{feff}\n<b> : \"z\"\n", faults: 1 },
];

/// Expects the remaining lines of a row, and a source after it that is unchanged.
fn expect_left(rt: &impl Abort, alloc: Global, row: &FaultyRow) -> Result<(), Fail> {
    let sources = two_sources(alloc, row.lines.as_bytes(), "<c> : \"w\"\n")?;
    let others = other_lines(alloc, &core(alloc)?, &sources)?;
    let left = str::from_utf8(others.sources.bytes(0)).unwrap_or("no text");
    expect_text(rt, row.lines, left, row.left);
    let other = str::from_utf8(others.sources.bytes(1)).unwrap_or("no text");
    expect_text(rt, row.lines, other, "\u{feff}<c> : \"w\"\n");
    assert_eq!(rt; others.faults.len(), row.faults, "{}", row.lines);
    Ok(())
}

#[test]
fn sources_without_faulty_lines(rt: HostRuntime) -> Result<(), Fail> {
    for row in &FAULTY {
        expect_left(&rt, rt.alloc(), row)?;
    }
    Ok(())
}
