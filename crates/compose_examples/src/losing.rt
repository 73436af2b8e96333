//! What `diff` prints for worked rows, and which of them are accepted.
use compose_answer::Answer;
use compose_compare::Change;
use compose_diff::{
    AcceptFault, Accepted, Counts, DiffRow, NewSequence, Overlaps, Printed, TextPlace, accept_text,
    answer_diff, colored_text, diff_text, folded_text, is_loss, is_lost, json_answer, json_text,
    loses_nothing, lost_rows, sort_rows,
};
use std::alloc::Global;
use std::test::Fail;

/// Returns the definition of a sequence in a table.
fn entry(text: &'static str, path: &'static str, line: usize) -> Option<TextPlace<'static>> {
    Some(TextPlace {
        text,
        source: 0,
        path,
        line,
    })
}

/// Returns a row that only the old table has.
fn old_row(
    change: Change,
    keys: &'static [&'static str],
    text: &'static str,
    line: usize,
) -> DiffRow<'static> {
    DiffRow {
        change,
        keys,
        old: entry(text, "OLD", line),
        new: None,
        longer: None,
        typing: None,
    }
}

/// Returns a row that only the new table has.
fn new_row(
    change: Change,
    keys: &'static [&'static str],
    text: &'static str,
    line: usize,
) -> DiffRow<'static> {
    DiffRow {
        change,
        keys,
        old: None,
        new: entry(text, "NEW", line),
        longer: None,
        typing: None,
    }
}

/// Returns a row of each change, in the reverse of the order in which they are printed.
fn each() -> [DiffRow<'static>; 6] {
    [
        DiffRow {
            change: Change::Kept,
            keys: &["dead_acute", "e"],
            old: entry("é", "OLD", 1),
            new: entry("é", "NEW", 5),
            longer: None,
            typing: None,
        },
        new_row(Change::Added, &["Multi_key", "a", "b"], "x", 8),
        new_row(Change::NewStart, &["F13"], "x", 7),
        old_row(Change::Removed, &["Multi_key", "parenleft", "1"], "①", 9),
        DiffRow {
            change: Change::Waiting,
            keys: &["a", "b"],
            old: entry("\"", "OLD", 3),
            new: None,
            longer: Some(NewSequence {
                keys: &["a", "b", "c"],
                path: "NEW",
                line: 5,
            }),
            typing: None,
        },
        DiffRow {
            change: Change::Changed,
            keys: &["dead_hook", "o"],
            old: entry("ở", "en/Compose", 1234),
            new: entry("ờ", "fi/Compose", 361),
            longer: None,
            typing: Some(NewSequence {
                keys: &["dead_horn", "dead_hook", "o"],
                path: "fi/Compose",
                line: 340,
            }),
        },
    ]
}

/// Five rows that are folded together, between two that are not, and a kept one of the same source.
fn run() -> [DiffRow<'static>; 8] {
    [
        old_row(Change::Removed, &["Multi_key", "parenleft"], "(", 1),
        old_row(Change::Removed, &["Multi_key", "parenleft", "1"], "①", 2),
        old_row(Change::Removed, &["Multi_key", "parenleft", "2"], "②", 3),
        old_row(Change::Removed, &["Multi_key", "parenleft", "3"], "③", 4),
        old_row(Change::Removed, &["Multi_key", "parenleft", "4"], "④", 5),
        old_row(Change::Removed, &["Multi_key", "parenleft", "5"], "⑤", 6),
        old_row(Change::Removed, &["Multi_key", "bar", "5"], "5", 7),
        old_row(Change::Kept, &["Multi_key", "bar", "6"], "6", 8),
    ]
}

/// The lines of the rows of each change, in the order in which they are printed.
const EACH: &str =
    "changed: <dead_hook> <o> \"ở\" \"ờ\" en/Compose:1234 fi/Compose:361 now: <dead_horn> <dead_hook> <o> fi/Compose:340\nwaiting: <a> <b> \"\\\"\" OLD:3 longer: <a> <b> <c> NEW:5 now: none\nremoved: <Multi_key> <parenleft> <1> \"①\" OLD:9 now: none\nnew start: <F13> \"x\" NEW:7\nadded: <Multi_key> <a> <b> \"x\" NEW:8\n";

/// The list that accepts them.
const TO_ACCEPT: &str =
    "changed: <dead_hook> <o> \"ở\" \"ờ\"\nwaiting: <a> <b> \"\\\"\"\nremoved: <Multi_key> <parenleft> <1> \"①\"\nnew start: <F13> \"x\"\n";

#[test]
fn rows_are_printed_in_groups(rt: HostRuntime) -> Result<(), Fail> {
    let mut rows = Vec::from_array(rt.alloc(), each())?;
    sort_rows(&mut rows)?;
    assert_eq!(rt; diff_text(rt.alloc(), &rows)?.as_str(), EACH);
    assert_eq!(rt; folded_text(rt.alloc(), &rows, &rows)?.as_str(), EACH);
    assert_eq!(rt; accept_text(rt.alloc(), &rows)?.as_str(), TO_ACCEPT);
    Ok(())
}

#[test]
fn rows_are_counted(rt: HostRuntime) -> Result<(), Fail> {
    let counts = Counts::of(rt.alloc(), &each(), 2)?;
    assert_eq!(rt;
        format!(in rt.alloc(); "{counts}")?.as_str(),
        "diff: 1 kept, 1 changed, 1 waiting, 1 removed, 1 new start, 1 added, 2 accepted; 2 texts lost\n"
    );
    assert!(rt; !loses_nothing(&each()));
    assert!(rt; loses_nothing(&each()[..2]));
    Ok(())
}

#[test]
fn five_rows_are_folded(rt: HostRuntime) -> Result<(), Fail> {
    assert_eq!(rt;
        folded_text(rt.alloc(), &run(), &run())?.as_str(),
        "removed: <Multi_key> <parenleft> \"(\" OLD:1 now: none\nremoved: <Multi_key> <parenleft> .. 5 sequences \"①\" \"②\" \"③\" .. OLD:2\nremoved: <Multi_key> <bar> <5> \"5\" OLD:7 now: none\n"
    );
    Ok(())
}

#[test]
fn rows_apart_are_folded(rt: HostRuntime) -> Result<(), Fail> {
    let rows = [run()[1], run()[6], run()[2]];
    assert_eq!(rt;
        folded_text(rt.alloc(), &run(), &rows)?.as_str(),
        "removed: <Multi_key> <parenleft> .. 2 sequences \"①\" \"②\" .. OLD:2\nremoved: <Multi_key> <bar> <5> \"5\" OLD:7 now: none\n"
    );
    Ok(())
}

#[test]
fn one_row_is_not_folded(rt: HostRuntime) -> Result<(), Fail> {
    let rows = &run()[1..2];
    assert_eq!(rt;
        folded_text(rt.alloc(), &run(), rows)?.as_str(),
        diff_text(rt.alloc(), rows)?.as_str()
    );
    Ok(())
}

/// Returns a removed row of an include of the old table.
fn included_row(keys: &'static [&'static str], line: usize) -> DiffRow<'static> {
    let entry = TextPlace {
        text: "α",
        source: 1,
        path: "el\u{1b}GR",
        line,
    };
    DiffRow {
        change: Change::Removed,
        keys,
        old: Some(entry),
        new: None,
        longer: None,
        typing: None,
    }
}

/// Returns all rows of an include, which are removed, after one of three rows of the file that
/// includes it.
fn missing() -> [DiffRow<'static>; 5] {
    [
        old_row(Change::Removed, &["Greek_a"], "α", 2),
        included_row(&["Greek_b"], 1),
        included_row(&["Greek_c"], 7),
        old_row(Change::Kept, &["Greek_d"], "δ", 3),
        old_row(Change::Kept, &["Greek_e"], "ε", 4),
    ]
}

#[test]
fn missing_include_is_printed_once(rt: HostRuntime) -> Result<(), Fail> {
    assert_eq!(rt;
        folded_text(rt.alloc(), &missing(), &missing())?.as_str(),
        "removed: <Greek_a> \"α\" OLD:2 now: none\nremoved: all 2 sequences of el\\u{1b}GR, from which the new table has none\n"
    );
    assert_eq!(rt;
        folded_text(rt.alloc(), &missing(), &missing()[..2])?.as_str(),
        "removed: <Greek_a> \"α\" OLD:2 now: none\nremoved: <Greek_b> \"α\" el\\u{1b}GR:1 now: none\n"
    );
    Ok(())
}

#[test]
fn lines_are_colored(rt: HostRuntime) -> Result<(), Fail> {
    assert_eq!(rt;
        colored_text(
            rt.alloc(),
            "changed: <a> \"x\" \"y\" A:1 B:2\nnew start: <F13> \"x\" B:3\ndiff: 1 kept\n"
        )?
        .as_str(),
        "\u{1b}[31mchanged: <a> \"x\" \"y\" A:1 B:2\u{1b}[m\n\u{1b}[32mnew start: <F13> \"x\" B:3\u{1b}[m\n\u{1b}[1mdiff: 1 kept\u{1b}[m\n"
    );
    Ok(())
}

#[test]
fn what_steers_a_terminal_is_shown(rt: HostRuntime) -> Result<(), Fail> {
    let rows = [DiffRow {
        change: Change::Removed,
        keys: &["a\u{202e}"],
        old: entry("\u{1b}", "\u{1b}[2J", 1),
        new: None,
        longer: None,
        typing: None,
    }];
    assert_eq!(rt;
        diff_text(rt.alloc(), &rows)?.as_str(),
        "removed: <a\\u{202e}> \"\\033\" \\u{1b}[2J:1 now: none\n"
    );
    assert_eq!(rt;
        json_text(rt.alloc(), &rows)?.as_str(),
        "{\"change\":\"removed\",\"keys\":[\"a\\u202e\"],\"old\":\"\\u001b\",\"new\":null,\"old_file\":\"\\u001b[2J\",\"old_line\":1,\"new_file\":null,\"new_line\":null,\"longer\":null,\"longer_file\":null,\"longer_line\":null,\"now\":null,\"now_file\":null,\"now_line\":null}\n"
    );
    Ok(())
}

#[test]
fn quotes_are_escaped_in_objects(rt: HostRuntime) -> Result<(), Fail> {
    assert_eq!(rt;
        json_text(rt.alloc(), &each()[4..5])?.as_str(),
        "{\"change\":\"waiting\",\"keys\":[\"a\",\"b\"],\"old\":\"\\\"\",\"new\":null,\"old_file\":\"OLD\",\"old_line\":3,\"new_file\":null,\"new_line\":null,\"longer\":[\"a\",\"b\",\"c\"],\"longer_file\":\"NEW\",\"longer_line\":5,\"now\":null,\"now_file\":null,\"now_line\":null}\n"
    );
    Ok(())
}

#[test]
fn kept_rows_are_objects_too(rt: HostRuntime) -> Result<(), Fail> {
    assert_eq!(rt;
        json_text(rt.alloc(), &each()[..3])?.as_str(),
        "{\"change\":\"kept\",\"keys\":[\"dead_acute\",\"e\"],\"old\":\"é\",\"new\":\"é\",\"old_file\":\"OLD\",\"old_line\":1,\"new_file\":\"NEW\",\"new_line\":5,\"longer\":null,\"longer_file\":null,\"longer_line\":null,\"now\":null,\"now_file\":null,\"now_line\":null}\n{\"change\":\"added\",\"keys\":[\"Multi_key\",\"a\",\"b\"],\"old\":null,\"new\":\"x\",\"old_file\":null,\"old_line\":null,\"new_file\":\"NEW\",\"new_line\":8,\"longer\":null,\"longer_file\":null,\"longer_line\":null,\"now\":null,\"now_file\":null,\"now_line\":null}\n{\"change\":\"new start\",\"keys\":[\"F13\"],\"old\":null,\"new\":\"x\",\"old_file\":null,\"old_line\":null,\"new_file\":\"NEW\",\"new_line\":7,\"longer\":null,\"longer_file\":null,\"longer_line\":null,\"now\":null,\"now_file\":null,\"now_line\":null}\n"
    );
    Ok(())
}

/// The default form for people.
const FOLDED: Printed = Printed {
    folds: true,
    lost_alone: false,
};

/// Tables without overlapping sequences.
const NO_OVERLAPS: Overlaps = Overlaps { old: 0, new: 0 };

/// Returns the answer on the rows of each change if these lines are accepted.
fn answer(alloc: Global, lines: &str) -> Result<Answer, Fail> {
    let mut rows = Vec::from_array(alloc, each())?;
    sort_rows(&mut rows)?;
    let accepted = Accepted::read(alloc, lines.as_bytes())?;
    Ok(answer_diff(alloc, &rows, &accepted, FOLDED, NO_OVERLAPS)?)
}

#[test]
fn accepted_rows_are_counted_apart(rt: HostRuntime) -> Result<(), Fail> {
    let yes = String::from_str(
        rt.alloc(),
        "added: <Multi_key> <a> <b> \"x\" NEW:8\ndiff: 1 kept, 0 changed, 0 waiting, 0 removed, 0 new starts, 1 added, 4 accepted; 0 texts lost\n",
    )?;
    assert_eq!(rt; answer(rt.alloc(), TO_ACCEPT)?, Answer::Yes(yes));
    let counts = Counts::of(rt.alloc(), &each(), 0)?;
    let no = format!(in rt.alloc(); "{EACH}{counts}")?;
    assert_eq!(rt; answer(rt.alloc(), "")?, Answer::No(no));
    Ok(())
}

#[test]
fn lost_rows_are_printed_alone(rt: HostRuntime) -> Result<(), Fail> {
    let mut rows = Vec::from_array(rt.alloc(), each())?;
    sort_rows(&mut rows)?;
    assert!(rt; !is_lost(&rows[0]));
    assert!(rt; is_lost(&rows[1]));
    assert!(rt; !is_lost(&rows[3]));
    assert!(rt; is_loss(Change::Changed));
    assert!(rt; !is_loss(Change::NewStart));
    let lost = lost_rows(rt.alloc(), &rows)?;
    let lines =
        "waiting: <a> <b> \"\\\"\" OLD:3 longer: <a> <b> <c> NEW:5 now: none\nremoved: <Multi_key> <parenleft> <1> \"①\" OLD:9 now: none\n";
    assert_eq!(rt; diff_text(rt.alloc(), &lost)?.as_str(), lines);
    let printed = Printed {
        folds: false,
        lost_alone: true,
    };
    let accepted = Accepted::read(rt.alloc(), b"")?;
    let counts = Counts::of(rt.alloc(), &rows, 0)?;
    let no = format!(in rt.alloc(); "{lines}{counts}")?;
    assert_eq!(rt;
        answer_diff(rt.alloc(), &rows, &accepted, printed, NO_OVERLAPS)?,
        Answer::No(no)
    );
    Ok(())
}

#[test]
fn lost_text_is_counted_once(rt: HostRuntime) -> Result<(), Fail> {
    let rows = [
        old_row(Change::Removed, &["a"], "x", 1),
        old_row(Change::Removed, &["b"], "y", 2),
        old_row(Change::Waiting, &["c"], "x", 3),
    ];
    let counts = Counts::of(rt.alloc(), &rows, 0)?;
    assert_eq!(rt; counts.lost_texts, 2);
    let counts = Counts::of(rt.alloc(), &rows[..1], 0)?;
    assert_eq!(rt;
        format!(in rt.alloc(); "{counts}")?.as_str(),
        "diff: 0 kept, 0 changed, 0 waiting, 1 removed, 0 new starts, 0 added, 0 accepted; 1 text lost\n"
    );
    Ok(())
}

#[test]
fn overlaps_have_a_line_before_the_last_one(rt: HostRuntime) -> Result<(), Fail> {
    let accepted = Accepted::read(rt.alloc(), b"")?;
    let overlaps = Overlaps { old: 0, new: 3 };
    let yes = String::from_str(
        rt.alloc(),
        "overlaps: 0 in the old table, 3 in the new one; the longer sequences count\ndiff: 1 kept, 0 changed, 0 waiting, 0 removed, 0 new starts, 0 added, 0 accepted; 0 texts lost\n",
    )?;
    assert_eq!(rt;
        answer_diff(rt.alloc(), &each()[..1], &accepted, FOLDED, overlaps)?,
        Answer::Yes(yes)
    );
    Ok(())
}

#[test]
fn counts_are_an_object_after_the_rows(rt: HostRuntime) -> Result<(), Fail> {
    let rows = [old_row(Change::Removed, &["a"], "x", 1)];
    let overlaps = Overlaps { old: 1, new: 2 };
    assert_eq!(rt;
        json_answer(rt.alloc(), &each()[..3], &rows, true, overlaps)?.as_str(),
        "{\"change\":\"removed\",\"keys\":[\"a\"],\"old\":\"x\",\"new\":null,\"old_file\":\"OLD\",\"old_line\":1,\"new_file\":null,\"new_line\":null,\"longer\":null,\"longer_file\":null,\"longer_line\":null,\"now\":null,\"now_file\":null,\"now_line\":null}\n{\"counts\":{\"kept\":0,\"changed\":0,\"waiting\":0,\"removed\":1,\"new_starts\":0,\"added\":0,\"accepted\":2,\"lost_texts\":1,\"old_overlaps\":1,\"new_overlaps\":2}}\n"
    );
    Ok(())
}

#[test]
fn typing_is_an_object_too(rt: HostRuntime) -> Result<(), Fail> {
    assert_eq!(rt;
        json_text(rt.alloc(), &each()[5..])?.as_str(),
        "{\"change\":\"changed\",\"keys\":[\"dead_hook\",\"o\"],\"old\":\"ở\",\"new\":\"ờ\",\"old_file\":\"en/Compose\",\"old_line\":1234,\"new_file\":\"fi/Compose\",\"new_line\":361,\"longer\":null,\"longer_file\":null,\"longer_line\":null,\"now\":[\"dead_horn\",\"dead_hook\",\"o\"],\"now_file\":\"fi/Compose\",\"now_line\":340}\n"
    );
    Ok(())
}

/// Returns the number of the rows of each change that these lines leave.
fn left(alloc: Global, lines: &str) -> Result<usize, AcceptFault> {
    let accepted = Accepted::read(alloc, lines.as_bytes())?;
    let left = accepted.leave_out(alloc, &each())?;
    Ok(left.len())
}

#[test]
fn printed_rows_are_accepted(rt: HostRuntime) -> Result<(), Fail> {
    assert_eq!(rt; left(rt.alloc(), ""), Ok(6));
    assert_eq!(rt; left(rt.alloc(), TO_ACCEPT), Ok(2));
    assert_eq!(rt;
        left(rt.alloc(), "# meant\n\nnew start: <F13> \"x\" NEW:99"),
        Ok(5)
    );
    Ok(())
}

#[test]
fn other_lines_are_refused(rt: HostRuntime) -> Result<(), Fail> {
    assert_eq!(rt;
        left(rt.alloc(), "# meant\nnew start: <F13> \"y\"\n"),
        Err(AcceptFault::Stale { line: 2 })
    );
    assert_eq!(rt;
        left(
            rt.alloc(),
            "new start: <F13> \"x\"\n\nadded: <Multi_key> <a> <b> \"x\"\n"
        ),
        Err(AcceptFault::BadLine { line: 3 })
    );
    let (stale, bad) = (
        AcceptFault::Stale { line: 4 },
        AcceptFault::BadLine { line: 5 },
    );
    assert_eq!(rt;
        format!(in rt.alloc(); "{stale}")?.as_str(),
        "1 Stale line=4"
    );
    assert_eq!(rt;
        format!(in rt.alloc(); "{bad}")?.as_str(),
        "2 BadLine line=5"
    );
    Ok(())
}
