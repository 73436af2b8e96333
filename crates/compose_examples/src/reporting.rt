//! The whole answer of `diff` on two tables of one source each.
use crate::tables::one_source;
use compose_answer::Answer;
use compose_diff_rows::{DiffFault, DiffInput, Form, diff_migration};
use compose_migration::{MigrationInput, TableInput};
use compose_model::Rule;
use compose_read::Sources;
use compose_tree::PackedTable;
use std::alloc::Global;
use std::test::Fail;

/// The old table: two definitions of one sequence, written differently, the last of which counts.
const OLD: &str =
    "<Multi_key> <a> : \"x\"\n# again\n<Multi_key> <U0061> : \"y\"\n<Multi_key> <b> : \"b\"\n";

/// The new table: that sequence with another text, one that is only here, and a new start.
const NEW: &str = "<Multi_key> <0x61> : \"z\"\n<Multi_key> <c> : \"c\"\n<dead_acute> <a> : \"á\"\n";

/// Returns the answer on these sources in this form, if these lines are accepted.
fn answer<'a>(
    alloc: Global,
    old: &'a Sources,
    new: &'a Sources,
    accepted: &'a str,
    form: Form,
) -> Result<Answer, DiffFault> {
    let input = DiffInput {
        tables: MigrationInput {
            header: &[],
            key_names: &[],
            old: TableInput {
                sources: old,
                rule: Rule::Refuse,
            },
            new: TableInput {
                sources: new,
                rule: Rule::Refuse,
            },
        },
        old_paths: &["OLD"],
        new_paths: &["NEW"],
        accepted: accepted.as_bytes(),
        lost_alone: false,
        form,
    };
    diff_migration::<PackedTable>(alloc, &input)
}

/// Returns whether this is printed for the worked tables if these lines are accepted: with losses,
/// or without any.
fn is_reported(
    alloc: Global,
    accepted: &str,
    form: Form,
    loses: bool,
    text: &str,
) -> Result<bool, Fail> {
    is_reported_of(alloc, (OLD, NEW), accepted, form, loses, text)
}

/// Returns whether this is printed for these two tables.
fn is_reported_of(
    alloc: Global,
    tables: (&str, &str),
    accepted: &str,
    form: Form,
    loses: bool,
    text: &str,
) -> Result<bool, Fail> {
    let (old, new) = (one_source(alloc, tables.0)?, one_source(alloc, tables.1)?);
    match answer(alloc, &old, &new, accepted, form) {
        Ok(Answer::No(content)) => Ok(loses && content.as_str() == text),
        Ok(Answer::Yes(content)) => Ok(!loses && content.as_str() == text),
        _ => Ok(false),
    }
}

#[test]
fn each_sequence_is_printed_as_last_defined(rt: HostRuntime) -> Result<(), Fail> {
    let text =
        "changed: <Multi_key> <U0061> \"y\" \"z\" OLD:3 NEW:1 now: none\nremoved: <Multi_key> <b> \"b\" OLD:4 now: none\nnew start: <dead_acute> <a> \"á\" NEW:3\nadded: <Multi_key> <c> \"c\" NEW:2\ndiff: 0 kept, 1 changed, 0 waiting, 1 removed, 1 new start, 1 added, 0 accepted; 2 texts lost\n";
    assert!(rt; is_reported(rt.alloc(), "", Form::Lines, true, text)?);
    let folded = format!(in rt.alloc();
        "{text}merge: would keep 2 of OLD's sequences and add 1 of NEW's\n"
    )?;
    assert!(rt; is_reported(rt.alloc(), "", Form::Folded, true, &folded)?);
    Ok(())
}

#[test]
fn what_the_written_list_accepts_is_counted(rt: HostRuntime) -> Result<(), Fail> {
    let list =
        "changed: <Multi_key> <U0061> \"y\" \"z\"\nremoved: <Multi_key> <b> \"b\"\nnew start: <dead_acute> <a> \"á\"\n";
    assert!(rt; is_reported(rt.alloc(), "", Form::AcceptList, true, list)?);
    let text =
        "added: <Multi_key> <c> \"c\" NEW:2\ndiff: 0 kept, 0 changed, 0 waiting, 0 removed, 0 new starts, 1 added, 3 accepted; 0 texts lost\n";
    assert!(rt; is_reported(rt.alloc(), list, Form::Folded, false, text)?);
    Ok(())
}

#[test]
fn each_sequence_is_an_object(rt: HostRuntime) -> Result<(), Fail> {
    let text =
        "{\"change\":\"removed\",\"keys\":[\"Multi_key\",\"b\"],\"old\":\"b\",\"new\":null,\"old_file\":\"OLD\",\"old_line\":4,\"new_file\":null,\"new_line\":null,\"longer\":null,\"longer_file\":null,\"longer_line\":null,\"now\":null,\"now_file\":null,\"now_line\":null}\n{\"change\":\"added\",\"keys\":[\"Multi_key\",\"c\"],\"old\":null,\"new\":\"c\",\"old_file\":null,\"old_line\":null,\"new_file\":\"NEW\",\"new_line\":2,\"longer\":null,\"longer_file\":null,\"longer_line\":null,\"now\":null,\"now_file\":null,\"now_line\":null}\n{\"counts\":{\"kept\":0,\"changed\":0,\"waiting\":0,\"removed\":1,\"new_starts\":0,\"added\":1,\"accepted\":2,\"lost_texts\":1,\"old_overlaps\":0,\"new_overlaps\":0}}\n";
    let accepted = "changed: <Multi_key> <U0061> \"y\" \"z\"\nnew start: <dead_acute> <a> \"á\"\n";
    assert!(rt; is_reported(rt.alloc(), accepted, Form::Json, true, text)?);
    Ok(())
}

#[test]
fn lost_text_is_typed_by_the_first_of_the_shortest(rt: HostRuntime) -> Result<(), Fail> {
    let old = "<a> <b> : \"x\"\n";
    let new = "<b> <c> <d> : \"x\"\n<c> <a> : \"x\"\n<b> <d> : \"x\"\n";
    let text =
        "removed: <a> <b> \"x\" OLD:1 now: <b> <d> NEW:3\nnew start: <b> <c> <d> \"x\" NEW:1\nnew start: <c> <a> \"x\" NEW:2\nnew start: <b> <d> \"x\" NEW:3\ndiff: 0 kept, 0 changed, 0 waiting, 1 removed, 3 new starts, 0 added, 0 accepted; 0 texts lost\nmerge: would keep 1 of OLD's sequences and add 0 of NEW's\n";
    assert!(rt; is_reported_of(rt.alloc(), (old, new), "", Form::Folded, true, text)?);
    Ok(())
}

#[test]
fn waiting_sequence_names_the_first_of_the_shortest_longer_ones(
    rt: HostRuntime,
) -> Result<(), Fail> {
    let old = "<a> : \"x\"\n";
    let new = "<a> <b> <c> : \"1\"\n<a> <d> : \"2\"\n<a> <c> : \"3\"\n";
    let text =
        "waiting: <a> \"x\" OLD:1 longer: <a> <c> NEW:3 now: none\nadded: <a> <b> <c> \"1\" NEW:1\nadded: <a> <d> \"2\" NEW:2\nadded: <a> <c> \"3\" NEW:3\ndiff: 0 kept, 0 changed, 1 waiting, 0 removed, 0 new starts, 3 added, 0 accepted; 1 text lost\n";
    assert!(rt; is_reported_of(rt.alloc(), (old, new), "", Form::Lines, true, text)?);
    Ok(())
}
