//! The least typings of a table, and the least character that has none.
use crate::tables::{core, repertoire_of, table};
use compose_cert::{Repertoire, Typing};
use compose_make::{MakeFault, Typings, find_typings};
use compose_tree::{BuildTable, ListTable, PackedTable};
use keysym_core::{Names, ShownChar};
use std::alloc::Global;
use std::fmt::Write;
use std::test::Fail;

/// Returns what is found, a line each: the character, and the values of the keys; or the character
/// without a typing.
fn found<T: BuildTable>(alloc: Global, source: &str, repertoire: &str) -> Result<String, Fail> {
    let names = core(alloc)?;
    let new: T = table(alloc, &names, source)?;
    found_over(alloc, &new, &names, repertoire)
}

/// Returns what is found over this table.
fn found_over<T: BuildTable>(
    alloc: Global,
    new: &T,
    names: &Names,
    repertoire: &str,
) -> Result<String, Fail> {
    let repertoire = repertoire_of(alloc, repertoire)?;
    let typings = typings_of(alloc, new, names, &repertoire)?;
    printed(alloc, &typings)
}

fn printed(alloc: Global, typings: &Typings) -> Result<String, Fail> {
    match typings {
        Typings::Found(typings) => lines_of(alloc, typings.as_slice()),
        Typings::Unreachable(character) => {
            let shown = ShownChar(*character);
            Ok(format!(in alloc; "unreachable {shown}\n")?)
        }
    }
}

fn typings_of<T: BuildTable>(
    alloc: Global,
    new: &T,
    names: &Names,
    repertoire: &Repertoire,
) -> Result<Typings, MakeFault> {
    find_typings(alloc, new, names, repertoire)
}

/// Returns a line for each typing.
fn lines_of(alloc: Global, typings: &[Typing]) -> Result<String, Fail> {
    let mut lines = String::new(alloc);
    for typing in typings {
        push_line(&mut lines, typing)?;
    }
    Ok(lines)
}

/// Appends the line of a typing.
fn push_line(lines: &mut String, typing: &Typing) -> Result<(), Fail> {
    let shown = ShownChar(typing.character());
    write!(lines, "{shown}")?;
    for key in typing.keys() {
        let number = key.value();
        write!(lines, " {number:x}")?;
    }
    lines.push('\n')?;
    Ok(())
}

/// Several typings of one character: a longer one, one with the same number of keys that comes
/// later, and the least; and a key that types itself.
const WAYS: &str =
    "<Multi_key> <apostrophe> <e> : \"é\"\n<dead_acute> <e> : \"é\"\n<dead_acute> <c> : \"é\"\n<Multi_key> <a> : \"á\"\n";

#[test]
fn least_typings_over_both_tables(rt: HostRuntime) -> Result<(), Fail> {
    let repertoire =
        "keys 0x20 0x7e\nkeys 0xfe51 0xfe51\nkeys 0xff20 0xff20\nU+0061\nU+00E1\nU+00E9\n";
    let lines = "U+0061 61\nU+00E1 ff20 61\nU+00E9 fe51 63\n";
    assert_eq!(rt;
        found::<ListTable>(rt.alloc(), WAYS, repertoire)?.as_str(),
        lines
    );
    assert_eq!(rt;
        found::<PackedTable>(rt.alloc(), WAYS, repertoire)?.as_str(),
        lines
    );
    Ok(())
}

#[test]
fn least_unreachable_character(rt: HostRuntime) -> Result<(), Fail> {
    let repertoire = "keys 0x20 0x7e\nkeys 0xfe51 0xfe51\nU+0061\nU+00E1\nU+00E9\nU+0100\n";
    assert_eq!(rt;
        found::<PackedTable>(rt.alloc(), WAYS, repertoire)?.as_str(),
        "unreachable U+00E1\n"
    );
    Ok(())
}
