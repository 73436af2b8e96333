//! The shortest keys on which the worked tables differ, over a table of each form.
use crate::rows::{EXPLAINED, Explained};
use crate::tables::Tables;
use compose_tree::{BuildTable, ListTable, PackedTable};
use compose_walk::{MakeFault, Walk, explain, walk};
use keysym_core::Names;
use std::alloc::Global;
use std::test::Fail;

/// Returns the printed text for a row.
fn printed<T: BuildTable, U: BuildTable>(alloc: Global, row: &Explained) -> Result<String, Fail> {
    let Tables { names, old, new } = Tables::<T, U>::read(alloc, row.old, row.new)?;
    printed_over(alloc, &names, &old, &new)
}

/// Returns the printed text for these tables.
fn printed_over<T: BuildTable, U: BuildTable>(
    alloc: Global,
    names: &Names,
    old: &T,
    new: &U,
) -> Result<String, Fail> {
    match walked(alloc, old, new, names)? {
        Walk::Follows(_pairs) => Ok(String::from_str(alloc, "follows\n")?),
        Walk::Differs(counterexample) => Ok(explain(alloc, names, &counterexample)?),
    }
}

fn walked<T: BuildTable, U: BuildTable>(
    alloc: Global,
    old: &T,
    new: &U,
    names: &Names,
) -> Result<Walk, MakeFault> {
    walk(alloc, old, new, names, &[])
}

/// Returns the first row for which something else is printed.
fn first_wrong<T: BuildTable, U: BuildTable>(
    alloc: Global,
    rows: &[Explained],
) -> Result<Option<&'static str>, Fail> {
    for row in rows {
        if printed::<T, U>(alloc, row)?.as_str() != row.prints {
            return Ok(Some(row.name));
        }
    }
    Ok(None)
}

#[test]
fn evidence_over_one_of_each(rt: HostRuntime) -> Result<(), Fail> {
    assert_eq!(rt;
        first_wrong::<ListTable, PackedTable>(rt.alloc(), &EXPLAINED)?,
        None
    );
    assert_eq!(rt;
        first_wrong::<PackedTable, ListTable>(rt.alloc(), &EXPLAINED)?,
        None
    );
    Ok(())
}
