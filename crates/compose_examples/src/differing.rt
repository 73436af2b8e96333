//! All differences of the worked tables, over a table of each form.
use crate::rows::{ALL_EXPLAINED, Explained};
use crate::tables::Tables;
use compose_tree::{BuildTable, ListTable, PackedTable};
use compose_walk::{differences, explain_all};
use keysym_core::Names;
use std::alloc::Global;
use std::test::Fail;

/// Returns the printed text for a row.
fn printed<T: BuildTable, U: BuildTable>(alloc: Global, row: &Explained) -> Result<String, Fail> {
    let Tables { names, old, new } = Tables::<T, U>::read(alloc, row.old, row.new)?;
    printed_over(alloc, &old, &new, &names)
}

/// Returns the printed text for these tables.
fn printed_over<T: BuildTable, U: BuildTable>(
    alloc: Global,
    old: &T,
    new: &U,
    names: &Names,
) -> Result<String, Fail> {
    let all = differences(alloc, old, new, names, &[])?;
    Ok(explain_all(alloc, names, &all)?)
}

/// Returns the first row for which something else is printed.
fn first_wrong<T: BuildTable, U: BuildTable>(
    alloc: Global,
    rows: &[Explained],
) -> Result<Option<&'static str>, Fail> {
    for row in rows {
        if printed::<T, U>(alloc, row)?.as_str() != row.prints {
            return Ok(Some(row.name));
        }
    }
    Ok(None)
}

#[test]
fn differences_over_one_of_each(rt: HostRuntime) -> Result<(), Fail> {
    assert_eq!(rt;
        first_wrong::<ListTable, PackedTable>(rt.alloc(), &ALL_EXPLAINED)?,
        None
    );
    assert_eq!(rt;
        first_wrong::<PackedTable, ListTable>(rt.alloc(), &ALL_EXPLAINED)?,
        None
    );
    Ok(())
}
