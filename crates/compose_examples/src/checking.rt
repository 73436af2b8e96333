//! The verdicts of the checker on the worked migrations, over a table of each form.
use crate::rows::{CHECKED, Row};
use crate::tables::{Tables, certificate_of, repertoire_of};
use compose_cert::{Certificate, Repertoire};
use compose_check::{Verdict, check};
use compose_tree::{BuildTable, ListTable, PackedTable};
use keysym_core::Names;
use std::alloc::Global;
use std::test::Fail;

/// Returns the verdict as it is printed.
fn printed(alloc: Global, verdict: Verdict) -> Result<String, Fail> {
    match verdict {
        Verdict::Yes => Ok(String::from_str(alloc, "yes")?),
        Verdict::No(fault) => Ok(format!(in alloc; "no: {fault}")?),
    }
}

/// Returns the verdict on a row.
fn verdict<T: BuildTable, U: BuildTable>(alloc: Global, row: &Row) -> Result<String, Fail> {
    let Tables { names, old, new } = Tables::<T, U>::read(alloc, row.old, row.new)?;
    verdict_over(alloc, &names, &old, &new, row)
}

/// Returns the verdict on the certificate of a row for these tables.
fn verdict_over<T: BuildTable, U: BuildTable>(
    alloc: Global,
    names: &Names,
    old: &T,
    new: &U,
    row: &Row,
) -> Result<String, Fail> {
    let repertoire = repertoire_of(alloc, row.repertoire)?;
    let certificate = certificate_of(alloc, row.certificate)?;
    printed(alloc, checked(old, new, names, &repertoire, &certificate))
}

pub fn checked<T: BuildTable, U: BuildTable>(
    old: &T,
    new: &U,
    names: &Names,
    repertoire: &Repertoire,
    certificate: &Certificate,
) -> Verdict {
    check(old, new, names, repertoire, certificate)
}

/// Returns the first row with another verdict.
fn first_wrong<T: BuildTable, U: BuildTable>(
    alloc: Global,
    rows: &[Row],
) -> Result<Option<&'static str>, Fail> {
    for row in rows {
        if verdict::<T, U>(alloc, row)?.as_str() != row.says {
            return Ok(Some(row.name));
        }
    }
    Ok(None)
}

#[test]
fn verdicts_over_one_of_each(rt: HostRuntime) -> Result<(), Fail> {
    assert_eq!(rt;
        first_wrong::<ListTable, PackedTable>(rt.alloc(), &CHECKED)?,
        None
    );
    assert_eq!(rt;
        first_wrong::<PackedTable, ListTable>(rt.alloc(), &CHECKED)?,
        None
    );
    Ok(())
}
