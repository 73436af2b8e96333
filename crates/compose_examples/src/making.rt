//! Certificates for the worked migrations, over a table of each form; the checker accepts each.
use crate::checking::checked;
use crate::rows::{Asked, MADE};
use crate::tables::{Tables, fresh_of, repertoire_of};
use compose_cert::{Certificate, Repertoire};
use compose_check::Verdict;
use compose_make::{Made, make};
use compose_tree::{BuildTable, ListTable, PackedTable};
use compose_walk::{Counterexample, MakeFault, explain};
use keysym_core::{Keysym, Names, ShownChar};
use std::alloc::Global;
use std::test::Fail;

/// Returns the printed text for a row.
fn printed<T: BuildTable, U: BuildTable>(alloc: Global, row: &Asked) -> Result<String, Fail> {
    let Tables { names, old, new } = Tables::<T, U>::read(alloc, row.old, row.new)?;
    printed_over(alloc, &names, &old, &new, row)
}

/// Returns the printed text for these tables and the rest of the row.
fn printed_over<T: BuildTable, U: BuildTable>(
    alloc: Global,
    names: &Names,
    old: &T,
    new: &U,
    row: &Asked,
) -> Result<String, Fail> {
    let repertoire = repertoire_of(alloc, row.repertoire)?;
    let fresh = fresh_of(alloc, names, row.fresh)?;
    let made = made(alloc, old, new, names, &repertoire, &fresh)?;
    printed_made(alloc, old, new, names, &repertoire, &made)
}

/// Returns the printed text for what was made for these tables.
fn printed_made<T: BuildTable, U: BuildTable>(
    alloc: Global,
    old: &T,
    new: &U,
    names: &Names,
    repertoire: &Repertoire,
    made: &Made,
) -> Result<String, Fail> {
    match made {
        Made::Differs(counterexample) => explained(alloc, names, counterexample),
        Made::Unreachable(character) => unreachable(alloc, *character),
        Made::Made(certificate) => {
            let verdict = checked(old, new, names, repertoire, certificate);
            certified(alloc, certificate, verdict)
        }
    }
}

fn made<T: BuildTable, U: BuildTable>(
    alloc: Global,
    old: &T,
    new: &U,
    names: &Names,
    repertoire: &Repertoire,
    fresh: &[Keysym],
) -> Result<Made, MakeFault> {
    make(alloc, old, new, names, repertoire, fresh)
}

fn explained(alloc: Global, names: &Names, found: &Counterexample) -> Result<String, Fail> {
    Ok(explain(alloc, names, found)?)
}

/// Returns the line of a character that can't be typed.
fn unreachable(alloc: Global, character: char) -> Result<String, Fail> {
    let shown = ShownChar(character);
    Ok(format!(in alloc; "unreachable {shown}\n")?)
}

/// Returns the text of a certificate, if the checker accepts it.
fn certified(alloc: Global, certificate: &Certificate, verdict: Verdict) -> Result<String, Fail> {
    match verdict {
        Verdict::Yes => Ok(certificate.write_text(alloc)?),
        Verdict::No(fault) => Ok(format!(in alloc; "no: {fault}")?),
    }
}

/// Returns the first row for which something else is printed.
fn first_wrong<T: BuildTable, U: BuildTable>(
    alloc: Global,
    rows: &[Asked],
) -> Result<Option<&'static str>, Fail> {
    for row in rows {
        if printed::<T, U>(alloc, row)?.as_str() != row.prints {
            return Ok(Some(row.name));
        }
    }
    Ok(None)
}

#[test]
fn certificates_over_one_of_each(rt: HostRuntime) -> Result<(), Fail> {
    assert_eq!(rt;
        first_wrong::<ListTable, PackedTable>(rt.alloc(), &MADE)?,
        None
    );
    assert_eq!(rt;
        first_wrong::<PackedTable, ListTable>(rt.alloc(), &MADE)?,
        None
    );
    Ok(())
}
