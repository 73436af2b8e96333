//! The printed texts of faults in the crates above `compose_read`, and the faults of fresh keysyms
//! over each form of a table.
use crate::tables::{core, table};
use compose_cert::{CertFault, RepertoireFault};
use compose_check::{CheckFault, InputFault, check_fresh};
use compose_migration::{Refusal, Side};
use compose_read::{ReadFault, SettleFault, SourceFault};
use compose_tool::TypeFault;
use compose_tree::{BuildFault, BuildTable, ListTable, PackedTable, TableFault};
use compose_walk::MakeFault;
use keysym_core::{Keysym, NameFault};
use std::alloc::Global;
use std::fmt::Display;
use std::process::Abort;
use std::test::Fail;

/// Returns the text of the first fault that is printed differently.
fn first_wrong<F: Display>(
    alloc: Global,
    faults: &[(F, &'static str)],
) -> Result<Option<&'static str>, Fail> {
    for (fault, text) in faults {
        if format!(in alloc; "{fault}")?.as_str() != *text {
            return Ok(Some(text));
        }
    }
    Ok(None)
}

/// Returns a dead key that is in none of the worked tables.
fn caron() -> Keysym {
    Keysym::new(0xfe5a).unwrap_or(Keysym::default())
}

#[test]
fn faults_of_certificates(rt: HostRuntime) -> Result<(), Fail> {
    let keysym = caron();
    let character = 'é';
    let faults = [
        (CheckFault::PairsNotRising, "1 PairsNotRising"),
        (CheckFault::NodeOutOfRange, "2 NodeOutOfRange"),
        (CheckFault::RootPairMissing, "3 RootPairMissing"),
        (CheckFault::RestBroken, "4 RestBroken"),
        (CheckFault::NewStart { keysym }, "5 NewStart keysym=0xfe5a"),
        (
            CheckFault::Cancels { pair: 1, keysym },
            "6 Cancels pair=1 keysym=0xfe5a",
        ),
        (
            CheckFault::TextDiffers { pair: 2, keysym },
            "7 TextDiffers pair=2 keysym=0xfe5a",
        ),
        (
            CheckFault::PairMissing { pair: 3, keysym },
            "8 PairMissing pair=3 keysym=0xfe5a",
        ),
        (
            CheckFault::BoundExceeded { node: 4 },
            "9 BoundExceeded node=4",
        ),
        (
            CheckFault::TypingMissing { character },
            "10 TypingMissing char=U+00E9",
        ),
        (
            CheckFault::TypingWrong { character },
            "11 TypingWrong char=U+00E9",
        ),
        (
            CheckFault::TypingUnasked { character },
            "12 TypingUnasked char=U+00E9",
        ),
        (CheckFault::FreshNotRising, "13 FreshNotRising"),
        (
            CheckFault::FreshIgnored { keysym },
            "14 FreshIgnored keysym=0xfe5a",
        ),
        (
            CheckFault::FreshUsed { keysym },
            "15 FreshUsed keysym=0xfe5a",
        ),
    ];
    assert_eq!(rt; first_wrong(rt.alloc(), &faults)?, None);
    Ok(())
}

#[test]
fn faults_of_inputs(rt: HostRuntime) -> Result<(), Fail> {
    let faults = [
        (
            InputFault::Names(NameFault::BadLine { line: 2 }),
            "1 Names: 2 BadLine line=2",
        ),
        (
            InputFault::Old(TableFault::Read(ReadFault::MissingRoot)),
            "2 Old: 1 Read: 1 MissingRoot",
        ),
        (
            InputFault::New(TableFault::Build(BuildFault::TooManyNodes)),
            "3 New: 3 Build: 1 TooManyNodes",
        ),
        (
            InputFault::Repertoire(RepertoireFault::TooMany),
            "4 Repertoire: 3 TooMany",
        ),
        (
            InputFault::Certificate(CertFault::TooLarge),
            "5 Certificate: 2 TooLarge",
        ),
        (InputFault::NoMemory, "6 NoMemory"),
    ];
    assert_eq!(rt; first_wrong(rt.alloc(), &faults)?, None);
    Ok(())
}

#[test]
fn refusals(rt: HostRuntime) -> Result<(), Fail> {
    let refusals = [
        (
            Refusal::Names(NameFault::TooManyNames),
            "refused: names: 5 TooManyNames",
        ),
        (Refusal::Key { index: 3 }, "refused: key: word 3"),
        (
            Refusal::Table(TableFault::Read(ReadFault::MissingRoot)),
            "refused: table: 1 Read: 1 MissingRoot",
        ),
        (
            Refusal::Side {
                side: Side::Old,
                fault: TableFault::Read(ReadFault::MissingRoot),
            },
            "refused: old: 1 Read: 1 MissingRoot",
        ),
        (
            Refusal::Side {
                side: Side::New,
                fault: TableFault::Build(BuildFault::TooManyNodes),
            },
            "refused: new: 3 Build: 1 TooManyNodes",
        ),
        (
            Refusal::Repertoire(RepertoireFault::TooMany),
            "refused: repertoire: 3 TooMany",
        ),
        (
            Refusal::Certificate(CertFault::TooLarge),
            "refused: certificate: 2 TooLarge",
        ),
        (
            Refusal::Fresh(CheckFault::FreshNotRising),
            "refused: fresh: 13 FreshNotRising",
        ),
        (Refusal::TooManyFresh, "refused: fresh: 3 TooManyFresh"),
        (Refusal::NoMemory, "out of memory"),
    ];
    assert_eq!(rt; first_wrong(rt.alloc(), &refusals)?, None);
    Ok(())
}

#[test]
fn faults_of_typing_words_and_making(rt: HostRuntime) -> Result<(), Fail> {
    let typing = [
        (
            TypeFault::Table(TableFault::Read(ReadFault::MissingRoot)),
            "1 Table: 1 Read: 1 MissingRoot",
        ),
        (TypeFault::NoMemory, "2 NoMemory"),
    ];
    let making = [
        (MakeFault::NoMemory, "1 NoMemory"),
        (
            MakeFault::BadFresh(CheckFault::FreshNotRising),
            "2 BadFresh: 13 FreshNotRising",
        ),
        (MakeFault::TooManyFresh, "3 TooManyFresh"),
    ];
    assert_eq!(rt; first_wrong(rt.alloc(), &typing)?, None);
    assert_eq!(rt; first_wrong(rt.alloc(), &making)?, None);
    Ok(())
}

/// Returns a small table.
fn small_table<T: BuildTable>(alloc: Global) -> Result<T, Fail> {
    let names = core(alloc)?;
    table(alloc, &names, "<dead_acute> <e> : \"é\"\n")
}

/// Expects the faults of keysyms as fresh ones for a small table.
fn expect_fresh<T: BuildTable>(
    rt: &impl Abort,
    alloc: Global,
    faults: &[(&[Keysym], Option<CheckFault>)],
) -> Result<(), Fail> {
    expect_fresh_for::<T>(rt, &small_table(alloc)?, faults);
    Ok(())
}

fn expect_fresh_for<T: BuildTable>(
    rt: &impl Abort,
    old: &T,
    faults: &[(&[Keysym], Option<CheckFault>)],
) {
    for (fresh, fault) in faults {
        assert_eq!(rt; check_fresh(old, fresh), *fault);
    }
}

#[test]
fn faults_of_fresh_keysyms(rt: HostRuntime) -> Result<(), Fail> {
    let fresh = caron();
    let used = Keysym::new(0x65).ok_or("a keysym")?;
    let ignored = Keysym::new(0xffe1).ok_or("a keysym")?;
    let faults: [(&[Keysym], Option<CheckFault>); 5] = [
        (&[], None),
        (&[fresh], None),
        (&[fresh, fresh], Some(CheckFault::FreshNotRising)),
        (
            &[fresh, ignored],
            Some(CheckFault::FreshIgnored { keysym: ignored }),
        ),
        (&[used, fresh], Some(CheckFault::FreshUsed { keysym: used })),
    ];
    expect_fresh::<ListTable>(&rt, rt.alloc(), &faults)?;
    expect_fresh::<PackedTable>(&rt, rt.alloc(), &faults)?;
    Ok(())
}

#[test]
fn memory_that_is_refused(rt: HostRuntime) -> Result<(), Fail> {
    assert_eq!(rt;
        first_wrong(rt.alloc(), &[(NameFault::NoMemory, "6 NoMemory")])?,
        None
    );
    assert_eq!(rt;
        first_wrong(rt.alloc(), &[(ReadFault::NoMemory, "10 NoMemory")])?,
        None
    );
    assert_eq!(rt;
        first_wrong(rt.alloc(), &[(SettleFault::NoMemory, "2 NoMemory")])?,
        None
    );
    assert_eq!(rt;
        first_wrong(rt.alloc(), &[(SourceFault::NoMemory, "3 NoMemory")])?,
        None
    );
    Ok(())
}
