//! A service that keeps its table: a load, a cut at each of its steps, and a start after each.
use compose_cert::Repertoire;
use compose_keep::{Keeper, KeptTable, Scripted};
use compose_model::Rule;
use compose_tree::PackedTable;
use compose_wire::{Body, Payload, Reply, ReplyBody, Request};
use keysym_core::Names;
use std::alloc::{AllocError, Global};
use std::process::Abort;
use std::test::Fail;

const OLD: &str = "<Multi_key> <a> <b> : \"x\"\n";
// the node of <Multi_key> <a> has another number in each table
const NEW: &str = "<Multi_key> <0> <0> : \"v\"\n<Multi_key> <a> <b> : \"x\"\n";

const LAST: &str =
    "<Multi_key> <0> <0> : \"v\"\n<Multi_key> <1> <1> : \"w\"\n<Multi_key> <a> <b> : \"x\"\n";

const OLD_TO_NEW: &str = "compose-certificate 1\nbound 2\npairs 3\n0 0\n1 1\n2 3\ntypings 0\n";

const NEW_TO_LAST: &str =
    "compose-certificate 1\nbound 2\npairs 4\n0 0\n1 1\n2 2\n3 4\ntypings 0\n";

/// Returns the bundle of one source and a certificate.
fn bundle(alloc: Global, source: &str, certificate: &str) -> Result<Vec<u8>, AllocError> {
    let mut bytes = Vec::new(alloc);
    bytes.extend_from_slice(&[0, 1, 0, 1, b'r'])?;
    bytes.extend_from_slice(&u32::try_from(source.len()).unwrap_or(0).to_be_bytes())?;
    bytes.extend_from_slice(source.as_bytes())?;
    bytes.extend_from_slice(&u32::try_from(certificate.len()).unwrap_or(0).to_be_bytes())?;
    bytes.extend_from_slice(certificate.as_bytes())?;
    Ok(bytes)
}

/// Starts a service on a table.
fn start(
    rt: &impl Abort,
    alloc: Global,
    kept: KeptTable,
    fails_at: u64,
) -> Result<Keeper<PackedTable, Scripted>, Fail> {
    let names = Names::core(alloc)?;
    let repertoire = Repertoire::read(alloc, &[])?;
    match Keeper::resume(
        alloc,
        names,
        repertoire,
        Scripted::new(alloc, kept, fails_at),
    ) {
        Ok(keeper) => Ok(keeper),
        Err(_) => panic!(rt; "no start"),
    }
}

/// Answers a load of the payload by a code: 0 if it is accepted, otherwise that of its refusal.
fn load(alloc: Global, keeper: &mut Keeper<PackedTable, Scripted>, payload: Vec<u8>) -> u16 {
    let mut reply = Reply {
        session: 0,
        answer: ReplyBody::Opened,
    };
    let request = Request {
        session: 0,
        body: Body::LoadLongest(Payload::new(payload)),
    };
    keeper.answer_into(alloc, &request, &mut reply);
    match reply.answer {
        ReplyBody::Loaded(_) => 0,
        ReplyBody::Refused(code) => code,
        _ => 99,
    }
}

/// Expects the answers to a load of the second table and to one of the third, in turn.
fn expect_loads(
    rt: &impl Abort,
    alloc: Global,
    keeper: &mut Keeper<PackedTable, Scripted>,
    new: u16,
    last: u16,
) -> Result<(), Fail> {
    let found = load(alloc, keeper, bundle(alloc, NEW, OLD_TO_NEW)?);
    assert_eq!(rt; found, new);
    let found = load(alloc, keeper, bundle(alloc, LAST, NEW_TO_LAST)?);
    assert_eq!(rt; found, last);
    Ok(())
}

/// Expects these answers of a service that starts after a cut at this step.
fn expect_start(
    rt: &impl Abort,
    alloc: Global,
    place: &Scripted,
    step: usize,
    new: u16,
) -> Result<(), Fail> {
    let Ok(found) = place.cut_at(alloc, step) else {
        panic!(rt; "no such step");
    };
    let mut keeper = start(rt, alloc, found, 0)?;
    expect_loads(rt, alloc, &mut keeper, new, 0)
}

#[test]
fn load_is_kept_at_each_cut(rt: HostRuntime) -> Result<(), Fail> {
    let alloc = rt.alloc();
    let old = KeptTable {
        rule: Rule::Longest,
        payload: bundle(alloc, OLD, OLD_TO_NEW)?,
    };
    let mut keeper = start(&rt, alloc, old, 1)?;
    // the first table can't be kept, and the third follows the second only
    expect_loads(&rt, alloc, &mut keeper, 9, 8)?;
    // now both can
    expect_loads(&rt, alloc, &mut keeper, 0, 0)?;
    let place = keeper.place();
    // the old table is found
    expect_start(&rt, alloc, place, 0, 0)?;
    expect_start(&rt, alloc, place, 1, 0)?;
    // the second one is found, which doesn't follow from the first any more
    expect_start(&rt, alloc, place, 2, 8)?;
    expect_start(&rt, alloc, place, 3, 8)
}
