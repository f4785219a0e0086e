//! The texts of refusals.

use dd_io::{Failed, OutOfMemory, ReadUpFault};
use dd_ops::OpsFault;
use dd_pointer::ShapeFault;
use std::alloc::Global;
use std::fmt::Display;
use std::process::Abort;
use std::test::Fail;

/// A refusal is told by this text.
fn check(rt: &impl Abort, alloc: Global, refusal: &impl Display, text: &str) -> Result<(), Fail> {
    assert_eq!(rt; format!(in alloc; "{refusal}")?.as_str(), text);
    Ok(())
}

#[test]
fn refusals_are_told(rt: HostRuntime) -> Result<(), Fail> {
    let alloc = rt.alloc();
    check(&rt, alloc, &Failed, "reading or writing failed")?;
    check(&rt, alloc, &ReadUpFault::from(Failed), "reading failed")?;
    check(
        &rt,
        alloc,
        &ReadUpFault::TooLong,
        "the input is longer than the limit",
    )?;
    check(&rt, alloc, &ReadUpFault::from(OutOfMemory), "out of memory")?;
    check(
        &rt,
        alloc,
        &OpsFault::TooMany,
        "a present has at most 64 operations",
    )?;
    check(&rt, alloc, &OpsFault::OutOfMemory, "out of memory")?;
    check(
        &rt,
        alloc,
        &ShapeFault::UnknownKind,
        "the kind isn't 1, 2 or 4",
    )?;
    check(
        &rt,
        alloc,
        &ShapeFault::BadSize,
        "a shape of this kind can't have this size",
    )?;
    check(
        &rt,
        alloc,
        &ShapeFault::BadLength { required: 8 },
        "a shape of this size has 8 bytes",
    )?;
    check(
        &rt,
        alloc,
        &ShapeFault::BadMask { at: 7 },
        "the mask at byte 7 is neither 0 nor 255",
    )?;
    check(&rt, alloc, &ShapeFault::OutOfMemory, "out of memory")?;
    Ok(())
}
