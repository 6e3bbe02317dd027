//! Scripts over new networks.

use crate::net::Outcome;
use pec_outside::MemDepot;
use std::alloc::Global;
use std::test::Fail;

/// The first wrong line of a script whose network began.
pub(crate) fn wrong_line(played: Outcome) -> Result<Option<String>, Fail> {
    let (fault, wrong, _) = played.parts();
    if fault.is_some() {
        Err("it doesn't begin".into())
    } else {
        Ok(wrong)
    }
}

/// A depot of two empty disks, where these calls fail, each by its provider's number and its own.
pub(crate) fn depot_failing(alloc: Global, failing: &[(u32, u64)], kept: &[u64]) -> MemDepot {
    let mut disks = Vec::new(alloc);
    for provider in 0..2u32 {
        let _ = disks.push(calls_of(alloc, failing, provider));
    }
    let kept = Vec::from_slice(alloc, kept).unwrap_or(Vec::new(alloc));
    MemDepot::new(alloc, disks, kept)
}

/// The failing calls of one provider's disk. Where memory is wanting fewer fail, and what comes isn't what has to.
pub(crate) fn calls_of(alloc: Global, failing: &[(u32, u64)], provider: u32) -> Vec<u64> {
    let mut calls = Vec::new(alloc);
    for (whose, call) in failing {
        if *whose == provider {
            let _ = calls.push(*call);
        }
    }
    calls
}
