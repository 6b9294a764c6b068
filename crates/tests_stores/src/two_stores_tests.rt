//! Two stores over one folder, into which both write one share at once: whatever the order of their
//! calls, both close it, and no closed name ever holds other bytes than those that were written
//! under its digest.

use crate::share_store_tests::{
    Call, GREATER, INDEX, SEVENS, file, gives, open, open_file, remove, right_in_folder,
};
use share_folders::folder::FolderStore;
use share_store::error::StoreError;
use std::alloc::Global;
use std::test::Fail;
use std::{fs, io};

const BYTES: &[u8] = b"\x01\x02\x03\x04\x05";

const OTHER_BYTES: &[u8] = b"\x11\x12\x13\x14";

// What a store is asked in turn, and what another is that writes other bytes under another digest.
static CALLS: [Call; 4] = [
    Call::Write(INDEX, 3, 0, b"\x01\x02"),
    Call::Write(INDEX, 3, 2, b"\x03\x04"),
    Call::Write(INDEX, 3, 4, b"\x05"),
    Call::Close(INDEX, 3, 7),
];

static OTHER_CALLS: [Call; 4] = [
    Call::Write(INDEX, 3, 0, b"\x11"),
    Call::Write(INDEX, 3, 1, b"\x12\x13"),
    Call::Write(INDEX, 3, 3, b"\x14"),
    Call::Close(INDEX, 3, 208),
];

// A store that writes the share, and how many of its calls went well. It stops where one fails.
#[derive(Drop)]
struct Writer {
    store: FolderStore<HostRuntime>,
    calls: &'static [Call; 4],
    done: usize,
    has_failed: bool,
}

impl Writer {
    fn new(rt: &HostRuntime, calls: &'static [Call; 4]) -> Result<Writer, StoreError> {
        Ok(Writer {
            store: open(rt)?,
            calls,
            done: 0,
            has_failed: false,
        })
    }

    // Makes the next call, if there is one.
    fn step(&mut self, alloc: Global) {
        if self.has_failed {
            return;
        }
        let calls = self.calls;
        if let Some(call) = calls.get(self.done) {
            match gives(alloc, &mut self.store, *call) {
                Ok(true) => self.done = self.done.saturating_add(1),
                _ => self.has_failed = true,
            }
        }
    }

    fn has_closed(&self) -> bool {
        let calls = self.calls;
        self.done == calls.len()
    }
}

// Whether there is no closed file of this digest, or one with these bytes.
fn is_none_or_whole(rt: &HostRuntime, digest: &str, wanted: &[u8]) -> Result<bool, Fail> {
    Ok(match fs::read(rt, file(rt, ".3.", digest)?.as_str()) {
        Ok(bytes) => bytes.as_slice() == wanted,
        Err(error) => error.kind() == io::ErrorKind::NotFound,
    })
}

// Whether the share is whole where it is closed.
fn is_whole(rt: &HostRuntime) -> Result<bool, Fail> {
    Ok(is_none_or_whole(rt, SEVENS, BYTES)? && is_none_or_whole(rt, GREATER, OTHER_BYTES)?)
}

// Whether it is, after each of the calls of two stores. A bit of `order`, from the lowest, tells
// which of them makes the next call. At last both have closed the share.
fn close_both(
    rt: &HostRuntime,
    order: u8,
    first: &mut Writer,
    second: &mut Writer,
) -> Result<bool, Fail> {
    for key in 0..8u32 {
        if (order >> key) & 1 == 1 {
            first.step(rt.alloc());
        } else {
            second.step(rt.alloc());
        }
        if !is_whole(rt)? {
            return Ok(false);
        }
    }
    Ok(first.has_closed() && second.has_closed())
}

// Whether two stores that make these calls close the share in this order, and no file of theirs is
// left open.
fn stays_whole(
    rt: &HostRuntime,
    order: u8,
    second_calls: &'static [Call; 4],
) -> Result<bool, Fail> {
    remove(rt)?;
    let mut first = Writer::new(rt, &CALLS)?;
    let mut second = Writer::new(rt, second_calls)?;
    Ok(close_both(rt, order, &mut first, &mut second)? && open_file(rt)?.is_none())
}

// What a third store finds where both wrote the same, and where they did not: there the one with
// the lower digest text counts.
static FOUND: [Call; 3] = [
    Call::Used(0),
    Call::Closed(INDEX, 3, 7),
    Call::Read(INDEX, 3, 0, 9, BYTES),
];

static OTHER_FOUND: [Call; 3] = [
    Call::Used(0),
    Call::Closed(INDEX, 3, 208),
    Call::Read(INDEX, 3, 0, 9, OTHER_BYTES),
];

// Whether it stays so in each order of the calls, and a third store finds the share.
fn stays_whole_in_each_order(
    rt: &HostRuntime,
    second_calls: &'static [Call; 4],
    found: &[Call],
) -> Result<bool, Fail> {
    let mut orders: u32 = 0;
    for order in 0..=255u8 {
        if order.count_ones() == 4 {
            if !stays_whole(rt, order, second_calls)? || right_in_folder(rt, found)? != 3 {
                return Ok(false);
            }
            orders = orders.saturating_add(1);
        }
    }
    remove(rt)?;
    Ok(orders == 70)
}

#[test]
fn two_stores_write_one_share(rt: HostRuntime) -> Result<(), Fail> {
    assert!(rt; stays_whole_in_each_order(&rt, &CALLS, &FOUND)?);
    Ok(())
}

#[test]
fn two_stores_write_other_bytes(rt: HostRuntime) -> Result<(), Fail> {
    assert!(rt; stays_whole_in_each_order(&rt, &OTHER_CALLS, &OTHER_FOUND)?);
    Ok(())
}
