//! Clients that are still for too long, by a clock of the tests' own.

use crate::scene::{OWN, Scene};
use connections::{Arrival, Wire};
use grid_serving::{GREETING_LIMIT, STILL_LIMIT, WAITING_LIMIT, Why};
use std::alloc::Global;
use std::io;
use std::marker::Model;
use std::test::Fail;

// A wire that brings a greeting, or nothing, and takes what is sent, or nothing.
#[derive(Drop)]
struct Still {
    greets: bool,
    takes: bool,
}

impl Wire for Still {
    ghost calls = { record {
      came = λ old bytes new. Unit {0};
      sent = λ old bytes new. Unit {0};
      ended = λ old new. Unit {0};
      failed = λ old new. Unit {0};
    } };

    fn receive(&mut self, room: &mut [u8]) -> io::Result<Arrival> {
        if !self.greets || room.len() < OWN.len() {
            return Ok(Arrival::NotYet);
        }
        self.greets = false;
        room[..64].copy_from_slice(&OWN);
        Ok(Arrival::Bytes(64))
    }

    fn send(&mut self, bytes: &[u8]) -> io::Result<Option<usize>> {
        if self.takes {
            return Ok(Some(bytes.len()));
        }
        Ok(None)
    }
}

// The last second at which a client over this wire is there.
fn last_second(alloc: Global, greets: bool, takes: bool) -> Result<Option<u64>, Fail> {
    let mut scene = Scene::new(alloc, Still { greets, takes }, 100)?;
    for second in 100..1000 {
        if let Some(why) = scene.turn(second)? {
            return Ok((why == Why::Late).then_some(second - 1));
        }
    }
    Ok(None)
}

#[test]
fn those_that_are_still_end(rt: HostRuntime) -> Result<(), Fail> {
    let alloc = rt.alloc();
    let greeting = last_second(alloc, false, true)?;
    assert!(rt; greeting == Some(99 + GREETING_LIMIT));
    let waiting = last_second(alloc, true, false)?;
    assert!(rt; waiting == Some(99 + WAITING_LIMIT));
    let still = last_second(alloc, true, true)?;
    assert!(rt; still == Some(99 + STILL_LIMIT));
    Ok(())
}
