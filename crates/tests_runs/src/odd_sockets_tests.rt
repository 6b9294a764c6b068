//! `put`, `get` and `check` where the sockets of one server of ten do not do as they should: that
//! server is silent from then on, and the others go on.

use crate::host::{Odd, Plan};
use crate::host_runs::{CAP_131074, Ended, begin, of_cap, put, remove};
use std::alloc::AllocError;
use std::io;
use test_folders::counted;

// What is odd, and how happy an upload is then.
static ODDS: [(Odd, u16); 8] = [
    (Odd::Nothing, 10),
    (Odd::Stranger, 10),
    (Odd::NoConnection, 9),
    (Odd::Garbage, 9),
    (Odd::TooLong, 9),
    (Odd::Half, 9),
    (Odd::More, 9),
    (Odd::Ends(0), 9),
];

// Whether a `put` told that the file was put with this happiness.
fn tells_put(rt: &HostRuntime, told: &Ended, happiness: u16) -> Result<bool, AllocError> {
    let lines = format!(in rt.alloc(); "{CAP_131074}\nhappiness {happiness}\n")?;
    Ok(told.is(0, lines.as_bytes(), ""))
}

// Whether a `get` over such sockets gives the file.
fn is_got(rt: &HostRuntime, odd: Odd) -> Result<bool, AllocError> {
    let got = of_cap(rt, &Plan::new(odd), ("get", CAP_131074, " --net"))?;
    Ok(got.is(0, counted(rt, 131_074)?.as_slice(), ""))
}

// Whether a `check` over them tells this happiness.
fn is_checked(rt: &HostRuntime, odd: Odd, happiness: u16) -> Result<bool, AllocError> {
    let checked = of_cap(rt, &Plan::new(odd), ("check", CAP_131074, " --net"))?;
    let last = format!(in rt.alloc(); " recoverable yes happiness {happiness}\n")?;
    let is_told = checked.out.as_slice().ends_with(last.as_bytes());
    Ok(checked.status == 0 && is_told && checked.err.as_slice().is_empty())
}

// Whether a `put` over such sockets has this happiness, and a `get` and a `check` then end well.
fn is_happy(rt: &HostRuntime, odd: Odd, happiness: u16) -> io::Result<bool> {
    begin(rt, 131_074)?;
    let told = put(rt, &Plan::new(odd), " --happy 7 --net")?;
    let is_put = tells_put(rt, &told, happiness)?;
    Ok(is_put && is_got(rt, odd)? && is_checked(rt, odd, happiness)?)
}

#[test]
fn odd_sockets(rt: HostRuntime) {
    for &(odd, happiness) in &ODDS {
        let outcome = is_happy(&rt, odd, happiness);
        assert!(rt; matches!(outcome, Ok(true)), "{happiness}");
    }
    assert!(rt; remove(&rt).is_ok());
}

// How many calls on the server's end go well before it is closed: in the middle of what it is asked
// first, of a share's pieces, and of its last answers. An upload of this file makes some thirty
// calls on it.
const CLOSES: [u64; 12] = [0, 1, 2, 3, 4, 5, 9, 14, 17, 20, 25, 30];

// Whether a `put` of which one socket is closed so is still happy, with nine servers or ten.
fn outlives_a_close(rt: &HostRuntime, odd: Odd, left: u64) -> io::Result<bool> {
    begin(rt, 131_074)?;
    let plan = Plan::new(odd);
    let told = put(rt, &plan, " --happy 7 --net")?;
    let is_whole = plan.calls.get() <= left;
    Ok(tells_put(rt, &told, 9)? || is_whole && tells_put(rt, &told, 10)?)
}

// A socket that is closed in mid-upload.
#[test]
fn a_socket_is_closed(rt: HostRuntime) {
    for left in CLOSES {
        let outcome = outlives_a_close(&rt, Odd::Closes(left), left);
        assert!(rt; matches!(outcome, Ok(true)), "{left}");
    }
    for left in [1, 4, 17] {
        let outcome = outlives_a_close(&rt, Odd::Ends(left), left);
        assert!(rt; matches!(outcome, Ok(true)), "{left}");
    }
    assert!(rt; remove(&rt).is_ok());
}

// Whether a `check` tells that the share of the fourth server is lost, whose socket is closed once
// it told what it holds: its Ask is read and answered by two calls.
fn tells_a_lost_share(rt: &HostRuntime) -> io::Result<bool> {
    begin(rt, 131_074)?;
    let is_put = put(rt, &Plan::new(Odd::Nothing), "")?.status == 0;
    let plan = Plan::new(Odd::Closes(4));
    let checked = of_cap(rt, &plan, ("check", CAP_131074, " --net"))?;
    let Ok(told) = str::from_utf8(checked.out.as_slice()) else {
        return Ok(false);
    };
    let is_lost = told.lines().any(|line| line.starts_with("server-003 ")
        && line.ends_with(" lost"));
    let is_told = told.ends_with("\nhealthy no recoverable yes happiness 9\n");
    Ok(is_put && checked.status == 0 && is_lost && is_told)
}

#[test]
fn a_share_is_lost(rt: HostRuntime) {
    let outcome = tells_a_lost_share(&rt);
    assert!(rt; matches!(outcome, Ok(true)) && remove(&rt).is_ok());
}

const SOCKET_FAULT: &str = "127.0.0.1: address in use\ngrid: 91 SocketFault\n";

// Whether a command on the file's cap tells that no listener can be made.
fn lacks_a_listener(rt: &HostRuntime, command: &str) -> Result<bool, AllocError> {
    let plan = Plan::new(Odd::NoListener);
    Ok(of_cap(rt, &plan, (command, CAP_131074, " --net"))?.is(7, b"", SOCKET_FAULT))
}

// Whether each command does.
fn tells_no_listener(rt: &HostRuntime) -> io::Result<bool> {
    begin(rt, 131_074)?;
    let plan = Plan::new(Odd::NoListener);
    let is_refused = put(rt, &plan, " --net")?.is(7, b"", SOCKET_FAULT);
    let is_put = put(rt, &Plan::new(Odd::Nothing), "")?.status == 0;
    Ok(is_refused && is_put && lacks_a_listener(rt, "get")? && lacks_a_listener(rt, "check")?)
}

#[test]
fn no_listener(rt: HostRuntime) {
    let outcome = tells_no_listener(&rt);
    assert!(rt; matches!(outcome, Ok(true)) && remove(&rt).is_ok());
}

// How many listeners a command on the file's cap makes.
fn listeners_of(rt: &HostRuntime, command: &str, options: &str) -> Result<u64, AllocError> {
    let plan = Plan::new(Odd::Nothing);
    of_cap(rt, &plan, (command, CAP_131074, options))?;
    Ok(plan.listeners.get())
}

// The same of a put of the file.
fn put_listeners(rt: &HostRuntime, options: &str) -> Result<u64, AllocError> {
    let plan = Plan::new(Odd::Nothing);
    put(rt, &plan, options)?;
    Ok(plan.listeners.get())
}

// In memory no socket is made, and with `--net` each of ten servers listens.
#[test]
fn servers_listen_with_net_alone(rt: HostRuntime) {
    assert!(rt; begin(&rt, 131_074).is_ok());
    for (options, wanted) in [("", 0), (" --net", 10)] {
        assert!(rt; matches!(put_listeners(&rt, options), Ok(made) if made == wanted));
        for command in ["get", "check"] {
            let made = listeners_of(&rt, command, options);
            assert!(rt; matches!(made, Ok(made) if made == wanted), "{command}");
        }
    }
    assert!(rt; remove(&rt).is_ok());
}
