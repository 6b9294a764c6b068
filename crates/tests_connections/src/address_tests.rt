//! Which texts are addresses, and which are the machine's own.

use connections::{Address, AddressError};
use std::alloc::{AllocError, Global};
use std::test::Fail;

// What a text is read as, and whether only this machine reaches it.
#[derive(Clone, Copy, PartialEq, Eq)]
enum Seen {
    Local,
    Open,
    Bad,
}

static TEXTS: [(&str, Seen); 22] = [
    ("unix:/run/grid/3.sock", Seen::Local),
    ("unix:3.sock", Seen::Local),
    ("unix:127.0.0.1:7000", Seen::Local),
    ("unix:", Seen::Bad),
    ("unix", Seen::Bad),
    ("UNIX:/run/grid", Seen::Bad),
    (" unix:/run/grid", Seen::Bad),
    ("/run/grid/3.sock", Seen::Bad),
    ("127.0.0.1:7000", Seen::Local),
    ("127.255.255.255:1", Seen::Local),
    ("127.0.0.1:0", Seen::Local),
    ("[::1]:7000", Seen::Local),
    ("0.0.0.0:7000", Seen::Open),
    ("10.9.0.3:7000", Seen::Open),
    ("126.255.255.255:7000", Seen::Open),
    ("[::]:7000", Seen::Open),
    ("[::2]:7000", Seen::Open),
    ("[::ffff:127.0.0.1]:7000", Seen::Open),
    ("127.0.0.1", Seen::Bad),
    ("127.0.0.1:65536", Seen::Bad),
    ("localhost:7000", Seen::Bad),
    ("", Seen::Bad),
];

fn read(alloc: Global, text: &str) -> Result<Seen, AddressError> {
    match Address::read(alloc, text) {
        Ok(address) if address.is_local() => Ok(Seen::Local),
        Ok(_) => Ok(Seen::Open),
        Err(AddressError::BadAddress) => Ok(Seen::Bad),
        Err(error) => Err(error),
    }
}

#[test]
fn texts(rt: HostRuntime) -> Result<(), Fail> {
    for (text, right) in &TEXTS {
        assert!(rt; read(rt.alloc(), text)? == *right, "{text}");
    }
    Ok(())
}

// Whether an address of this machine is taken where none else may be, and another one refused.
fn is_local_alone(alloc: Global) -> Result<bool, AddressError> {
    let is_open = Address::read(alloc, "10.9.0.3:7000")?.check_local();
    let is_own = Address::read(alloc, "[::1]:7000")?.check_local();
    Ok(is_open == Err(AddressError::NotLocal) && is_own == Ok(()))
}

// Whether a refusal has this number and text.
fn is_told(alloc: Global, error: AddressError, right: &str) -> Result<bool, AllocError> {
    let text = format!(in alloc; "{} {error}", error.number())?;
    Ok(text.as_str() == right)
}

#[test]
fn refusals(rt: HostRuntime) -> Result<(), Fail> {
    assert!(rt; is_local_alone(rt.alloc())?);
    assert!(rt; is_told(rt.alloc(), AddressError::BadAddress, "103 BadAddress")?);
    assert!(rt; is_told(rt.alloc(), AddressError::NotLocal, "104 NotLocal")?);
    assert!(rt; is_told(rt.alloc(), AddressError::OutOfMemory, "1 OutOfMemory")?);
    Ok(())
}
