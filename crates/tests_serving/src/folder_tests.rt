//! Folders that are served.

use crate::guest::{Guest, allocate, id, write};
use connections::{Address, Listener, Socket};
use grid_faults::Fault;
use grid_serve::{Durability, Serve, ServeFault, ServedFolder};
use std::alloc::{AllocError, Global};
use std::os::unix::fs::symlink;
use std::test::Fail;
use std::time::Duration;
use std::{fs, process};
use wire::message::Body;

type Served = ServedFolder<HostRuntime>;

// A folder of the tests' own that no other test has, and the path of a socket beside it.
fn place(rt: &HostRuntime, name: &str) -> Result<(String, String), Fail> {
    let process = process::id(rt.process());
    let folder = format!(in rt.alloc(); "..{name}-{process}")?;
    let address = format!(in rt.alloc(); "unix:{folder}.sock")?;
    fs::create_dir(rt, folder.as_str())?;
    Ok((folder, address))
}

// How a folder is served at an address.
fn how<'a>(folder: &'a str, listen: &'a str) -> Serve<'a> {
    Serve {
        folder,
        listen,
        anyone: false,
        room: None,
        mark: None,
        durability: Durability::Unsynced,
        verbose: false,
    }
}

// The number of the refusal, where a folder is not served.
fn refusal(rt: &HostRuntime, serve: &Serve<'_>) -> Option<u8> {
    match Served::open(rt, serve) {
        Ok(_) => None,
        Err(fault) => Some(fault.number()),
    }
}

// The same, where nothing but the folder and the address is said.
fn refusal_at<'a>(rt: &HostRuntime, folder: &'a str, listen: &'a str) -> Option<u8> {
    refusal(rt, &how(folder, listen))
}

// Removes a folder and what stands beside it.
fn clear(rt: &HostRuntime, folder: &str) -> Result<(), Fail> {
    fs::remove_dir_all(rt, folder)?;
    for ending in ["sock", "sock.lock"] {
        let path = format!(in rt.alloc(); "{folder}.{ending}")?;
        let _ = fs::remove_file(rt, path.as_str());
    }
    Ok(())
}

// The path of a socket's address.
fn path_of(address: &str) -> &str {
    address.strip_prefix("unix:").unwrap_or("")
}

// The number of the refusal while another program listens at this path.
fn refusal_beside(rt: &HostRuntime, serve: &Serve<'_>, path: &str) -> Result<Option<u8>, Fail> {
    let at = Address::Unix(String::from_str(rt.alloc(), path)?);
    let _listener = Listener::bind(rt, &at)?;
    Ok(refusal(rt, serve))
}

// A client that has said its greeting.
fn guest(rt: &HostRuntime, address: &str) -> Result<Guest, Fail> {
    let at = Address::Unix(String::from_str(rt.alloc(), path_of(address))?);
    let mut guest = Guest::over(rt.alloc(), Socket::connect(rt, &at)?)?;
    guest.send()?;
    Ok(guest)
}

// What a served folder answers to a request of a client.
fn answer(
    rt: &HostRuntime,
    served: &mut Served,
    guest: &mut Guest,
    body: Body,
) -> Result<Body, Fail> {
    guest.queue(1, body)?;
    guest.send()?;
    for _ in 0..100 {
        served.turn(rt, Duration::from_millis(5))?;
        if let Some(answer) = guest.hear()? {
            return Ok(answer.body);
        }
    }
    Err(Fail::from("no answer"))
}

// A folder that is served, and a client of it.
#[derive(Drop)]
struct Talk {
    served: Served,
    guest: Guest,
}

impl Talk {
    fn begin(rt: &HostRuntime, serve: &Serve<'_>, address: &str) -> Result<Talk, Fail> {
        let mut served = Served::open(rt, serve)?;
        let guest = guest(rt, address)?;
        served.turn(rt, Duration::from_millis(5))?;
        Ok(Talk { served, guest })
    }

    fn ask(&mut self, rt: &HostRuntime, body: Body) -> Result<Body, Fail> {
        answer(rt, &mut self.served, &mut self.guest, body)
    }

    // Whether there is room for a share of so many bytes.
    fn has_room(&mut self, rt: &HostRuntime, share: u8, size: u64) -> Result<bool, Fail> {
        match self.ask(rt, allocate(share, size)?)? {
            Body::Granted => Ok(true),
            Body::Full => Ok(false),
            _ => Err(Fail::from("another answer")),
        }
    }

    // Whether a share of ten bytes is taken, written and closed.
    fn stores(&mut self, rt: &HostRuntime, share: u8) -> Result<bool, Fail> {
        let granted = self.has_room(rt, share, 10)?;
        let wrote = self.ask(rt, write(rt.alloc(), share, 0, 7, 10)?)?;
        let closed = self.ask(rt, Body::Close(id(share)))?;
        let wrote = matches!(wrote, Body::Wrote(10));
        Ok(granted && wrote && matches!(closed, Body::Closed(_)))
    }
}

// The lengths of the files in a folder.
fn lengths_in(rt: &HostRuntime, folder: &str) -> Result<Vec<u64>, Fail> {
    let mut lengths = Vec::new(rt.alloc());
    for entry in fs::read_dir(rt, folder)? {
        lengths.push(entry?.metadata()?.len())?;
    }
    Ok(lengths)
}

// Whether a share that is put stands in the folder.
fn keeps_one(rt: &HostRuntime, folder: &str, address: &str) -> Result<bool, Fail> {
    let stored = Talk::begin(rt, &how(folder, address), address)?.stores(rt, 0)?;
    Ok(stored && lengths_in(rt, folder)?.as_slice() == [10].as_slice())
}

#[test]
fn a_folder_keeps_shares(rt: HostRuntime) -> Result<(), Fail> {
    let (folder, address) = place(&rt, "keeps")?;
    let keeps = keeps_one(&rt, folder.as_str(), address.as_str())?;
    clear(&rt, folder.as_str())?;
    assert!(rt; keeps);
    Ok(())
}

// The refusals of these two while a third one is served.
fn refusals_beside(
    rt: &HostRuntime,
    served: &Serve<'_>,
    one: &Serve<'_>,
    other: &Serve<'_>,
) -> Result<(Option<u8>, Option<u8>), Fail> {
    let _served = Served::open(rt, served)?;
    Ok((refusal(rt, one), refusal(rt, other)))
}

// Whether neither a folder nor an address is served twice, while they are served; `other` is
// another folder, and an address elsewhere.
fn is_served_by_one(
    rt: &HostRuntime,
    (folder, address): (&str, &str),
    (other, elsewhere): (&str, &str),
) -> Result<bool, Fail> {
    let serve = how(folder, address);
    let (same_folder, same_address) = (how(folder, elsewhere), how(other, address));
    let refused = refusals_beside(rt, &serve, &same_folder, &same_address)?;
    Ok(refused == (Some(105), Some(105)) && refusal(rt, &serve).is_none())
}

// Neither a folder nor an address is served twice. A socket that is left does not keep the next one
// out.
#[test]
fn a_folder_is_served_by_one(rt: HostRuntime) -> Result<(), Fail> {
    let (folder, address) = place(&rt, "one")?;
    let (other, elsewhere) = place(&rt, "other")?;
    let first = (folder.as_str(), address.as_str());
    let by_one = is_served_by_one(&rt, first, (other.as_str(), elsewhere.as_str()))?;
    clear(&rt, other.as_str())?;
    clear(&rt, folder.as_str())?;
    assert!(rt; by_one);
    Ok(())
}

// Whether a file at the path of a socket is refused, and stays.
fn text_stays(rt: &HostRuntime, serve: &Serve<'_>, path: &str) -> Result<bool, Fail> {
    fs::write(rt, path, b"text")?;
    let is_refused = refusal(rt, serve) == Some(90);
    let stays = fs::metadata(rt, path)?.len() == 4;
    fs::remove_file(rt, path)?;
    Ok(is_refused && stays)
}

// What stands at the path of a socket and is none stays, and so does one at which another program
// listens.
#[test]
fn what_is_no_socket_left_behind_stays(rt: HostRuntime) -> Result<(), Fail> {
    let (folder, address) = place(&rt, "stays")?;
    let serve = how(folder.as_str(), address.as_str());
    let path = path_of(address.as_str());
    let text = text_stays(&rt, &serve, path)?;
    let socket = refusal_beside(&rt, &serve, path)? == Some(105);
    let is_served = refusal(&rt, &serve).is_none();
    clear(&rt, folder.as_str())?;
    assert!(rt; text && socket && is_served);
    Ok(())
}

// Whether a link where the lock of a socket is to be is refused, and not followed.
fn link_stays(rt: &HostRuntime, serve: &Serve<'_>, lock: &str, far: &str) -> Result<bool, Fail> {
    symlink(rt, far, lock)?;
    let is_refused = refusal(rt, serve) == Some(90);
    let is_followed = fs::exists(rt, far)?;
    fs::remove_file(rt, lock)?;
    Ok(is_refused && !is_followed)
}

// Whether a socket there is refused, and stays.
fn socket_stays(rt: &HostRuntime, serve: &Serve<'_>, lock: &str) -> Result<bool, Fail> {
    let is_refused = refusal_beside(rt, serve, lock)? == Some(90);
    fs::remove_file(rt, lock)?;
    Ok(is_refused)
}

// What is no file and stands where the lock of a socket is to be is refused, and stays.
#[test]
fn a_lock_that_is_no_file(rt: HostRuntime) -> Result<(), Fail> {
    let (folder, address) = place(&rt, "lock")?;
    let serve = how(folder.as_str(), address.as_str());
    let lock = format!(in rt.alloc(); "{folder}.sock.lock")?;
    let far = format!(in rt.alloc(); "{folder}/far")?;
    let link = link_stays(&rt, &serve, lock.as_str(), far.as_str())?;
    let socket = socket_stays(&rt, &serve, lock.as_str())?;
    let is_served = refusal(&rt, &serve).is_none();
    clear(&rt, folder.as_str())?;
    assert!(rt; link && socket && is_served);
    Ok(())
}

// Whether each of these addresses is refused with this number.
fn all_refused(rt: &HostRuntime, folder: &str, addresses: &[&str], number: u8) -> bool {
    for address in addresses {
        if refusal_at(rt, folder, address) != Some(number) {
            return false;
        }
    }
    true
}

// Whether a folder that is not there is refused, and a file in place of one.
fn no_folder(rt: &HostRuntime, folder: &str, address: &str) -> Result<bool, Fail> {
    let missing = format!(in rt.alloc(); "{folder}/missing")?;
    let is_missed = refusal_at(rt, missing.as_str(), address) == Some(90);
    fs::write(rt, missing.as_str(), b"")?;
    Ok(is_missed && refusal_at(rt, missing.as_str(), address) == Some(90))
}

// Whether every address is served where that is said, and one of this machine where it is not.
fn is_served(rt: &HostRuntime, folder: &str) -> bool {
    let anyone = Serve {
        anyone: true,
        ..how(folder, "0.0.0.0:0")
    };
    refusal(rt, &anyone).is_none() && refusal_at(rt, folder, "[::1]:0").is_none()
}

static BAD_ADDRESSES: [&str; 5] = ["", "unix:", "localhost:70", "127.0.0.1", "127.0.0.1:70000"];

static FAR_ADDRESSES: [&str; 3] = ["0.0.0.0:0", "[::]:0", "10.0.0.1:0"];

#[test]
fn words_and_folders_are_refused(rt: HostRuntime) -> Result<(), Fail> {
    let (folder, address) = place(&rt, "refused")?;
    let folder = folder.as_str();
    let words = all_refused(&rt, folder, &BAD_ADDRESSES, 103)
        && all_refused(&rt, folder, &FAR_ADDRESSES, 104);
    let folders = no_folder(&rt, folder, address.as_str())?;
    let others = is_served(&rt, folder);
    clear(&rt, folder)?;
    assert!(rt; words && folders && others);
    Ok(())
}

const MARK: &str = "grid aaaaaaaaaaaaaaaaaaaaaaaaaa server 3";

// What is refused where a folder is to have this mark.
fn marked(rt: &HostRuntime, folder: &str, mark: Option<&str>) -> Option<u8> {
    let serve = Serve {
        mark,
        ..how(folder, "127.0.0.1:0")
    };
    refusal(rt, &serve)
}

// Whether words that are no mark are refused, and none is written.
fn no_marks(rt: &HostRuntime, folder: &str, path: &str) -> Result<bool, Fail> {
    for word in ["grid", "grid aaaaaaaaaaaaaaaaaaaaaaaaaa server 256"] {
        if marked(rt, folder, Some(word)) != Some(2) {
            return Ok(false);
        }
    }
    Ok(!fs::exists(rt, path)?)
}

// Whether a folder gets this mark.
fn gets_mark(rt: &HostRuntime, folder: &str, path: &str) -> Result<bool, Fail> {
    let is_served = marked(rt, folder, Some(MARK)).is_none();
    let text = fs::read_to_string(rt, path)?;
    Ok(is_served && text.as_str() == "grid aaaaaaaaaaaaaaaaaaaaaaaaaa server 3\n")
}

// Whether a folder that has it is served, told or not, and gets no other.
fn keeps_mark(rt: &HostRuntime, folder: &str) -> bool {
    for other in [
        "grid aaaaaaaaaaaaaaaaaaaaaaaaaa server 4",
        "grid baaaaaaaaaaaaaaaaaaaaaaaaa server 3",
    ] {
        if marked(rt, folder, Some(other)) != Some(97) {
            return false;
        }
    }
    marked(rt, folder, None).is_none() && marked(rt, folder, Some(MARK)).is_none()
}

#[test]
fn a_folder_gets_its_mark(rt: HostRuntime) -> Result<(), Fail> {
    let (folder, _) = place(&rt, "mark")?;
    let folder = folder.as_str();
    let path = format!(in rt.alloc(); "{folder}/grid-mark")?;
    assert!(rt; no_marks(&rt, folder, path.as_str())?);
    assert!(rt; gets_mark(&rt, folder, path.as_str())? && keeps_mark(&rt, folder));
    fs::write(&rt, path.as_str(), b"grid")?;
    assert!(rt; marked(&rt, folder, None) == Some(98));
    clear(&rt, folder)
}

// Whether there is room for 25 bytes of shares: of two of ten bytes, and one of five.
fn keeps_room(rt: &HostRuntime, talk: &mut Talk) -> Result<bool, Fail> {
    let is_too_long = talk.has_room(rt, 0, 26)?;
    let stored = talk.stores(rt, 0)? && talk.stores(rt, 1)?;
    Ok(!is_too_long && stored && talk.has_room(rt, 2, 5)? && !talk.has_room(rt, 3, 1)?)
}

// Whether a share of five bytes that is given up takes no room.
fn gives_room_back(rt: &HostRuntime, talk: &mut Talk) -> Result<bool, Fail> {
    talk.ask(rt, write(rt.alloc(), 2, 0, 7, 5)?)?;
    talk.ask(rt, Body::Abort(id(2)))?;
    Ok(!talk.has_room(rt, 3, 6)? && talk.has_room(rt, 3, 5)?)
}

// Whether a folder that is served so keeps its room.
fn has_that_room(rt: &HostRuntime, serve: &Serve<'_>, address: &str) -> Result<bool, Fail> {
    let mut talk = Talk::begin(rt, serve, address)?;
    Ok(keeps_room(rt, &mut talk)? && gives_room_back(rt, &mut talk)?)
}

// A server takes no more bytes of new shares than it has room for.
#[test]
fn room_is_kept(rt: HostRuntime) -> Result<(), Fail> {
    let (folder, address) = place(&rt, "room")?;
    let serve = Serve {
        room: Some(25),
        ..how(folder.as_str(), address.as_str())
    };
    let keeps = has_that_room(&rt, &serve, address.as_str())?;
    clear(&rt, folder.as_str())?;
    assert!(rt; keeps);
    Ok(())
}

// Whether a refusal tells this text and has this status.
fn tells(alloc: Global, fault: ServeFault, text: &str, status: u8) -> Result<bool, AllocError> {
    let told = format!(in alloc; "{fault}")?;
    Ok(told.as_str() == text && fault.status() == status)
}

#[test]
fn texts_of_refusals(rt: HostRuntime) -> Result<(), Fail> {
    let alloc = rt.alloc();
    let bad = ServeFault::BadAddress(String::from_str(alloc, "a")?);
    assert!(rt; tells(alloc, bad, "BadAddress a", 3)?);
    let other = ServeFault::NotLocal(String::from_str(alloc, "b")?);
    assert!(rt; tells(alloc, other, "NotLocal b", 3)?);
    let used = ServeFault::from(Fault::InUse(String::from_str(alloc, "c")?));
    assert!(rt; tells(alloc, used, "InUse c", 7)?);
    Ok(())
}
