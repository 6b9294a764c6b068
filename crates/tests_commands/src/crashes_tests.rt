//! The program's commands run until all stops at a call, at each in turn, and each state that a
//! crash may leave of the folders of their grid is looked at.

use crate::crashed_folders::Folders;
use crate::stopping_files::StoppingFiles;
use grid_commands::{DiskFiles, Environment, Locks, grid};
use std::alloc::AllocError;
use std::cell::RefCell;
use std::net::Net;
use std::random::RandomSource;
use std::rt::{Clock, Files};
use std::test::Fail;
use std::{fs, io, str};
use test_disks::Held;
use test_writers::Told;

// What stands where the file is got, and the file.
// A shorter one would stand in its cap.
const FILE: &[u8] = b"The bytes of a file that is kept: its shares stand at two servers.\n";

const OLD: &[u8] = b"an old one";

// Each of two servers has one of two shares.
const NUMBERS: &str = "--k 1 --happy 2 --n 2 --servers 2";

const SERVERS: [&str; 2] = ["grid/server-000", "grid/server-001"];

// No variable is set.
const HERE: Environment<'static> = Environment {
    known: false,
    temporary: "/tmp",
    grid: None,
    secret_file: None,
};

// The command that is stopped, and what it finds.
#[derive(Clone, Copy)]
enum Scene {
    // an empty grid
    Put,
    // the second share is missing
    Repair,
    // the first share is damaged
    Mend,
    // the same
    Scrub,
    // both shares are whole, and another file stands where the file shall
    Get,
}

// A share that a put made: the server that has it, its closed name, and its bytes.
#[derive(Drop)]
struct Share {
    server: usize,
    name: String,
    bytes: Vec<u8>,
}

// A file that was put: its cap, and its shares.
#[derive(Drop)]
struct Kept {
    cap: String,
    shares: Vec<Share>,
}

// A path in a folder that is this process's own.
fn path(rt: &HostRuntime, rest: &str) -> Result<String, AllocError> {
    let process = std::process::id(rt.process());
    format!(in rt.alloc(); "/tmp/grid-crashes-{process}{rest}")
}

fn server_path(rt: &HostRuntime, server: usize) -> Option<String> {
    let server = SERVERS.get(server)?;
    path(rt, format!(in rt.alloc(); "/{server}").ok()?.as_str()).ok()
}

fn share_path(rt: &HostRuntime, share: &Share) -> Option<String> {
    let folder = server_path(rt, share.server)?;
    let name = share.name.as_str();
    format!(in rt.alloc(); "{folder}/{name}").ok()
}

// The command of a scene.
fn line_of(rt: &HostRuntime, scene: Scene, cap: &str) -> Result<String, AllocError> {
    let root = path(rt, "")?;
    let alloc = rt.alloc();
    match scene {
        Scene::Put => format!(in alloc; "grid put -q {root}/file --grid {root}/grid {NUMBERS}"),
        Scene::Mend => {
            format!(in alloc; "grid put -q {root}/file --grid {root}/grid {NUMBERS} --mend")
        }
        Scene::Repair => format!(in alloc; "grid repair {cap} --grid {root}/grid --happy 2"),
        Scene::Scrub => format!(in alloc; "grid scrub --grid {root}/grid --set-aside"),
        Scene::Get => format!(in alloc; "grid get {cap} --grid {root}/grid -o {root}/out"),
    }
}

// The exit status of a command, and what it prints.
fn run<R>(files: &R, line: &str) -> Option<(u8, Vec<u8>)>
where
    R: Files + io::Input + Net + Clock + RandomSource + Locks + AllocGlobal + Clone + Drop,
{
    let alloc = files.alloc();
    let words: Vec<&str> = line.split(' ').collect(alloc).ok()?;
    let mut named = DiskFiles::new(files);
    let mut out = Vec::new(alloc);
    let mut err = Told::new(alloc, false);
    let status = grid(
        files,
        words.as_slice(),
        &HERE,
        &mut named,
        &mut out,
        &mut err,
    );
    Some((status, out))
}

// Makes this process's folder anew, with a file and a grid of two servers that has none.
fn begin(rt: &HostRuntime) -> Option<()> {
    let root = path(rt, "").ok()?;
    let root = root.as_str();
    let _ = fs::remove_dir_all(rt, root);
    fs::create_dir(rt, root).ok()?;
    fs::write(rt, path(rt, "/file").ok()?.as_str(), FILE).ok()?;
    let line = format!(in rt.alloc(); "grid init {root}/grid --servers 2").ok()?;
    let (status, _) = run(rt, line.as_str())?;
    if status == 0 { Some(()) } else { None }
}

// The shares that a server has.
fn shares_at(rt: &HostRuntime, server: usize, shares: &mut Vec<Share>) -> Option<()> {
    let folder = server_path(rt, server)?;
    let folder = folder.as_str();
    for entry in fs::read_dir(rt, folder).ok()? {
        let entry = entry.ok()?;
        let name = entry.file_name();
        if name != "grid-mark" {
            let file = format!(in rt.alloc(); "{folder}/{name}").ok()?;
            let share = Share {
                server,
                name: String::from_str(rt.alloc(), name).ok()?,
                bytes: fs::read(rt, file.as_str()).ok()?,
            };
            shares.push(share).ok()?;
        }
    }
    Some(())
}

// Puts the file on the host.
fn put(rt: &HostRuntime) -> Option<Kept> {
    begin(rt)?;
    let line = line_of(rt, Scene::Put, "").ok()?;
    let (status, out) = run(rt, line.as_str())?;
    if status != 0 {
        return None;
    }
    let mut shares = Vec::new(rt.alloc());
    for server in 0..SERVERS.len() {
        shares_at(rt, server, &mut shares)?;
    }
    let cap = str::from_utf8(&out).ok()?.trim_end();
    Some(Kept {
        cap: String::from_str(rt.alloc(), cap).ok()?,
        shares,
    })
}

// The bytes of a share of which the last is another.
fn damaged(rt: &HostRuntime, share: &Share) -> Option<Vec<u8>> {
    let mut bytes = Vec::from_slice(rt.alloc(), share.bytes.as_slice()).ok()?;
    let last = bytes.last_mut()?;
    *last ^= 1;
    Some(bytes)
}

// Makes on the host what the command of a scene finds.
fn prepare(rt: &HostRuntime, scene: Scene, kept: &Kept) -> Option<()> {
    begin(rt)?;
    if let Scene::Put = scene {
        return Some(());
    }
    for share in kept.shares.as_slice() {
        fs::write(rt, share_path(rt, share)?.as_str(), share.bytes.as_slice()).ok()?;
    }
    match scene {
        Scene::Repair => {
            let missing = kept.shares.get(1)?;
            fs::remove_file(rt, share_path(rt, missing)?.as_str()).ok()?;
        }
        Scene::Mend | Scene::Scrub => {
            let share = kept.shares.first()?;
            let bytes = damaged(rt, share)?;
            fs::write(rt, share_path(rt, share)?.as_str(), bytes.as_slice()).ok()?;
        }
        Scene::Get => fs::write(rt, path(rt, "/out").ok()?.as_str(), OLD).ok()?,
        Scene::Put => {}
    }
    Some(())
}

// Whether a share is whole before the command of a scene.
fn is_whole_before(scene: Scene, number: usize) -> bool {
    match scene {
        Scene::Put => false,
        Scene::Repair => number == 0,
        Scene::Mend | Scene::Scrub => number == 1,
        Scene::Get => true,
    }
}

// Whether a command that is not stopped ends with this status: a scrub finds a damaged share.
fn is_end_of(scene: Scene, status: u8) -> bool {
    match scene {
        Scene::Scrub => status == 5,
        _ => status == 0,
    }
}

// Whether a command that ends well tells that each share is at a server.
fn is_placing(scene: Scene) -> bool {
    matches!(scene, Scene::Put | Scene::Repair | Scene::Mend)
}

// What is known of a folder in all states that a crash may leave of it.
#[derive(Clone, Copy)]
struct Sure {
    // which of the shares are there
    shares: [bool; 2],
    // in how many states
    states: u64,
}

// Looks at a share in a state. A closed name may stand for the damaged share, and for no other
// bytes.
fn look(left: &Held, share: &Share, hurt: Option<&[u8]>, is_there: &mut bool) -> Option<()> {
    let found = left.bytes(share.name.as_str());
    if found == Some(share.bytes.as_slice()) {
        return Some(());
    }
    *is_there = false;
    if found.is_none() || found == hurt {
        Some(())
    } else {
        None
    }
}

// What is known of a server's folder.
fn sure_of(rt: &HostRuntime, held: &Held, kept: &Kept, scene: Scene) -> Option<Sure> {
    let (first, second) = (kept.shares.first()?, kept.shares.get(1)?);
    let hurt = damaged(rt, first)?;
    let hurt = match scene {
        Scene::Mend | Scene::Scrub => Some(hurt.as_slice()),
        _ => None,
    };
    let [mut one, mut two] = [true; 2];
    for choice in 0..u64::MAX {
        let (left, rest) = held.after_crash(rt.alloc(), choice).ok()?;
        if rest != 0 {
            return Some(Sure {
                shares: [one, two],
                states: choice,
            });
        }
        if left.is_likely() {
            look(&left, first, hurt, &mut one)?;
            look(&left, second, None, &mut two)?;
        }
    }
    None
}

// Whether the file of a `get` has what it had or the whole new one, and that where it is told.
fn is_got(rt: &HostRuntime, held: &Held, is_told: bool) -> Option<u64> {
    for choice in 0..u64::MAX {
        let (left, rest) = held.after_crash(rt.alloc(), choice).ok()?;
        if rest != 0 {
            return Some(choice);
        }
        let found = left.bytes("out");
        if found != Some(FILE) && (is_told || found != Some(OLD)) && left.is_likely() {
            return None;
        }
    }
    None
}

// Whether all is right after a command of a scene, which told that it is done or did not; and in
// how many states.
fn states_of(
    rt: &HostRuntime,
    folders: &Folders,
    kept: &Kept,
    scene: Scene,
    is_told: bool,
) -> Option<u64> {
    if let Scene::Get = scene {
        let root = path(rt, "").ok()?;
        return is_got(rt, folders.folder(root.as_str())?, is_told);
    }
    let at = |server| server_path(rt, server);
    let first = sure_of(rt, folders.folder(at(0)?.as_str())?, kept, scene)?;
    let second = sure_of(rt, folders.folder(at(1)?.as_str())?, kept, scene)?;
    for number in 0..2 {
        let share = kept.shares.get(number)?;
        let here = if share.server == 0 { first } else { second };
        let is_kept = !is_whole_before(scene, number) || here.shares[number];
        let is_placed = first.shares[number] || second.shares[number];
        if !is_kept || (is_told && is_placing(scene) && !is_placed) {
            return None;
        }
    }
    Some(first.states.saturating_add(second.states))
}

// The folders of the grid, as they stand, of which so many calls go well.
fn taken(rt: &HostRuntime, stop: u64) -> Option<Folders> {
    let mut folders = Folders::new(rt.alloc(), stop);
    folders.take(rt, path(rt, "").ok()?.as_str()).ok()?;
    folders.take(rt, path(rt, "/grid").ok()?.as_str()).ok()?;
    for server in 0..SERVERS.len() {
        folders.take(rt, server_path(rt, server)?.as_str()).ok()?;
    }
    Some(folders)
}

// In how many states all is right where so many calls go well, and whether the command was done.
fn crash_after(rt: &HostRuntime, scene: Scene, kept: &Kept, stop: u64) -> Option<(u64, bool)> {
    prepare(rt, scene, kept)?;
    let folders = RefCell::new(taken(rt, stop)?);
    let files = StoppingFiles {
        rt: *rt,
        folders: &folders,
    };
    let line = line_of(rt, scene, kept.cap.as_str()).ok()?;
    let (status, _) = run(&files, line.as_str())?;
    let folders = folders.try_borrow().ok()?;
    if folders.is_done() && !is_end_of(scene, status) {
        return None;
    }
    let states = states_of(rt, &folders, kept, scene, status == 0)?;
    Some((states, folders.is_done()))
}

// How many calls a command makes that change something, and how many states were right; at how many
// calls it is not right, none.
fn stops(rt: &HostRuntime, scene: Scene, kept: &Kept) -> Result<(u64, u64), u64> {
    let mut all = 0u64;
    for stop in 0..200 {
        let Some((states, is_done)) = crash_after(rt, scene, kept, stop) else {
            return Err(stop);
        };
        all = all.saturating_add(states);
        if is_done {
            return Ok((stop, all));
        }
    }
    Err(200)
}

#[test]
fn commands_lose_nothing(rt: HostRuntime) -> Result<(), Fail> {
    let Some(kept) = put(&rt) else {
        assert!(rt; false);
        return Ok(());
    };
    assert!(rt; kept.shares.len() == 2);
    for scene in [
        Scene::Put,
        Scene::Repair,
        Scene::Mend,
        Scene::Scrub,
        Scene::Get,
    ] {
        match stops(&rt, scene, &kept) {
            Ok((calls, states)) => assert!(rt; calls >= 4 && states > 20, "{calls} {states}"),
            Err(stop) => assert!(rt; false, "{stop}"),
        }
    }
    fs::remove_dir_all(&rt, path(&rt, "")?.as_str())?;
    Ok(())
}
