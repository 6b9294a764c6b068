//! The marks of a grid, and the secret that is kept with it, on folders of the host.

use grid_faults::Fault;
use grid_marks::{
    AddressFile, add_servers, adopt_grid, can_be_marked, grid_servers_count, known_grid, mark_grid,
    replace_server, server_folder, try_mark,
};
use grid_servers::{draw_secret, grid_secret, keep_secret};
use std::test::Fail;
use std::{fs, io};

// The folder of a test, with a name of its own.
fn grid(rt: &HostRuntime, name: &str) -> io::Result<String> {
    let process = std::process::id(rt.process());
    Ok(format!(in rt.alloc(); "/tmp/marks-tests-{process}-{name}")?)
}

// The number of a fault; 0 of what went well.
fn fault_of<T: Drop>(outcome: Result<T, Fault>) -> u8 {
    match outcome {
        Ok(_) => 0,
        Err(fault) => fault.number(),
    }
}

// Whether these are the names in a folder, however they are ordered.
fn has_names(rt: &HostRuntime, folder: &str, wanted: &[&str]) -> io::Result<bool> {
    let mut count = 0usize;
    for entry in fs::read_dir(rt, folder)? {
        if !wanted.contains(&entry?.file_name()) {
            return Ok(false);
        }
        count = count.saturating_add(1);
    }
    Ok(count == wanted.len())
}

// Whether a grid that has no mark is refused where one is needed.
fn needs_a_mark(rt: &HostRuntime, grid: &str) -> bool {
    fault_of(known_grid(rt, grid)) == 101
        && fault_of(replace_server(rt, grid, 0)) == 101
        && fault_of(add_servers(rt, grid, 1, &[])) == 101
}

// Whether it is marked once.
fn is_marked_once(rt: &HostRuntime, grid: &str) -> io::Result<bool> {
    let is_marked = mark_grid(rt, grid, 2, &[]).is_ok();
    let is_refused = fault_of(can_be_marked(rt, grid)) == 95;
    let names = ["grid-mark", "server-000", "server-001"];
    Ok(is_marked && is_refused && has_names(rt, grid, &names)?)
}

// Whether it grows by a server.
fn grows(rt: &HostRuntime, grid: &str) -> bool {
    matches!(add_servers(rt, grid, 1, &[]), Ok(3))
        && fault_of(add_servers(rt, grid, 254, &[])) == 2
        && matches!(grid_servers_count(rt, grid), Ok(Some(3)))
}

// Whether the disk of server 2 is not replaced by one that holds a file.
fn needs_an_empty_one(rt: &HostRuntime, grid: &str, folder: &str) -> io::Result<bool> {
    let file = format!(in rt.alloc(); "{folder}/file")?;
    fs::write(rt, file.as_str(), "something")?;
    let is_refused = fault_of(replace_server(rt, grid, 2)) == 102;
    let has_none = try_mark(rt, grid, 2).is_err();
    fs::remove_file(rt, file.as_str())?;
    Ok(is_refused && has_none)
}

// Whether a lost disk of server 2 is replaced by an empty one, and by none else.
fn gets_a_new_disk(rt: &HostRuntime, grid: &str, folder: &str) -> io::Result<bool> {
    let stands = has_names(rt, folder, &["grid-mark"])? && try_mark(rt, grid, 2).is_ok();
    fs::remove_dir_all(rt, folder)?;
    let is_missed = fault_of(replace_server(rt, grid, 2)) == 90;
    let is_none = fault_of(replace_server(rt, grid, 3)) == 2;
    fs::create_dir(rt, folder)?;
    let is_told = stands && is_missed && is_none && needs_an_empty_one(rt, grid, folder)?;
    Ok(is_told && replace_server(rt, grid, 2).is_ok() && try_mark(rt, grid, 2).is_ok())
}

// A grid is marked once, grows, and a lost disk of it is replaced by an empty one.
#[test]
fn grids_grow_and_get_new_disks(rt: HostRuntime) -> Result<(), Fail> {
    let grid = grid(&rt, "growing")?;
    let grid = grid.as_str();
    assert!(rt; needs_a_mark(&rt, grid) && is_marked_once(&rt, grid)? && grows(&rt, grid));
    let folder = server_folder(rt.alloc(), grid, 2)?;
    assert!(rt; gets_a_new_disk(&rt, grid, folder.as_str())?);
    fs::remove_dir_all(&rt, grid)?;
    Ok(())
}

// Whether a grid is adopted neither before it is marked nor then.
fn needs_a_lost_mark(rt: &HostRuntime, grid: &str) -> bool {
    fault_of(adopt_grid(rt, grid, None)) == 101
        && mark_grid(rt, grid, 3, &[]).is_ok()
        && fault_of(adopt_grid(rt, grid, None)) == 95
}

// Whether a mark that was lost comes back as it was.
fn comes_back(rt: &HostRuntime, grid: &str, mark: &str) -> io::Result<bool> {
    let text = fs::read(rt, mark)?;
    fs::remove_file(rt, mark)?;
    let is_refused = fault_of(adopt_grid(rt, grid, Some(2))) == 2;
    let is_adopted = matches!(adopt_grid(rt, grid, None), Ok(3));
    Ok(is_refused && is_adopted && fs::read(rt, mark)?.as_slice() == text.as_slice())
}

// Whether a grid that was begun with goes on, with the same number of servers alone.
fn goes_on(rt: &HostRuntime, grid: &str, mark: &str, part: &str) -> io::Result<bool> {
    let text = fs::read(rt, mark)?;
    fs::rename(rt, mark, part)?;
    let is_refused = fault_of(mark_grid(rt, grid, 4, &[])) == 95;
    let is_marked = mark_grid(rt, grid, 3, &[]).is_ok() && !fs::exists(rt, part)?;
    Ok(is_refused && is_marked && fs::read(rt, mark)?.as_slice() == text.as_slice())
}

// A grid whose mark was lost gets it back, and one that was begun with goes on.
#[test]
fn grids_are_adopted_and_begun_again(rt: HostRuntime) -> Result<(), Fail> {
    let grid = grid(&rt, "adopted")?;
    let grid = grid.as_str();
    assert!(rt; needs_a_lost_mark(&rt, grid));
    let mark = format!(in rt.alloc(); "{grid}/grid-mark")?;
    assert!(rt; comes_back(&rt, grid, mark.as_str())?);
    let part = format!(in rt.alloc(); "{mark}.part")?;
    assert!(rt; goes_on(&rt, grid, mark.as_str(), part.as_str())?);
    fs::remove_dir_all(&rt, grid)?;
    Ok(())
}

// Whether a grid keeps no secret.
fn has_no_secret(rt: &HostRuntime, grid: &str) -> bool {
    let Ok(kept) = grid_secret(rt, grid) else {
        return false;
    };
    kept.is_none()
}

// Whether it keeps this one.
fn has_secret(rt: &HostRuntime, grid: &str, wanted: &[u8]) -> bool {
    let Ok(kept) = grid_secret(rt, grid) else {
        return false;
    };
    match kept {
        Some(secret) => secret.as_slice() == wanted,
        None => false,
    }
}

// Whether a grid takes a secret of two lines, and none that is too long.
fn takes_one(rt: &HostRuntime, grid: &str) -> bool {
    has_no_secret(rt, grid)
        && fault_of(keep_secret(rt, grid, &[1; 65])) == 2
        && keep_secret(rt, grid, b"two lines\n").is_ok()
        && has_secret(rt, grid, b"two lines\n")
}

// Whether one is drawn where none is kept.
fn draws_one(rt: &HostRuntime, grid: &str) -> io::Result<bool> {
    let is_refused = fault_of(draw_secret(rt, grid)) == 90;
    let path = format!(in rt.alloc(); "{grid}/grid-secret")?;
    fs::remove_file(rt, path.as_str())?;
    let is_drawn = draw_secret(rt, grid).is_ok();
    Ok(is_refused && is_drawn && fs::read(rt, path.as_str())?.len() == 53)
}

// A grid keeps one secret.
#[test]
fn secrets_are_kept(rt: HostRuntime) -> Result<(), Fail> {
    let grid = grid(&rt, "secret")?;
    let grid = grid.as_str();
    fs::create_dir(&rt, grid)?;
    assert!(rt; takes_one(&rt, grid) && draws_one(&rt, grid)?);
    fs::remove_dir_all(&rt, grid)?;
    Ok(())
}

// Whether the file of a server has this text.
fn has_text(rt: &HostRuntime, grid: &str, server: u16, text: &str) -> io::Result<bool> {
    let path = server_folder(rt.alloc(), grid, server)?;
    Ok(fs::read(rt, path.as_str())?.as_slice() == text.as_bytes())
}

fn file(server: u16, address: &str) -> AddressFile<'_> {
    AddressFile { server, address }
}

// Whether a grid is made with a server elsewhere of its own, and none that it has not.
fn is_made_with(rt: &HostRuntime, grid: &str) -> io::Result<bool> {
    let is_none = fault_of(mark_grid(rt, grid, 2, &[file(2, "unix:a")])) == 2;
    let is_made = mark_grid(rt, grid, 2, &[file(1, "unix:a")]).is_ok();
    let is_old = fault_of(add_servers(rt, grid, 1, &[file(1, "unix:a")])) == 2;
    Ok(is_none && is_made && is_old && has_text(rt, grid, 1, "unix:a\n")?)
}

// Whether it grows by one that has its file already, with the same address alone.
fn grows_by(rt: &HostRuntime, grid: &str) -> io::Result<bool> {
    fs::write(rt, server_folder(rt.alloc(), grid, 2)?.as_str(), "unix:b")?;
    let is_other = fault_of(add_servers(rt, grid, 1, &[file(2, "unix:c")])) == 90;
    let is_same = matches!(add_servers(rt, grid, 1, &[file(2, "unix:b")]), Ok(3));
    Ok(is_other && is_same && has_text(rt, grid, 2, "unix:b")?)
}

// Servers elsewhere have files of one line, which are made with a grid and as it grows.
#[test]
fn servers_elsewhere_have_files(rt: HostRuntime) -> Result<(), Fail> {
    let grid = grid(&rt, "elsewhere")?;
    let grid = grid.as_str();
    assert!(rt; is_made_with(&rt, grid)? && grows_by(&rt, grid)?);
    fs::remove_dir_all(&rt, grid)?;
    Ok(())
}
