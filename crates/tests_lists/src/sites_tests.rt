//! What stands under the names of servers: folders, and the ways to servers elsewhere.

use grid_servers::{Site, find_site, folder_servers, is_served_elsewhere, standing_servers};
use std::os::unix::net::UnixListener;
use std::test::Fail;
use std::{fs, io};

// The folder of a test, with a name of its own.
fn grid(rt: &HostRuntime, name: &str) -> io::Result<String> {
    let process = std::process::id(rt.process());
    Ok(format!(in rt.alloc(); "/tmp/site-tests-{process}-{name}")?)
}

// The path of what stands for the server of a number below 10.
fn path_of(rt: &HostRuntime, grid: &str, number: u16) -> io::Result<String> {
    Ok(format!(in rt.alloc(); "{grid}/server-00{number}")?)
}

fn writes(rt: &HostRuntime, grid: &str, number: u16, bytes: &[u8]) -> io::Result<()> {
    let path = path_of(rt, grid, number)?;
    fs::write(rt, path.as_str(), bytes)
}

// A folder, a socket, a file with a line and what is for no server.
fn makes_sites(rt: &HostRuntime, grid: &str) -> io::Result<()> {
    fs::create_dir_all(rt, path_of(rt, grid, 0)?.as_str())?;
    UnixListener::bind(rt, path_of(rt, grid, 1)?.as_str())?;
    writes(rt, grid, 2, b"127.0.0.1:7003\n")?;
    writes(rt, grid, 3, b"unix:\xff")?;
    let long = Vec::from_elem(rt.alloc(), b'1', 4097)?;
    writes(rt, grid, 4, long.as_slice())
}

// What stands for a server, by a name of its kind.
fn kind_at(rt: &HostRuntime, grid: &str, number: u16) -> &'static str {
    let site = find_site(rt, grid, number);
    match &site {
        Ok(Site::Folder) => "folder",
        Ok(Site::Socket) => "socket",
        Ok(Site::File(_)) => "file",
        Ok(Site::Other) => "other",
        Ok(Site::Missing) => "missing",
        Err(_) => "fault",
    }
}

// What stands there is told apart. A server that is served elsewhere counts, and one that is to be.
#[test]
fn sites_are_told_apart(rt: HostRuntime) -> Result<(), Fail> {
    let grid = grid(&rt, "kinds")?;
    let grid = grid.as_str();
    makes_sites(&rt, grid)?;
    let kinds = ["folder", "socket", "file", "other", "other", "missing"];
    for (number, kind) in kinds.iter().enumerate() {
        assert!(rt; kind_at(&rt, grid, number as u16) == *kind);
    }
    let file = find_site(&rt, grid, 2);
    assert!(rt; matches!(&file, Ok(Site::File(text)) if text.as_str() == "127.0.0.1:7003\n"));
    let (folder, other) = (
        is_served_elsewhere(&rt, grid, 0),
        is_served_elsewhere(&rt, grid, 4),
    );
    assert!(rt; matches!(&folder, Ok(false)));
    assert!(rt; matches!(&other, Ok(true)));
    fs::remove_dir_all(&rt, grid)?;
    Ok(())
}

// All of them are servers of the grid, and one has a folder.
#[test]
fn servers_elsewhere_count(rt: HostRuntime) -> Result<(), Fail> {
    let grid = grid(&rt, "count")?;
    let grid = grid.as_str();
    makes_sites(&rt, grid)?;
    let standing = standing_servers(&rt, grid);
    assert!(rt;
        matches!(&standing, Ok(servers) if servers.as_slice() == [0, 1, 2, 3, 4].as_slice())
    );
    let here = folder_servers(&rt, grid, false);
    assert!(rt; matches!(&here, Ok(servers) if servers.as_slice() == [0].as_slice()));
    fs::remove_dir_all(&rt, grid)?;
    Ok(())
}
