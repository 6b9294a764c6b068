//! What is read of a file, of standard input, or of what can be read once.

use grid_faults::Fault;
use std::alloc::{Allocator, Global};
use std::fs::{Metadata, OpenOptions};
use std::io::{BufRead, Lines, Read};
use std::random::RandomSource;
use std::rt::Files;
use std::test::Fail;
use std::{fs, io};
use user_files::{Input, open_input};

// The host, where standard input is what stands at this path, at a position that is told by what
// stands at another, and has these bytes left where it is read once.
#[derive(Clone, Copy)]
struct Fed<'a> {
    rt: HostRuntime,
    input: &'a str,
    state: &'a str,
    left: &'a [u8],
}

impl<'a> Alloc for Fed<'a> {
    type A = Global;

    fn alloc(&self) -> Global {
        self.rt.alloc()
    }
}

impl<'a> Fed<'a> {
    // The path at which the host has what stands at this one.
    fn at<'b>(&'b self, path: &'b str) -> &'b str {
        match path {
            "/dev/stdin" => self.input,
            "/proc/self/fdinfo/0" => self.state,
            _ => path,
        }
    }
}

impl<'a> Files for Fed<'a> {
    type File = <HostRuntime as Files>::File;

    type Dir = <HostRuntime as Files>::Dir;

    fn open_file(&self, how: &OpenOptions, path: &str) -> io::Result<Self::File> {
        self.rt.open_file(how, self.at(path))
    }

    fn open_dir(&self, path: &str) -> io::Result<Self::Dir> {
        self.rt.open_dir(path)
    }

    fn metadata(&self, path: &str) -> io::Result<Metadata> {
        self.rt.metadata(self.at(path))
    }

    fn symlink_metadata(&self, path: &str) -> io::Result<Metadata> {
        self.rt.symlink_metadata(path)
    }

    fn copy(&self, from: &str, to: &str) -> io::Result<u64> {
        self.rt.copy(from, to)
    }

    fn rename(&self, from: &str, to: &str) -> io::Result<()> {
        self.rt.rename(from, to)
    }

    fn remove_file(&self, path: &str) -> io::Result<()> {
        self.rt.remove_file(path)
    }

    fn create_dir(&self, path: &str) -> io::Result<()> {
        self.rt.create_dir(path)
    }

    fn remove_dir(&self, path: &str) -> io::Result<()> {
        self.rt.remove_dir(path)
    }

    fn remove_dir_all<B: Allocator>(&self, alloc: B, path: &str) -> io::Result<()> {
        self.rt.remove_dir_all(alloc, path)
    }
}

impl<'a> io::Input for Fed<'a> {
    type Reader = &'a [u8];

    fn read_line<A: Allocator + Clone>(&self, _buf: &mut String<A>) -> io::Result<usize> {
        Ok(0)
    }

    fn lines<A: Allocator>(&self, alloc: A) -> Lines<&'a [u8], A> {
        self.left.lines(alloc)
    }

    fn reader(&self) -> &'a [u8] {
        self.left
    }
}

impl<'a> RandomSource for Fed<'a> {
    fn fill_bytes(&self, buf: &mut [u8]) -> io::Result<()> {
        self.rt.fill_bytes(buf)
    }
}

// What is read of a path: so many bytes, an open file of more than ten, or a fault of the path that
// is told.
#[derive(Clone, Copy, PartialEq, Eq)]
enum Came {
    Bytes(usize),
    Opened(u64),
    Fault(bool),
}

// An open file of so many bytes, which it gives.
fn opened<F: Read + Drop>(fed: &Fed<'_>, mut file: F, size: u64) -> Came {
    let mut bytes = Vec::new(fed.alloc());
    match file.read_to_end(&mut bytes) {
        Ok(count) if count as u64 == size => Came::Opened(size),
        _ => Came::Fault(false),
    }
}

fn read_of(fed: &Fed<'_>, path: &str, told: &str) -> Came {
    match open_input(fed, path, "/tmp", 10) {
        Ok(Input::Held(bytes)) => Came::Bytes(bytes.len()),
        Ok(Input::Opened(file, size)) => opened(fed, file, size),
        Err(Fault::File(path, _)) => Came::Fault(path.as_str() == told),
        Err(_) => Came::Fault(false),
    }
}

// A path of a test's own.
fn own_path(rt: &HostRuntime, name: &str) -> io::Result<String> {
    let process = std::process::id(rt.process());
    Ok(format!(in rt.alloc(); "/tmp/input-tests-{process}-{name}")?)
}

// A regular file is held up to the limit, and open above. As standard input it is one where it
// stands at its start, and is read from where it stands elsewhere.
#[test]
fn files_and_standard_input(rt: HostRuntime) -> Result<(), Fail> {
    let (path, told) = (own_path(&rt, "file")?, own_path(&rt, "state")?);
    let (input, state) = (path.as_str(), told.as_str());
    let all = b"0123456789x";
    for (length, wanted) in [
        (0, Came::Bytes(0)),
        (1, Came::Bytes(1)),
        (10, Came::Bytes(10)),
        (11, Came::Opened(11)),
    ] {
        let left = &all[..length];
        let fed = Fed {
            rt,
            input,
            state,
            left,
        };
        fs::write(&rt, input, left)?;
        fs::write(&rt, state, "pos:\t0\nflags:\t0100000\n")?;
        assert!(rt; read_of(&fed, "-", "") == wanted && read_of(&fed, input, "") == wanted);
        fs::write(&rt, input, "not read again")?;
        fs::write(&rt, state, "pos:\t7\nflags:\t0100000\n")?;
        assert!(rt; read_of(&fed, "-", "") == wanted);
    }
    fs::remove_file(&rt, input)?;
    fs::remove_file(&rt, state)?;
    let fed = Fed {
        rt,
        input,
        state,
        left: all,
    };
    assert!(rt; read_of(&fed, input, input) == Came::Fault(true));
    assert!(rt; read_of(&fed, "-", "") == Came::Opened(11));
    Ok(())
}

// A folder cannot be read, and of a device all is read once.
#[test]
fn folders_and_devices(rt: HostRuntime) -> Result<(), Fail> {
    let fed = Fed {
        rt,
        input: "",
        state: "",
        left: b"",
    };
    assert!(rt; read_of(&fed, "/tmp", "/tmp") == Came::Fault(true));
    assert!(rt; read_of(&fed, "/dev/null", "") == Came::Bytes(0));
    Ok(())
}
