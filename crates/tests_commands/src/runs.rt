//! Runs of commands in the tests' folder.
//!
//! The helpers answer no where memory is out or the system refuses a file.

use grid_commands::{DiskFiles, Environment, grid};
use std::alloc::AllocError;
use test_folders::{begins, counted, path, stands, writes};
use test_writers::Told;

// The cap of 56 zero bytes, at one share of one, and what a put of them prints. These and the share
// digest were computed by programs that share no code with these crates.
pub(crate) const ZEROS_CAP: &str = "URI:CHK:vwuwqphq6vtyhagrqwyqajtjoq:\
    mulphu6sadrudv3w5tjchnmax5njyq74hibk3qaudszblkawpxgq:1:1:56";

pub(crate) const ZEROS_PUT: &str = "URI:CHK:vwuwqphq6vtyhagrqwyqajtjoq:\
    mulphu6sadrudv3w5tjchnmax5njyq74hibk3qaudszblkawpxgq:1:1:56\nhappiness 1\n";

pub(crate) const CLOSED: &str =
    "w3hm5rcm33g237wuaijiuuup7q.0.jtekwrxuxx27zctnem7ska6zjwudmdyta5yamq5667dqfdotpzra";

pub(crate) const ONES: &str = "--k 1 --happy 1 --n 1 --servers 1";

// The caps of files whose byte i is i modulo 251, named by their sizes, with the line behind them.
const PUT_56: &str = "URI:CHK:5ervuplwjtqf5caeknmrecgz54:\
    24yuguv5na3h27x2i5w2i77yy5yujv6vcnbabzeljhzb4gaqqzyq:3:10:56\nhappiness 10\n";

const PUT_131074: &str = "URI:CHK:x45opozjlsd45uhibsv2apw46e:\
    upsh3wg4mj5hhojd7qv6ug2rqe7zphsxgbnniumsdns2twtt3vyq:3:10:131074\nhappiness 10\n";

pub(crate) const CAP_56: &str = "URI:CHK:5ervuplwjtqf5caeknmrecgz54:\
    24yuguv5na3h27x2i5w2i77yy5yujv6vcnbabzeljhzb4gaqqzyq:3:10:56";

pub(crate) const CAP_131074: &str = "URI:CHK:x45opozjlsd45uhibsv2apw46e:\
    upsh3wg4mj5hhojd7qv6ug2rqe7zphsxgbnniumsdns2twtt3vyq:3:10:131074";

// The environment of these commands: no variable is set.
pub(crate) const HERE: Environment<'static> = Environment {
    known: false,
    temporary: "/tmp",
    grid: None,
    secret_file: None,
};

// Makes the tests' folder anew, with these bytes in the file in it.
pub(crate) fn makes_file(rt: &HostRuntime, bytes: &[u8]) -> bool {
    begins(rt) && writes(rt, "/file", bytes).is_ok()
}

// Whether a share is there, or is not, in the first server's folder.
pub(crate) fn has_share(rt: &HostRuntime, name: &str, wanted: bool) -> bool {
    match format!(in rt.alloc(); "/grid/server-000/{name}") {
        Ok(rest) => matches!(stands(rt, rest.as_str()), Ok(found) if found == wanted),
        Err(_) => false,
    }
}

pub(crate) fn words_of<'a>(rt: &HostRuntime, line: &'a str) -> Result<Vec<&'a str>, AllocError> {
    line.split(' ').collect(rt.alloc())
}

// `put` of the file of the tests' folder into its grid, with these options.
pub(crate) fn put_line(rt: &HostRuntime, options: &str) -> Result<String, AllocError> {
    let root = path(rt, "")?;
    let gap = if options.is_empty() { "" } else { " " };
    format!(in rt.alloc(); "grid put {root}/file --grid {root}/grid{gap}{options}")
}

// A command on a cap and that grid.
pub(crate) fn cap_line(rt: &HostRuntime, command: &str, cap: &str) -> Result<String, AllocError> {
    let root = path(rt, "")?;
    format!(in rt.alloc(); "grid {command} {cap} --grid {root}/grid")
}

// Whether the words of a line end well, write this to standard output, and tell nothing.
fn gives(rt: &HostRuntime, line: &str, out: &[u8]) -> bool {
    let Ok(words) = words_of(rt, line) else {
        return false;
    };
    let mut written = Vec::new(rt.alloc());
    let mut told = Told::new(rt.alloc(), false);
    let mut files = DiskFiles::new(rt);
    let status = grid(
        rt,
        words.as_slice(),
        &HERE,
        &mut files,
        &mut written,
        &mut told,
    );
    status == 0 && written.as_slice() == out && told.rest().is_empty()
}

// Whether `put` with these options prints this.
fn puts(rt: &HostRuntime, options: &str, out: &str) -> bool {
    match put_line(rt, options) {
        Ok(line) => gives(rt, line.as_str(), out.as_bytes()),
        Err(_) => false,
    }
}

// Whether `put` of 56 zero bytes, at one share of one, goes well.
pub(crate) fn puts_zeros(rt: &HostRuntime) -> bool {
    puts(rt, ONES, ZEROS_PUT)
}

// Makes the tests' folder anew, and puts 56 zero bytes into its grid.
pub(crate) fn begins_with_zeros(rt: &HostRuntime) -> bool {
    makes_file(rt, &[0; 56]) && puts_zeros(rt)
}

// Makes the tests' folder anew, and puts a file whose byte i is i modulo 251 into its grid.
fn begins_with(rt: &HostRuntime, size: usize, out: &str) -> bool {
    match counted(rt, size) {
        Ok(file) => makes_file(rt, &file) && puts(rt, "", out),
        Err(_) => false,
    }
}

// The same of the file of 56 bytes.
pub(crate) fn begins_with_56(rt: &HostRuntime) -> bool {
    begins_with(rt, 56, PUT_56)
}

// The same of the file of 131,074 bytes.
pub(crate) fn begins_with_131074(rt: &HostRuntime) -> bool {
    begins_with(rt, 131_074, PUT_131074)
}

// Whether `get` of the cap of 56 zero bytes gives them.
pub(crate) fn zeros_come(rt: &HostRuntime) -> bool {
    match cap_line(rt, "get", ZEROS_CAP) {
        Ok(line) => gives(rt, line.as_str(), &[0; 56]),
        Err(_) => false,
    }
}
