//! Files of the system that are cut, grow, are replaced or written over while they are read.

use sources::{FileSource, PartFault, Source, read_part};
use std::fs::File;
use std::test::Fail;
use std::{fs, io};

// The path of a test's file, with a name of its own.
fn path(rt: &HostRuntime, name: &str) -> io::Result<String> {
    let process = std::process::id(rt.process());
    Ok(format!(in rt.alloc(); "/tmp/source-tests-{process}-{name}")?)
}

// A source over a file of eleven bytes.
fn opened(rt: &HostRuntime, path: &str) -> io::Result<FileSource<File>> {
    fs::write(rt, path, "eleven byte")?;
    let file = File::open(rt, path)?;
    let size = file.metadata()?.len();
    Ok(FileSource::new(file, size))
}

// Whether its bytes are read from several offsets, and none behind its end.
fn gives_its_parts(source: &mut FileSource<File>) -> bool {
    let mut out = [0u8; 11];
    let whole = read_part(source, 0, &mut out) == Ok(()) && out == *b"eleven byte";
    let end = read_part(source, 7, &mut out[..4]) == Ok(()) && out.starts_with(b"byte");
    whole && end && source.read_at(11, &mut out) == Ok(0) && source.failures() == 0
}

#[test]
fn a_file_is_read(rt: HostRuntime) -> Result<(), Fail> {
    let path = path(&rt, "whole")?;
    let mut source = opened(&rt, path.as_str())?;
    let is_read = source.len() == 11 && gives_its_parts(&mut source);
    fs::remove_file(&rt, path.as_str())?;
    assert!(rt; is_read);
    Ok(())
}

#[test]
fn a_file_is_cut(rt: HostRuntime) -> Result<(), Fail> {
    let path = path(&rt, "cut")?;
    let mut source = opened(&rt, path.as_str())?;
    let mut out = [0u8; 11];
    fs::write(&rt, path.as_str(), "seven b")?;
    assert!(rt; read_part(&mut source, 0, &mut out) == Err(PartFault::Ended));
    assert!(rt; source.len() == 11 && source.failures() == 0);
    fs::remove_file(&rt, path.as_str())?;
    Ok(())
}

// Whether as many bytes are read as it had when it was opened.
fn gives_the_first(source: &mut FileSource<File>) -> bool {
    let mut out = [0u8; 20];
    let end = source.len() == 11 && source.read_at(7, &mut out) == Ok(4);
    let whole = read_part(source, 0, &mut out[..11]) == Ok(()) && out.starts_with(b"eleven byte");
    end && whole && read_part(source, 0, &mut out) == Err(PartFault::Ended)
}

#[test]
fn a_file_grows(rt: HostRuntime) -> Result<(), Fail> {
    let path = path(&rt, "grown")?;
    let mut source = opened(&rt, path.as_str())?;
    fs::write(&rt, path.as_str(), "eleven bytes and more")?;
    let is_read = gives_the_first(&mut source);
    fs::remove_file(&rt, path.as_str())?;
    assert!(rt; is_read);
    Ok(())
}

// The file that was opened is read on, whatever has its name since.
#[test]
fn a_file_is_replaced(rt: HostRuntime) -> Result<(), Fail> {
    let path = path(&rt, "replaced")?;
    let other = format!(in rt.alloc(); "{path}-other")?;
    let mut source = opened(&rt, path.as_str())?;
    let mut out = [0u8; 11];
    fs::write(&rt, other.as_str(), "another one")?;
    fs::rename(&rt, other.as_str(), path.as_str())?;
    assert!(rt; read_part(&mut source, 0, &mut out) == Ok(()) && out == *b"eleven byte");
    fs::remove_file(&rt, path.as_str())?;
    assert!(rt; read_part(&mut source, 0, &mut out) == Ok(()) && out == *b"eleven byte");
    Ok(())
}

// Whether these eleven bytes are read.
fn gives(source: &mut FileSource<File>, bytes: &[u8]) -> bool {
    let mut out = [0u8; 11];
    read_part(source, 0, &mut out) == Ok(()) && out.as_slice() == bytes
}

// Each read brings what stands there then.
#[test]
fn a_file_is_written_over(rt: HostRuntime) -> Result<(), Fail> {
    let path = path(&rt, "over")?;
    let mut source = opened(&rt, path.as_str())?;
    let first = gives(&mut source, b"eleven byte");
    fs::write(&rt, path.as_str(), "another one")?;
    let second = gives(&mut source, b"another one");
    fs::remove_file(&rt, path.as_str())?;
    assert!(rt; first && second);
    Ok(())
}

// A folder can be opened, and no byte of it be read.
#[test]
fn a_folder_is_no_source(rt: HostRuntime) -> Result<(), Fail> {
    let mut source = FileSource::new(File::open(&rt, "/tmp")?, 11);
    let mut out = [0u8; 11];
    assert!(rt; read_part(&mut source, 0, &mut out) == Err(PartFault::Unreadable));
    assert_eq!(rt; source.failures(), 1);
    Ok(())
}
