//! A file that is put, read and checked over ten servers elsewhere.

use crate::grids::Grid;
use cap_text::ReadCap;
use checker::Check;
use checker::status::Report;
use connections::Wire;
use download_core::Download;
use download_core::status::DownloadStatus;
use file_encoding::Params;
use file_upload::prepared::{FileUpload, PreparedUpload, prepare};
use local_grid::{Outside, carry_on};
use placement::ServerId;
use request_record::operation::Operation;
use served_grid::Network;
use std::alloc::Global;
use std::test::Fail;
use upload_core::Upload;
use upload_core::pieces::WholeShares;
use upload_core::status::{ServerInfo, UploadStatus};
use wire::message::NodeId;

const TEN: [NodeId; 10] = [0, 1, 2, 3, 4, 5, 6, 7, 8, 9];

const SERVERS: [ServerInfo; 10] = [
    ServerInfo {
        node: 0,
        id: ServerId([0; 20]),
    },
    ServerInfo {
        node: 1,
        id: ServerId([1; 20]),
    },
    ServerInfo {
        node: 2,
        id: ServerId([2; 20]),
    },
    ServerInfo {
        node: 3,
        id: ServerId([3; 20]),
    },
    ServerInfo {
        node: 4,
        id: ServerId([4; 20]),
    },
    ServerInfo {
        node: 5,
        id: ServerId([5; 20]),
    },
    ServerInfo {
        node: 6,
        id: ServerId([6; 20]),
    },
    ServerInfo {
        node: 7,
        id: ServerId([7; 20]),
    },
    ServerInfo {
        node: 8,
        id: ServerId([8; 20]),
    },
    ServerInfo {
        node: 9,
        id: ServerId([9; 20]),
    },
];

// The greatest segment of the tests' files.
const SEGMENT: u64 = 4096;

// The most turns of an operation of the tests.
const TURNS: u64 = 1_000_000;

/// A file of so many bytes.
pub(crate) fn file_of(alloc: Global, length: usize) -> Result<Vec<u8>, Fail> {
    let mut file = Vec::with_capacity(alloc, length)?;
    for position in 0..length {
        file.push((position % 253) as u8)?;
    }
    Ok(file)
}

// Carries an operation to its end.
fn carry<W: Wire + Drop, N: Network<W> + Drop, O: Operation>(
    alloc: Global,
    grid: &mut Grid<W, N>,
    operation: &mut O,
) -> Result<(), Fail> {
    match carry_on(alloc, grid, operation, TURNS) {
        Ok(()) => Ok(()),
        Err(_) => Err(Fail::from("a fault of the loop")),
    }
}

fn prepared(alloc: Global, file: &[u8]) -> Option<PreparedUpload> {
    let params = Params::new(3, 7, 10, SEGMENT).ok()?;
    match prepare(alloc, file, b"", &params).ok()? {
        FileUpload::Shares(prepared) => Some(prepared),
        FileUpload::Literal(_) => None,
    }
}

// The upload of a file to ten servers, at 3 of 10 and a happiness of 7, and its read cap.
fn begun_put(alloc: Global, file: &[u8], now: u64) -> Option<(ReadCap, Upload<WholeShares>)> {
    let prepared = prepared(alloc, file)?;
    let cap = *prepared.cap();
    match prepared.into_upload().start(alloc, &SERVERS, 5, now) {
        Ok(upload) => Some((cap, upload)),
        Err(_) => None,
    }
}

/// Puts a file. Its read cap, and with how many servers it is happy.
pub(crate) fn put<W: Wire + Drop, N: Network<W> + Drop>(
    alloc: Global,
    grid: &mut Grid<W, N>,
    file: &[u8],
) -> Result<(ReadCap, usize), Fail> {
    let Some((cap, mut upload)) = begun_put(alloc, file, grid.clock()) else {
        return Err(Fail::from("no upload"));
    };
    carry(alloc, grid, &mut upload)?;
    match upload.status() {
        UploadStatus::Happy(pairs) => Ok((cap, pairs.as_slice().len())),
        _ => Ok((cap, 0)),
    }
}

// Reads the file of a cap. Nothing where the download gives up.
fn get<W: Wire + Drop, N: Network<W> + Drop>(
    alloc: Global,
    grid: &mut Grid<W, N>,
    cap: ReadCap,
) -> Result<Option<Vec<u8>>, Fail> {
    let now = grid.clock();
    let Ok(mut download) = Download::start(alloc, cap, 0, cap.size(), &TEN, 6, now) else {
        return Err(Fail::from("no download"));
    };
    let mut file = Vec::new(alloc);
    for _ in 0..TURNS {
        if !download.is_running() {
            break;
        }
        let _ = carry_on(alloc, grid, &mut download, 1);
        for _ in 0..8 {
            if let Some(piece) = download.take_bytes() {
                file.extend_from_slice(piece.bytes.as_slice())?;
            }
        }
    }
    for _ in 0..TURNS {
        match download.take_bytes() {
            Some(piece) => file.extend_from_slice(piece.bytes.as_slice())?,
            None => break,
        }
    }
    match download.status() {
        DownloadStatus::Done => Ok(Some(file)),
        _ => Ok(None),
    }
}

/// Whether the file of a cap is read as it is.
pub(crate) fn is_read<W: Wire + Drop, N: Network<W> + Drop>(
    alloc: Global,
    grid: &mut Grid<W, N>,
    cap: ReadCap,
    file: &[u8],
) -> Result<bool, Fail> {
    match get(alloc, grid, cap)? {
        Some(read) => Ok(read.as_slice() == file),
        None => Ok(false),
    }
}

/// Checks the file of a cap.
pub(crate) fn check<W: Wire + Drop, N: Network<W> + Drop>(
    alloc: Global,
    grid: &mut Grid<W, N>,
    cap: &ReadCap,
) -> Result<Option<Report>, Fail> {
    let mut check = Check::start(alloc, cap.to_verify(), &TEN, 7, grid.clock())?;
    carry(alloc, grid, &mut check)?;
    Ok(check.report(alloc)?)
}
