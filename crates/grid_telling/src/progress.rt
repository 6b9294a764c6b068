//! How far a command is, told in one line of a terminal, and notes beside it.

use crate::progress_lines::{
    Amount, FileCount, Remark, Verb, encoding_line, files_line, progress_line, seconds_left,
};
use local_grid::watched::Watch;
use std::alloc::{AllocError, Global};
use std::io::{IsTerminal, Write};
use std::rt::Clock;
use std::time::{Duration, Instant};
use wire::message::{Body, Message, NodeId};

// How long a command runs before it tells how far it is, in milliseconds.
const FIRST_PAUSE: u64 = 1000;

// How long it goes on before it tells so again.
const PAUSE: u64 = 100;

// How long nothing comes before the server is told that it waits for.
const WAITING: u64 = 3000;

// Back to the line's beginning, and the line is cleared.
const CLEAR: &str = "\r\x1b[K";

// The least file in bytes whose encoding takes about a second.
const LONG_ENCODING: u64 = 1 << 24;

// So many servers are there at most.
const SERVERS: usize = 256;

/// Which bytes count as done.
#[derive(Clone, Copy, PartialEq, Eq)]
pub enum Counting {
    /// Those of shares that are written to servers.
    Stored,
    /// Those of shares that servers answer; each share that a server holds has about so many.
    Answered(u64),
    /// Those that the command adds by itself.
    Added,
}

// When a stage began, when its line was told last, and when the last byte came.
#[derive(Clone, Copy)]
struct Times {
    began: Instant,
    told: Instant,
    moved: Instant,
}

// Of a command over many files: those that are done, and when the first began.
#[derive(Clone, Copy)]
struct AllFiles {
    count: FileCount,
    began: Option<Instant>,
}

/// Tells how far a command is, in one line that is written anew in its place, where there is a
/// terminal. A fault of the clock or of the line is passed over.
#[derive(Drop)]
pub struct Progress<'a, R, E> {
    rt: &'a R,
    alloc: Global,
    to: &'a mut E,
    // `None` where nothing is told
    times: Option<Times>,
    pause: u64,
    is_shown: bool,
    verb: Verb,
    counting: Counting,
    amount: Amount,
    // its bytes are those of a file that is encoded, and not yet stored
    is_encoding: bool,
    // `None` where the command is of one file
    files: Option<AllFiles>,
    verbose: bool,
    // by the servers' numbers: which took no shares
    refusals: [bool; SERVERS],
}

impl<'a, R, E> Progress<'a, R, E>
where
    R: Clock + AllocGlobal,
    E: Write + IsTerminal,
{
    /// A command that begins.
    pub fn new(rt: &'a R, to: &'a mut E) -> Progress<'a, R, E> {
        let times = if to.is_terminal() {
            times_from(rt)
        } else {
            None
        };
        Progress {
            rt,
            alloc: rt.alloc(),
            to,
            times,
            pause: FIRST_PAUSE,
            is_shown: false,
            verb: Verb::Get,
            counting: Counting::Added,
            amount: NOTHING,
            is_encoding: false,
            files: None,
            verbose: false,
            refusals: [false; SERVERS],
        }
    }

    /// Whether notes are told from now on.
    pub fn set_verbose(&mut self, verbose: bool) {
        self.verbose = verbose;
    }

    /// Whether notes are told.
    pub fn is_verbose(&self) -> bool {
        self.verbose
    }

    /// A stage of this command begins, of so many bytes.
    pub fn begin(&mut self, verb: Verb, counting: Counting, total: u64) {
        self.verb = verb;
        self.counting = counting;
        self.amount = Amount { done: 0, total };
        self.is_encoding = false;
        if let (Some(times), Ok(now)) = (self.times, Instant::now(self.rt)) {
            self.times = Some(Times {
                began: now,
                told: times.told,
                moved: now,
            });
        }
    }

    /// So many files are done from now on, one after the other: the line is of all of them.
    pub fn begin_files(&mut self, total: u64) {
        let count = FileCount {
            done: 0,
            total: u32::try_from(total).unwrap_or(u32::MAX),
            bytes: 0,
        };
        let began = Instant::now(self.rt).ok();
        self.files = Some(AllFiles { count, began });
    }

    /// One of them is done.
    pub fn end_file(&mut self) {
        if let Some(files) = self.files {
            let FileCount { done, total, bytes } = files.with(self.moved());
            let done = done.saturating_add(1).min(total);
            self.amount = NOTHING;
            self.files = Some(AllFiles {
                count: FileCount { done, total, bytes },
                began: files.began,
            });
        }
    }

    /// A file of so many bytes is encoded now, by one call.
    pub fn encode(&mut self, verb: Verb, size: u64) {
        self.begin(verb, Counting::Added, size);
        self.is_encoding = true;
        if self.times.is_some() && self.files.is_none() && size >= LONG_ENCODING {
            self.show(encoding_line(self.alloc, verb, size));
        }
    }

    /// So many more bytes are to be done.
    pub fn expect(&mut self, bytes: u64) {
        self.amount.total = self.amount.total.saturating_add(bytes);
    }

    /// So many more bytes are done.
    pub fn add(&mut self, bytes: u64) {
        self.move_on(bytes, None);
    }

    /// Clears the line, where one is shown.
    pub fn clear(&mut self) {
        if self.is_shown {
            self.is_shown = false;
            let _ = self.to.write_all(CLEAR.as_bytes());
        }
    }

    /// Tells a line of its own, which ends itself, whether standard error is a terminal or not. A
    /// fault of it is passed over.
    pub fn tell(&mut self, line: &str) {
        self.clear();
        let _ = self.to.write_all(line.as_bytes());
    }

    /// The same, where notes are told.
    pub fn note(&mut self, line: &str) {
        if self.verbose {
            self.tell(line);
        }
    }

    /// Whether a server said that it takes no further shares, or has no room for one.
    pub fn is_refusal(&self, server: NodeId) -> bool {
        self.refusals
            .get(usize::from(server))
            .is_some_and(|refused| *refused)
    }

    // So many more bytes are done, and this server is asked, where one is.
    fn move_on(&mut self, bytes: u64, server: Option<NodeId>) {
        let done = self.amount.done.saturating_add(bytes);
        self.amount.done = done.min(self.amount.total);
        let Some(times) = self.times else {
            return;
        };
        let Ok(now) = Instant::now(self.rt) else {
            return;
        };
        let moved = if bytes == 0 { times.moved } else { now };
        let is_due = now.duration_since(times.told) >= Duration::from_millis(self.pause);
        let told = if is_due { now } else { times.told };
        self.times = Some(Times {
            began: times.began,
            told,
            moved,
        });
        if is_due {
            self.pause = PAUSE;
            let line = self.line(&times, now, server);
            self.show(line);
        }
    }

    // The line of this file, or of all files.
    fn line(
        &self,
        times: &Times,
        now: Instant,
        server: Option<NodeId>,
    ) -> Result<String, AllocError> {
        let waiting = waited_for(times, now, server);
        match &self.files {
            None => {
                let left = left_since(times.began, now, &self.amount);
                progress_line(self.alloc, self.verb, &self.amount, waiting.unwrap_or(left))
            }
            Some(files) => {
                let (count, left) = (files.with(self.moved()), files.left(now));
                files_line(self.alloc, self.verb, &count, waiting.unwrap_or(left))
            }
        }
    }

    // How many bytes of this file were moved.
    fn moved(&self) -> u64 {
        if self.is_encoding {
            0
        } else {
            self.amount.done
        }
    }

    // Writes the line in the place of the last one, by one write.
    fn show(&mut self, line: Result<String, AllocError>) {
        let Ok(line) = line else {
            return;
        };
        if let Ok(text) = format!(in self.alloc; "{CLEAR}{line}") {
            self.is_shown = true;
            let _ = self.to.write_all(text.as_bytes());
        }
    }

    // Takes note of an answer of a server that is to store shares.
    fn hear_of_store(&mut self, server: NodeId, body: &Body) {
        match body {
            Body::Have(readonly, _) => {
                if *readonly {
                    self.refuse(server);
                }
            }
            Body::Full => self.refuse(server),
            _ => {}
        }
    }

    // Takes note of an answer of a server that is to give shares of so many bytes.
    fn hear_of_shares(&mut self, server: NodeId, body: &Body, share: u64) {
        match body {
            Body::Have(_, held) => {
                self.expect(share.saturating_mul(held.as_slice().len() as u64));
            }
            Body::Data(data) => self.move_on(data.as_slice().len() as u64, Some(server)),
            _ => {}
        }
    }

    // Takes note of a server that takes no share.
    fn refuse(&mut self, server: NodeId) {
        if let Some(refused) = self.refusals.get_mut(usize::from(server)) {
            *refused = true;
        }
    }
}

impl AllFiles {
    // With so many bytes of the file that is under way.
    fn with(&self, bytes: u64) -> FileCount {
        FileCount {
            done: self.count.done,
            total: self.count.total,
            bytes: self.count.bytes.saturating_add(bytes),
        }
    }

    // The time that is left, reckoned by the files that are done.
    fn left(&self, now: Instant) -> Remark {
        let Some(began) = self.began else {
            return Remark::Nothing;
        };
        let amount = Amount {
            done: u64::from(self.count.done),
            total: u64::from(self.count.total),
        };
        left_since(began, now, &amount)
    }
}

// The server that is waited for, where nothing came for so long.
fn waited_for(times: &Times, now: Instant, server: Option<NodeId>) -> Option<Remark> {
    if now.duration_since(times.moved) < Duration::from_millis(WAITING) {
        return None;
    }
    server.map(|server| Remark::WaitsFor(server))
}

// The time that is left of what began then.
fn left_since(began: Instant, now: Instant, amount: &Amount) -> Remark {
    let elapsed = now.duration_since(began).as_millis();
    match seconds_left(u64::try_from(elapsed).unwrap_or(u64::MAX), amount) {
        Some(seconds) => Remark::Left(seconds),
        None => Remark::Nothing,
    }
}

const NOTHING: Amount = Amount { done: 0, total: 0 };

// All from now on; `None` without a clock.
fn times_from<R: Clock>(rt: &R) -> Option<Times> {
    let now = Instant::now(rt).ok()?;
    Some(Times {
        began: now,
        told: now,
        moved: now,
    })
}

impl<'a, R, E> Watch for Progress<'a, R, E>
where
    R: Clock + AllocGlobal,
    E: Write + IsTerminal,
{
    fn asked(&mut self, server: NodeId, message: &Message) {
        let bytes = match &message.body {
            Body::Write(_, _, data) if self.counting == Counting::Stored => data.as_slice().len(),
            _ => 0,
        };
        self.move_on(bytes as u64, Some(server));
    }

    fn heard(&mut self, server: NodeId, message: &Message) {
        match self.counting {
            Counting::Stored => self.hear_of_store(server, &message.body),
            Counting::Answered(share) => self.hear_of_shares(server, &message.body, share),
            Counting::Added => {}
        }
    }
}

impl<'a, R, E> share_files::Watch for Progress<'a, R, E>
where
    R: Clock + AllocGlobal,
    E: Write + IsTerminal,
{
    fn on_read(&mut self, bytes: u64) {
        self.add(bytes);
    }
}
