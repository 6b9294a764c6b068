//! What a scrub tells its user.

ghost use Rattle.std.specs.Prelude.{◌≡◌, IfOk};
ghost use Rattle.std.specs.String.{string_bytes};
ghost use Rattle.grid_rules.specs.ScrubLines.{aside_after, aside_text, counted, finding_json};
ghost use Rattle.grid_rules.specs.ScrubLines.{finding_line, finding_object, last_json, last_line};
ghost use Rattle.grid_rules.specs.ScrubLines.{removed_text, scrub_status, settled_text, some_text};
ghost use Rattle.grid_rules.specs.ScrubLines.{state_text};

use cap_text::to_base32;
use grid_faults::{Fault, server_name};
use share_scrub::{Action, Finding, State};
use std::alloc::{AllocError, Global};
use wire::message::NodeId;

/// What was found, by how many there are.
#[derive(Clone, Copy, Debug, PartialEq, Eq)]
pub struct Scrubbed {
    /// Closed shares that were looked at, also those that are damaged or could not be read.
    pub shares: u64,
    pub damaged: u64,
    pub unreadable: u64,
    /// Closed shares' names that are those of something else than a regular file.
    pub odd: u64,
    /// Files that were set aside, or are on their way, and still stand so.
    pub aside: u64,
}

impl Scrubbed {
    /// Before the first file.
    pub const NONE: Scrubbed = Scrubbed {
        shares: 0,
        damaged: 0,
        unreadable: 0,
        odd: 0,
        aside: 0,
    };

    /// Counts a file as it was found.
    pub fn count(&mut self, state: &State)
        ensures { self.new ≡ counted self.old state.now }
    {
        match state {
            State::Whole => self.shares = self.shares.saturating_add(1),
            State::Damaged(_) => {
                self.shares = self.shares.saturating_add(1);
                self.damaged = self.damaged.saturating_add(1);
            }
            State::Unreadable(_) => {
                self.shares = self.shares.saturating_add(1);
                self.unreadable = self.unreadable.saturating_add(1);
            }
            State::Odd => self.odd = self.odd.saturating_add(1),
            State::LeftOpen(..) => {}
            State::Aside(_, action) | State::HalfAside(_, action) => {
                self.aside = aside_after(action, self.aside);
            }
        }
    }

    /// The line of all files. Those that could not be read, are odd or were set aside are told
    /// where there are some.
    pub fn line(&self, alloc: Global) -> Result<String, AllocError>
        ensures { IfOk result (λ line. string_bytes line ≡ last_line self.now) }
    {
        let (shares, damaged) = (self.shares, self.damaged);
        let unreadable = some_text(alloc, "unreadable", self.unreadable)?;
        let odd = some_text(alloc, "odd", self.odd)?;
        let aside = some_text(alloc, "aside", self.aside)?;
        format!(in alloc; "shares {shares} damaged {damaged}{unreadable}{odd}{aside}\n")
    }

    /// The JSON object of all files, in a line.
    pub fn json(&self, alloc: Global) -> Result<String, AllocError>
        ensures { IfOk result (λ line. string_bytes line ≡ last_json self.now) }
    {
        let (shares, damaged, unreadable) = (self.shares, self.damaged, self.unreadable);
        let (odd, aside) = (self.odd, self.aside);
        format!(in alloc;
            "{{\"shares\":{shares},\"damaged\":{damaged},\"unreadable\":{unreadable},\
             \"odd\":{odd},\"aside\":{aside}}}\n"
        )
    }

    /// The exit status of a scrub: 0 where each share is whole and none is odd, else 5.
    pub fn status(&self) -> u8
        ensures { result ≡ scrub_status self.now }
    {
        if self.damaged == 0 && self.unreadable == 0 && self.odd == 0 {
            0
        } else {
            5
        }
    }
}

// How many that were set aside there are with one more, where it still stands.
fn aside_after(action: &Action, count: u64) -> u64
    ensures { result ≡ aside_after action.now count }
{
    match action {
        Action::Done => count,
        Action::Left | Action::Failed(_) => count.saturating_add(1),
    }
}

// A count and its word, where there are some.
fn some_text(alloc: Global, word: &str, count: u64) -> Result<String, AllocError>
    ensures { IfOk result (λ text. string_bytes text ≡ some_text word.now count) }
{
    if count == 0 {
        return String::from_str(alloc, "");
    }
    format!(in alloc; " {word} {count}")
}

/// The line of a file that was found at a server.
pub fn finding_line(alloc: Global, server: NodeId, found: &Finding) -> Result<String, Fault>
    ensures { IfOk result (λ line. string_bytes line ≡ finding_line server found.now) }
{
    let (name, share) = (server_name(alloc, server)?, found.file.key.1);
    let index = to_base32(alloc, &found.file.key.0)?;
    let state = state_text(alloc, &found.state)?;
    Ok(format!(in alloc; "{name} {index} {share} {state}\n")?)
}

/// The JSON object of a file that was found at a server, in a line.
pub fn finding_json(alloc: Global, server: NodeId, found: &Finding) -> Result<String, Fault>
    ensures { IfOk result (λ line. string_bytes line ≡ finding_json server found.now) }
{
    let (name, share) = (server_name(alloc, server)?, found.file.key.1);
    let index = to_base32(alloc, &found.file.key.0)?;
    let state = state_text(alloc, &found.state)?;
    finding_object(alloc, name.as_str(), index.as_str(), share, state.as_str())
}

fn finding_object(
    alloc: Global,
    server: &str,
    index: &str,
    share: u8,
    state: &str,
) -> Result<String, Fault>
    ensures { IfOk result
        (λ line. string_bytes line ≡ finding_object server.now index.now share state.now) }
{
    let line = format!(in alloc;
        "{{\"server\":\"{server}\",\"index\":\"{index}\",\"share\":{share},\
         \"verdict\":\"{state}\"}}\n"
    );
    Ok(line?)
}

// How a file was found.
fn state_text(alloc: Global, state: &State) -> Result<String, AllocError>
    ensures { IfOk result (λ text. string_bytes text ≡ state_text state.now) }
{
    match state {
        State::Whole => String::from_str(alloc, "whole"),
        State::Damaged(action) => format!(in alloc; "damaged{}", aside_text(action)),
        State::Unreadable(_) => String::from_str(alloc, "unreadable"),
        State::Odd => String::from_str(alloc, "odd"),
        State::LeftOpen(bytes, action) => {
            format!(in alloc; "open {bytes}{}", removed_text(action))
        }
        State::Aside(bytes, action) => {
            format!(in alloc; "aside {bytes}{}", removed_text(action))
        }
        State::HalfAside(bytes, action) => {
            format!(in alloc; "half-aside {bytes}{}", settled_text(action))
        }
    }
}

// What became of a damaged file.
fn aside_text(action: &Action) -> &'static str
    ensures { result.now ≡ aside_text action.now }
{
    match action {
        Action::Left => "",
        Action::Done => " set-aside",
        Action::Failed(_) => " not-set-aside",
    }
}

// What became of a file that was left open or had been set aside.
fn removed_text(action: &Action) -> &'static str
    ensures { result.now ≡ removed_text action.now }
{
    match action {
        Action::Left => "",
        Action::Done => " removed",
        Action::Failed(_) => " not-removed",
    }
}

// What became of a file that was on its way to be set aside.
fn settled_text(action: &Action) -> &'static str
    ensures { result.now ≡ settled_text action.now }
{
    match action {
        Action::Left => "",
        Action::Done => " settled",
        Action::Failed(_) => " not-settled",
    }
}
