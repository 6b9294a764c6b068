//! What a download asks of its servers, and what it hands out.

use crate::cases::{Pieces, Reads, Section, Wanted, Wrong};
use crate::grid::Grid;
use download_core::status::Piece;
use std::alloc::Global;
use std::collections::VecDeque;
use test_shares::held::answer;
use wire::message::{Body, Message, NodeId};

// Bytes of a share that a server was asked for.
#[derive(Clone, Copy)]
struct Asked {
    number: u64,
    server: NodeId,
    share: u8,
    from: u64,
    to: u64,
}

// The servers of a download.
#[derive(Drop)]
pub(crate) struct Site {
    pub(crate) alloc: Global,
    wrong: Wrong,
    pub(crate) now: u64,
    // How many answers servers gave that are silent at some time.
    answers: usize,
    asked: Vec<Asked>,
    // The answers that are late, each with the second at which it comes and its server.
    late: VecDeque<(u64, NodeId, Message)>,
}

impl Site {
    pub(crate) fn new(alloc: Global, wrong: Wrong) -> Site {
        Site {
            alloc,
            wrong,
            now: 0,
            answers: 0,
            asked: Vec::new(alloc),
            late: VecDeque::new(alloc),
        }
    }

    // Is a server silent by now? One that will be is asked once more.
    pub(crate) fn is_silent(&mut self, node: NodeId) -> bool {
        match self.wrong {
            Wrong::Silent(first, last, most) if first <= node && node <= last => {
                self.answers = self.answers.saturating_add(1);
                most < self.answers
            }
            Wrong::LateAndSilent(late, silent, most, _) if node == silent || node == late => {
                self.answers = self.answers.saturating_add(1);
                most < self.answers && node == silent
            }
            _ => false,
        }
    }

    // The second at which the next answer of a server comes.
    pub(crate) fn due(&mut self, node: NodeId) -> u64 {
        match self.wrong {
            Wrong::Late(late, most, seconds) if node == late => {
                self.answers = self.answers.saturating_add(1);
                self.after(most, seconds)
            }
            Wrong::LateAndSilent(late, _, most, seconds) if node == late => {
                self.after(most, seconds)
            }
            _ => self.now,
        }
    }

    // So many seconds from now, where more than so many answers were given.
    fn after(&self, most: usize, seconds: u64) -> u64 {
        if most < self.answers {
            self.now.saturating_add(seconds)
        } else {
            self.now
        }
    }

    // An answer comes at this second. `false` where there is no memory.
    pub(crate) fn keep(&mut self, due: u64, node: NodeId, message: Message) -> bool {
        self.late.push_back((due, node, message)).is_ok()
    }

    // The next answer that was late and is due.
    pub(crate) fn take_due(&mut self) -> Option<(NodeId, Message)> {
        match self.late.front() {
            Some(first) if first.0 <= self.now => {}
            _ => return None,
        }
        match self.late.pop_front() {
            Some((_, node, message)) => Some((node, message)),
            None => None,
        }
    }

    // Notes what is asked for. `false` where there is no memory.
    pub(crate) fn note(&mut self, server: NodeId, request: &Message) -> bool {
        match &request.body {
            Body::Read(id, offset, length) => {
                let asked = Asked {
                    number: request.number,
                    server,
                    share: id.share,
                    from: *offset,
                    to: offset.saturating_add(u64::from(length.get())),
                };
                self.asked.push(asked).is_ok()
            }
            _ => true,
        }
    }

    // What a server answers.
    pub(crate) fn answer(
        &mut self,
        grid: &Grid,
        node: NodeId,
        request: &Message,
    ) -> Option<Message> {
        if self.note(node, request) {
            answer(self.alloc, &grid.held, node, request)
        } else {
            None
        }
    }

    pub(crate) fn has_read(&self, wanted: &Reads) -> bool {
        match wanted {
            Reads::Any => true,
            Reads::Once => !self.asks_twice(),
            Reads::Some(section, count) => !self.asks_twice() && self.count(section) == *count,
        }
    }

    // Was some byte asked for twice? A request that is sent again is the same request.
    fn asks_twice(&self) -> bool {
        for (i, one) in self.asked.iter().enumerate() {
            for other in &self.asked[..i] {
                if other.number != one.number
                    && other.server == one.server
                    && other.share == one.share
                    && other.shared(one.from, one.to) > 0
                {
                    return true;
                }
            }
        }
        false
    }

    // How many bytes of these were asked for.
    fn count(&self, section: &Section) -> u64 {
        let mut count: u64 = 0;
        for asked in &self.asked {
            if asked.share <= section.last {
                count = count.saturating_add(asked.shared(section.from, section.to));
            }
        }
        count
    }
}

impl Asked {
    // How many bytes it has in common with those from an offset to before another.
    fn shared(&self, from: u64, to: u64) -> u64 {
        self.to.min(to).saturating_sub(self.from.max(from))
    }
}

// What a download handed out.
#[derive(Drop)]
pub(crate) struct Taken {
    from: u64,
    // How many bytes, all of them right.
    bytes: usize,
    // How many pieces each time that there were some.
    pieces: Vec<usize>,
}

impl Taken {
    pub(crate) fn new(alloc: Global, from: u64) -> Taken {
        Taken {
            from,
            bytes: 0,
            pieces: Vec::new(alloc),
        }
    }

    // Takes a piece of a file. `false` where it has another offset, or other bytes: where those of
    // the file are not known any are right.
    pub(crate) fn take(&mut self, file: &[u8], piece: &Piece) -> bool {
        let from = self.from.saturating_add(self.bytes as u64);
        let bytes = piece.bytes.as_slice();
        self.bytes = self.bytes.saturating_add(bytes.len());
        piece.offset == from && (file.is_empty() || stands_at(file, from as usize, bytes))
    }

    // So many pieces were taken at once. `false` where there is no memory.
    pub(crate) fn count(&mut self, pieces: usize) -> bool {
        pieces == 0 || self.pieces.push(pieces).is_ok()
    }

    pub(crate) fn is(&self, wanted: &Wanted) -> bool {
        let pieces = self.pieces.as_slice();
        self.bytes == wanted.bytes
            && match wanted.pieces {
                Pieces::Any => true,
                Pieces::First(first) => pieces.first().copied() == Some(first),
                Pieces::Each(each) => pieces == each,
            }
    }
}

fn stands_at(file: &[u8], from: usize, bytes: &[u8]) -> bool {
    file.get(from..from.saturating_add(bytes.len())) == Some(bytes)
}
