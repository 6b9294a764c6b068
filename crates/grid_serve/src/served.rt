//! A folder that is served.

ghost use Rattle.std.specs.Prelude.{◌≡◌, ◌∷◌, ◌⊎◌, [], false, IfNone, IfOk, IfSome};
ghost use Rattle.std.specs.Prelude.{OnErr, OnOk};
ghost use Rattle.connections.specs.Addresses.{IsAddressText, IsLocal};
ghost use Rattle.connections.specs.Greetings.{greeting_of};
ghost use Rattle.grid_marks.specs.Marks.{IsServers};
ghost use Rattle.grid_serving.specs.Loops.{Fails, Turns, begun_loop};
ghost use Rattle.grid_serve.specs.Plans.{HasMark, HasWanted, IsOpenedFor, IsSaid};
ghost use Rattle.grid_serve.specs.Served.{GivesOut, GoesOnToTheEnd, IsBegunFor, WasServed};
ghost use Rattle.grid_serve.specs.Served.{socket_calls, store_calls};

use crate::counted::CountedStore;
use crate::fault::ServeFault;
use crate::folder::{Serve, lock_folder, mark_to_have, open_server};
use crate::listening::{claim_address, listen, read_address};
use crate::marking::mark_of_word;
use crate::telling::news_line;
use connections::{Address, Greeting, Listener, greeting};
use grid_faults::{Fault, told_path};
use grid_marks::Mark;
use grid_serving::{News, Serving};
use share_folders::folder::FolderStore;
use std::alloc::Global;
use std::io::Write;
use std::marker::Model;
use std::net::Net;
use std::random::RandomSource;
use std::rt::{Clock, Files};
use std::time::Duration;
use user_files::Locks;

// The longest wait of a turn, in milliseconds: time goes on for clients that are still.
const REST: u64 = 1000;

/// A folder that is served, with its clients. No other process serves it meanwhile, or listens at
/// its address.
#[derive(Drop)]
pub struct ServedFolder<R: Files + Locks + AllocGlobal + Clone + Drop> {
    serving: FolderServing<R>,
    // the text of its address
    text: String,
    // locks that are held as long as the folder is served
    folder: R::Lock,
    socket: Option<R::Lock>,
}

impl<R: Files + Locks + AllocGlobal + Clone + Drop> Model for ServedFolder<R> {
    ghost use Rattle.grid_serve.specs.Served.{ServedState};

    ghost Value = { ServedState };

    ghost view = { λ s. s.serving };
}

// The loop of the server of a folder.
type FolderServing<R> = Serving<CountedStore<FolderStore<R>>>;

// What is decided before the folder is changed.
#[derive(Drop)]
struct Plan<R: Locks> {
    text: String,
    address: Address,
    mark: Option<Mark>,
    own: Greeting,
    folder: R::Lock,
    socket: Option<R::Lock>,
}

impl<R> ServedFolder<R>
where
    R: Files + Net + RandomSource + Clock + Locks + AllocGlobal + Clone + Drop,
{
    /// Begins to serve a folder. It is refused in this order: `BadAddress`, `NotLocal` and
    /// `BadParameters` of the words; a fault of the folder, and `InUse` where a process serves it;
    /// `BadMark` and `OtherMark`; and a fault of the file of a Unix socket, and `InUse` where a
    /// process has that. Up to there the file of the socket's lock was made, and a socket removed
    /// at which nobody listens any more. Then the store is opened, and the folder marked.
    pub fn open(rt: &R, serve: &Serve<'_>) -> Result<ServedFolder<R>, ServeFault>
        ensures { IfOk result (IsBegunFor serve.now) }
    {
        let plan = make_plan(rt, serve)?;
        let serving = begin(rt, serve, &plan)?;
        Ok(ServedFolder {
            serving,
            text: plan.text,
            folder: plan.folder,
            socket: plan.socket,
        })
    }

    /// What it listens with.
    pub fn listener(&self) -> &Listener
        ensures { result.now ≡ self.now.listener }
    {
        self.serving.listener()
    }

    /// Waits so long at most for what is ready, and does it. A fault where the system's sockets
    /// fail, and where there was not enough memory: the program is to end then.
    pub fn turn(&mut self, rt: &R, most: Duration) -> Result<(), ServeFault>
        ensures ok { OnOk result (Turns socket_calls store_calls self.old self.new) }
        ensures err { OnErr result (Fails socket_calls store_calls self.old self.new) }
    {
        match self.serving.turn(rt, most) {
            Ok(()) => Ok(()),
            Err(error) => Err(ServeFault::of_sockets(rt.alloc(), self.text.as_str(), error)),
        }
    }

    /// What happened to a client and was not told yet, in its order.
    pub fn next_news(&mut self) -> Option<News>
        ensures some { IfSome result
            (λ one. self.old ≡ record self.new { news = one ∷ self.new.news }) }
        ensures none { IfNone result ((self.old.news ≡ []) × (self.new ≡ self.old)) }
    {
        self.serving.next_news()
    }
}

// Opens the server of a folder, and has it listen.
fn begin<R>(rt: &R, serve: &Serve<'_>, plan: &Plan<R>) -> Result<FolderServing<R>, ServeFault>
where
    R: Files + Net + RandomSource + Clock + Locks + AllocGlobal + Clone + Drop,
    ensures opened { IfOk result (λ serving. IsOpenedFor serve.now serving.server) }
    ensures begun { IfOk result
        (λ serving. serving ≡ begun_loop serving.listener serving.server plan.now.own) }
{
    let server = open_server(rt, serve, plan.mark)?;
    let serving = listen(rt, server, &plan.own, &plan.address, plan.text.as_str())?;
    Ok(serving)
}

// What is decided before the folder is changed.
fn make_plan<R>(rt: &R, serve: &Serve<'_>) -> Result<Plan<R>, ServeFault>
where
    R: Files + Net + Locks + AllocGlobal,
    ensures address { IfOk result (λ plan. IsAddressText serve.now.listen.now plan.address) }
    ensures local { IfOk result (λ plan. serve.now.anyone ≡ false → IsLocal plan.address) }
    ensures mark { IfOk result (λ plan. IfSome plan.mark IsServers) }
    ensures said { IfOk result (λ plan. HasMark serve.now plan.mark) }
    ensures greeting { IfOk result (λ plan. plan.own ≡ greeting_of plan.mark) }
{
    let address = read_address(rt.alloc(), serve.listen, serve.anyone)?;
    let wanted = wanted_mark(rt.alloc(), serve)?;
    let folder = lock_folder(rt, serve.folder)?;
    plan_for(rt, serve, address, wanted, folder)
}

// The mark that the folder is to have, where that is said.
fn wanted_mark(alloc: Global, serve: &Serve<'_>) -> Result<Option<Mark>, ServeFault>
    ensures servers { IfOk result (λ wanted. IfSome wanted IsServers) }
    ensures said { IfOk result (IsSaid serve.now) }
{
    match serve.mark {
        Some(word) => Ok(Some(mark_of_word(alloc, word)?)),
        None => Ok(None),
    }
}

// The same of a folder whose lock is taken.
fn plan_for<R>(
    rt: &R,
    serve: &Serve<'_>,
    address: Address,
    wanted: Option<Mark>,
    folder: R::Lock,
) -> Result<Plan<R>, ServeFault>
where
    R: Files + Net + Locks + AllocGlobal,
    requires { IfSome wanted IsServers }
    ensures address { IfOk result (λ plan. plan.address ≡ address) }
    ensures mark { IfOk result (λ plan. IfSome plan.mark IsServers) }
    ensures wanted { IfOk result (λ plan. HasWanted wanted plan.mark) }
    ensures greeting { IfOk result (λ plan. plan.own ≡ greeting_of plan.mark) }
{
    let (mark, own) = greeting_with(rt, serve, wanted)?;
    let text = String::from_str(rt.alloc(), serve.listen)?;
    let socket = claim_address(rt, &address, serve.listen)?;
    Ok(Plan {
        text,
        address,
        mark,
        own,
        folder,
        socket,
    })
}

// The mark that the folder has or is to have, and what is told to each client first.
fn greeting_with<R>(
    rt: &R,
    serve: &Serve<'_>,
    wanted: Option<Mark>,
) -> Result<(Option<Mark>, Greeting), ServeFault>
where
    R: Files + AllocGlobal,
    requires { IfSome wanted IsServers }
    ensures servers { IfOk result (λ pair. IfSome pair.0 IsServers) }
    ensures wanted { IfOk result (λ pair. HasWanted wanted pair.0) }
    ensures greeting { IfOk result (λ pair. pair.1 ≡ greeting_of pair.0) }
{
    let mark = mark_to_have(rt, serve.folder, wanted)?;
    match greeting(rt.alloc(), mark) {
        Ok(own) => Ok((mark, own)),
        Err(error) => Err(ServeFault::Fault(Fault::from(error))),
    }
}

/// Serves a folder until the process is ended, and tells so. A fault where it is not served, or no
/// longer: `Ok` comes after more turns than there can be. What cannot be told is passed over.
pub fn serve<R, E>(rt: &R, serve: &Serve<'_>, err: &mut E) -> Result<(), ServeFault>
where
    R: Files + Net + RandomSource + Clock + Locks + AllocGlobal + Clone + Drop,
    E: Write,
    ensures { OnOk result (WasServed serve.now) }
{
    let mut served = ServedFolder::open(rt, serve)?;
    run(rt, serve, &mut served, err)
}

// Tells that a folder is served, and goes on with it.
fn run<R, E>(
    rt: &R,
    serve: &Serve<'_>,
    served: &mut ServedFolder<R>,
    err: &mut E,
) -> Result<(), ServeFault>
where
    R: Files + Net + RandomSource + Clock + Locks + AllocGlobal + Clone + Drop,
    E: Write,
    ensures ok { OnOk result (GoesOnToTheEnd served.old served.new) }
    ensures err { OnErr result ((served.new ≡ served.old) ⊎ GivesOut served.old served.new) }
{
    tell_beginning(rt.alloc(), serve, err)?;
    for _ in 0..u64::MAX {
        served.turn(rt, Duration::from_millis(REST))?;
        tell_news(rt.alloc(), serve, served, err);
    }
    Ok(())
}

// Tells that a folder is served now.
fn tell_beginning<E: Write>(
    alloc: Global,
    serve: &Serve<'_>,
    err: &mut E,
) -> Result<(), ServeFault> {
    let folder = told_path(alloc, serve.folder)?;
    let address = told_path(alloc, serve.listen)?;
    let line = format!(in alloc; "serving {folder} at {address}\n")?;
    let _ = err.write_all(line.as_bytes());
    Ok(())
}

// Tells who came and who went, where that is wanted. What there is no memory for is not told.
fn tell_news<R, E>(alloc: Global, serve: &Serve<'_>, served: &mut ServedFolder<R>, err: &mut E)
where
    R: Files + Net + RandomSource + Clock + Locks + AllocGlobal + Clone + Drop,
    E: Write,
    ensures told { served.new ≡ record served.old { news = [] } }
    ensures quiet { serve.now.verbose ≡ false → err.new ≡ err.old }
{
    while let Some(news) = served.next_news() {
        tell_one(alloc, serve, &news, err);
    }
}

// Tells what happened to a client, where that is wanted.
fn tell_one<E: Write>(alloc: Global, serve: &Serve<'_>, news: &News, err: &mut E)
    ensures { serve.now.verbose ≡ false → err.new ≡ err.old }
{
    if !serve.verbose {
        return;
    }
    if let Ok(line) = news_line(alloc, news) {
        let _ = err.write_all(line.as_bytes());
    }
}
