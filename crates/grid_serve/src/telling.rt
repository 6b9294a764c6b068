//! What is told of clients.

ghost use Rattle.std.specs.Prelude.{◌≡◌, IfOk};
ghost use Rattle.std.specs.String.{string_bytes};
ghost use Rattle.grid_serve.specs.News.{news_text, why_text};

use connections::ConnectionFault;
use grid_serving::{News, Why};
use std::alloc::{AllocError, Global};

/// The line that tells what happened to a client, with its end.
pub fn news_line(alloc: Global, news: &News) -> Result<String, AllocError>
    ensures { IfOk result (λ line. string_bytes line ≡ news_text news.now) }
{
    match news {
        News::Came(node) => format!(in alloc; "client {node} came\n"),
        News::Refused => String::from_str(alloc, "a client was refused: no place is free\n"),
        News::Gone(gone) => {
            let why = why_text(gone.why);
            format!(in alloc; "client {} is gone: {why}\n", gone.node)
        }
    }
}

// Why a client is gone, in words.
fn why_text(why: Why) -> &'static str
    ensures { result.now ≡ why_text why }
{
    match why {
        Why::Ended(ConnectionFault::Ended) => "it ended the connection",
        Why::Ended(ConnectionFault::OtherGreeting) => "it is none of this server's clients",
        Why::Ended(ConnectionFault::NoFrame) => "it sent what is no frame",
        Why::Ended(ConnectionFault::OutOfMemory) => "there was not enough memory for it",
        Why::Late => "nothing came and nothing went for too long",
        Why::NoPlace => "it had not greeted, and another one came",
        Why::OutOfMemory => "there was not enough memory for its message",
    }
}
