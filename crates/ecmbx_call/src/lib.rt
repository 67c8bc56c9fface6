//! The top call of `ecmbx`: words in, a report and a status out. Files, sink, port and link are objects of the caller. `program` is the one call of
//! the program: by its first word it is that of a byte stream, that of a client of the gateway, or else the top call.
#![tactic(auto)]

mod auditing;
mod by_stream;
mod by_word;
mod making;
mod running;
mod serving;
mod top;
mod viewing;

pub use by_stream::stream_call;
pub use by_word::program;
pub use ecmbx_words::Status;
pub use run_book::{Answer, Begun, Book, Ending, Epoch, Reply, SentFrame, SlaveBook};
pub use top::ecmbx;
