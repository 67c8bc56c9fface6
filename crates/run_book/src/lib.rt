//! The book of a run: each frame that was sent, what became of each slave and its services, and how the run ended; and the law of the mails that the
//! master accepts of its slaves over its frames.
#![tactic(auto)]

mod book;
pub mod life_heard;

pub use book::{
    Answer, Begun, Book, Emergency, Ending, Epoch, GramIn, GramOut, Reply, SentFrame, SlaveBook,
};
