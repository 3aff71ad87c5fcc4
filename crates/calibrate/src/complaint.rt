// What went wrong, in one line for the user.
use std::alloc::{AllocError, Global};
use std::{fmt, io};
use thiserror::Error;

/// What went wrong, in one line for the user.
#[derive(Debug, Drop, Error)]
pub enum Complaint {
    /// a text of its own
    #[error("{0}")]
    Said(String),
    /// the command was not understood
    #[error("no such command; calibrate help shows what there is")]
    Usage,
    /// there is no such kind of row
    #[error("the kind of row is temperature or reflector")]
    Kind,
    /// the story could not be told
    #[error("the story could not be told")]
    Story,
    /// there is no memory left
    #[error("out of memory")]
    NoMemory(#[from(alloc)] AllocError),
    /// standard output or the arguments failed
    #[error("{0}")]
    System(#[from] io::Error),
}

impl Complaint {
    /// A text of its own, if there is memory for it.
    pub(crate) fn said(heap: Global, text: impl fmt::Display + Drop) -> Complaint {
        let text: Result<String, AllocError> = text.to_string(heap);
        text.map_or_else(Complaint::NoMemory, Complaint::Said)
    }
}
