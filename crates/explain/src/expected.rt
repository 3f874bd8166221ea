// Why a line cannot be read.
use crate::host_text::ClassKind;
use std::alloc::AllocError;
use thiserror::Error;

// What was expected where a line cannot be read.
#[derive(Clone, Copy, Debug, Error)]
pub enum Expected {
    #[error("'request'")]
    Request,
    #[error("a known word")]
    KnownWord,
    #[error("a number up to 18446744073709551615")]
    Number,
    #[error("a name")]
    Name,
    #[error("a pair FROM:TO")]
    Pair,
    #[error("'no', 'yes' or 'unknown'")]
    HasVar,
    #[error("'basic', 'complex', 'custom' or 'force'")]
    Kind,
    #[error("the number of a term given above")]
    GivenTerm,
    #[error("the end of the line")]
    LineEnd,
    #[error("no second 'pattern' line")]
    OnePattern,
    #[error("no second 'terms' or 'nodes' line")]
    OneBindings,
    #[error("no second 'version' line")]
    OneVersion,
    #[error("'{0}', as above")]
    ClassLine(ClassKind),
}

// Only the first of these is the line's fault.
#[derive(Debug, Drop, Error)]
pub enum LineError {
    #[error("expected {0}")]
    Unread(#[from] Expected),
    #[error(transparent)]
    Memory(#[from(alloc)] AllocError),
}
