//! The headings of the blocks of rows.

use std::fmt;

/// Who worked out the rows of a block.
#[derive(Clone, Copy)]
pub(crate) enum Source {
    Hand,
    Twin,
}

impl fmt::Display for Source {
    fn fmt<W: fmt::Write>(&self, f: &mut fmt::Formatter<W>) -> fmt::Result {
        match self {
            Source::Hand => write!(f, "by hand"),
            Source::Twin => write!(f, "by the twin"),
        }
    }
}
