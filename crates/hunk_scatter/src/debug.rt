//! What `{:?}` shows of loaders and images: their counts, and not the bytes that they hold.

use crate::body_loader::BodyLoader;
use crate::declared::Declared;
use crate::header_loader::HeaderLoader;
use crate::image::{Image, Segments};
use std::fmt;

impl fmt::Debug for HeaderLoader {
    fn fmt<W: fmt::Write>(&self, f: &mut fmt::Formatter<W>) -> fmt::Result {
        f.debug_struct("HeaderLoader")
            .field("held", &self.held())
            .field("want", &self.want())
            .finish_non_exhaustive()
    }
}

impl fmt::Debug for Declared {
    fn fmt<W: fmt::Write>(&self, f: &mut fmt::Formatter<W>) -> fmt::Result {
        f.debug_struct("Declared")
            .field("hunks", &self.rows.len())
            .field("total", &self.total)
            .field("budget", &self.budget)
            .finish_non_exhaustive()
    }
}

impl fmt::Debug for BodyLoader {
    fn fmt<W: fmt::Write>(&self, f: &mut fmt::Formatter<W>) -> fmt::Result {
        f.debug_struct("BodyLoader")
            .field("hunks", &self.rows.len())
            .field("fed", &self.standing.fed)
            .field("refused", &self.refused)
            .finish_non_exhaustive()
    }
}

impl fmt::Debug for Image {
    fn fmt<W: fmt::Write>(&self, f: &mut fmt::Formatter<W>) -> fmt::Result {
        f.debug_struct("Image")
            .field("hunks", &self.rows.len())
            .field("bytes", &self.store.len())
            .finish_non_exhaustive()
    }
}

impl fmt::Debug for Segments<'_> {
    fn fmt<W: fmt::Write>(&self, f: &mut fmt::Formatter<W>) -> fmt::Result {
        f.debug_struct("Segments")
            .field("hunks", &self.rows.len())
            .field("bytes", &self.rest.len())
            .finish_non_exhaustive()
    }
}
