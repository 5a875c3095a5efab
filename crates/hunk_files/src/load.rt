//! Load files.

mod file;
mod filling;
mod header;
mod hunk;
mod hunk_views;
mod image;
mod overlap;
pub(crate) mod passing;
mod ranges;
mod strip;
mod table;
mod view;
mod walk;

pub use crate::load::file::LoadFile;
pub use crate::load::header::header_hunks;
pub use crate::load::hunk_views::{LoadHunkView, LoadHunkViews};
pub use crate::load::image::ImageFault;
pub use crate::load::table::TableIter;
pub use crate::load::view::LoadView;
