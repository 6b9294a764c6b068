//! Files that are read part by part, each part as often as it is needed.
#![tactic(auto)]

mod changing;
mod error;
mod file;
mod laws;
mod part;
mod slice;
mod source;

pub use changing::ChangingSource;
pub use error::{PartFault, SourceFault};
pub use file::FileSource;
pub use laws::{changes_are_brought, texts_stay, unlike_passes_differ};
pub use part::read_part;
pub use slice::SliceSource;
pub use source::Source;
