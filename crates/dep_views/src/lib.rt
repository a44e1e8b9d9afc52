//! What the tables show, read inside a transaction: the view that a ruling looks at, of what a request touches, and what a
//! reply shows.
//! Nothing here changes a table; after an `Err` the owner of the transaction gives it back.
#![tactic(auto)]

mod ahead;
mod digests;
mod named;
mod objects;
mod repeats;
mod segments;
mod shown;
mod touched;
mod touching;
mod uploads;
mod view;

pub use ahead::{RowsAhead, WorkAhead, read_rows_ahead};
pub use digests::{hash_named, load_digests};
pub use named::{NamedUploads, load_named};
pub use objects::load_object_view;
pub use shown::load_shown;
pub use touching::touches;
pub use view::{LoadedView, load_view};
