//! The files of objects and their contents, written, deleted and listed inside a transaction, as maps.
#![tactic(auto)]

mod ahead;
mod blocks;
mod content;
mod files;
mod held;
mod loading;

pub use ahead::{FilesAhead, HashedFiles, load_files, load_hashed_files, read_files_ahead};
pub use blocks::{delete_blocks, put_blocks};
pub use content::{BLOCK_SIZE, Content};
pub use files::{delete_file, delete_files, put_file};
pub use held::{Held, ReadPart};
pub use loading::find_file;
