//! The tables of the deposit store in SQLite, and one function for each statement on them. A fault of the
//! store is `StoreFault::Store`, which is also returned where SQLite fails; lack of memory is
//! `StoreFault::Memory`.
#![tactic(auto)]

mod blocks;
mod calls;
mod columns;
mod fault;
mod files;
mod format;
mod keyed;
mod metadata;
mod numbers;
mod objects;
mod owner;
mod reading;
mod segments;
mod sha512s;
mod state;
mod texts;
mod timed_out;
mod uploads;

pub use blocks::{
    delete_blocks, delete_run, first_block, insert_block, last_block, move_blocks, move_run,
    read_block,
};
pub use calls::Statements;
pub use columns::ColumnKind;
pub use fault::fault_of;
pub use files::{delete_file, delete_files, files_of, files_page, find_file, insert_file};
pub use format::write_version;
pub use metadata::{
    MetadataRow, delete_metadata, insert_metadata, last_text, metadata_of, texts_from,
    texts_from_name,
};
pub use numbers::LIMIT;
pub use objects::{delete_object, find_object, insert_object, next_object, write_object};
pub use owner::{
    BlockKey, BlockOwner, BlockPlace, RUN_LENGTH, is_storable_owner, owner_params, run_end,
};
pub use reading::PAGE_SIZE;
pub use segments::{SegmentRow, delete_segments, insert_segment, segments_of};
pub use sha512s::{FileSha512, delete_sha512, find_sha512, insert_sha512};
pub use state::{StateRow, read_state, write_state};
pub use timed_out::{find_timed_out, insert_timed_out};
pub use uploads::{
    LeftUpload, UploadColumns, delete_upload, find_upload, insert_upload, left_before, next_upload,
    write_upload,
};
