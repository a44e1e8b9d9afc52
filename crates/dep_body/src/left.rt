//! What is left of a chunk.
ghost use Rattle.std.specs.Prelude.{◌<◌};

/// How many bytes of a chunk are to come.
#[derive(Clone, Copy)]
pub(crate) struct DataLeft {
    pub bytes: u64,
    ghost some: { 0 < bytes },
}
