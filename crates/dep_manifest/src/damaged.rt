//! Files whose bytes are not those that a manifest promises (RFC 8493, section 3).
ghost use Rattle.std.specs.Prelude.{◌≡◌, ◌≢◌, [], OnOk, OnErr};
ghost use Rattle.dep_manifest.specs.Growing.{Grows};
ghost use Rattle.dep_manifest.specs.Damaged.{number_unless_kept};

use dep_fixity::Digests;
use std::alloc::AllocError;

/// The digests that are kept of a file.
#[derive(Clone, Copy)]
pub struct KeptDigests {
    /// The SHA-256 of its content.
    pub sha256: [u8; 32],
    /// The SHA-512 of its content, if one is kept.
    pub sha512: Option<[u8; 64]>,
}

/// Notes the number of a file whose bytes have these digests, unless they are those that are kept of it. A file of which
/// no SHA-512 is kept is noted. It fails for lack of memory alone.
pub fn note_damaged(
    damaged: &mut Vec<u64>,
    file: u64,
    kept: &KeptDigests,
    digests: &Digests,
) -> Result<(), AllocError>
    ensures ok { OnOk result
        (Grows damaged.old damaged.new (number_unless_kept file kept.now digests.now)) }
    ensures damaged { OnErr result (number_unless_kept file kept.now digests.now ≢ []) }
    ensures err { OnErr result (damaged.new.items ≡ damaged.old.items) }
{
    if kept.sha256 == digests.sha256 && kept.sha512 == Some(digests.sha512) {
        return Ok(());
    }
    damaged.push(file)?;
    Ok(())
}
