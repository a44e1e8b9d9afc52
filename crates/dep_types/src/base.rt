//! The URL that all of the server's URLs begin with.
ghost use Rattle.std.specs.Prelude.{◌≡◌, ◌≢◌, OnOk, Err};
ghost use Rattle.dep_types.specs.Base.{IsBase};

use crate::config::ConfigFault;
use std::alloc::Global;
use url::{ParseError, Url};

/// Whether a text may be the base. It fails with `Base` where it may not, and with `Memory` where memory was
/// refused.
pub(crate) fn check_base(alloc: Global, base: &str) -> Result<(), ConfigFault>
    ensures kept { OnOk result (IsBase base.now) }
    ensures refused { result ≡ Err ConfigFault.Base → ¬ IsBase base.now }
    ensures other { result ≢ Err ConfigFault.Limit }
{
    match Url::parse(alloc, base) {
        Ok(url) => {
            let Some((last, front)) = url.as_str().as_bytes().split_last() else {
                return Err(ConfigFault::Base);
            };
            if url.scheme() != "http" || *last != b'/' || front != base.as_bytes() {
                return Err(ConfigFault::Base);
            }
            Ok(())
        }
        Err(ParseError::OutOfMemory | ParseError::Overflow) => Err(ConfigFault::Memory),
        Err(_) => Err(ConfigFault::Base),
    }
}
