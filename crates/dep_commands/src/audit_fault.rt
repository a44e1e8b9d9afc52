//! Why an audit ended before its last line.
use dep_types::{StoreFault, WriteFailed};

/// Why an audit ended before its last line.
#[derive(Clone, Copy)]
pub(crate) enum AuditFault {
    /// The store failed, or there was no memory.
    Store,
    /// A line could not be written.
    Writer,
}

impl From<StoreFault> for AuditFault {
    ghost use Rattle.std.specs.Prelude.{◌≡◌};
    ghost use Rattle.dep_commands.specs.declared.audit_fault.AuditFault.TheVariants.{Store};

    ghost from_gives = { λ _ fault. fault ≡ Store };

    fn from(_fault: StoreFault) -> AuditFault {
        AuditFault::Store
    }
}

impl From<WriteFailed> for AuditFault {
    ghost use Rattle.std.specs.Prelude.{◌≡◌};
    ghost use Rattle.dep_commands.specs.declared.audit_fault.AuditFault.TheVariants.{Writer};

    ghost from_gives = { λ _ fault. fault ≡ Writer };

    fn from(_error: WriteFailed) -> AuditFault {
        AuditFault::Writer
    }
}
