//! What the server is set up with, and its service document.
ghost use Rattle.std.specs.Prelude.{◌≡◌, IfOk};
ghost use Rattle.dep_docs_out.specs.Documents.{service_document};

use dep_docs_out::service_doc;
use dep_types::{Config, Octets};
use std::alloc::{AllocError, Global};
use std::marker::Model;

/// A configuration, with the service document that it makes, which is spelled once, and the allocator
/// that replies grow in. Contracts see it as the configuration.
#[derive(Drop)]
pub struct Service {
    alloc: Global,
    config: Config,
    document: Octets,
}

impl Model for Service {
    ghost use Rattle.std.specs.Prelude.{◌≡◌};
    ghost use Rattle.dep_types.specs.declared.config.Config.{Config};
    ghost use Rattle.dep_docs_out.specs.Documents.{service_document};

    ghost Value = { Config };

    ghost view = { λ s. s.config };

    ghost invariant = { λ s. s.document ≡ service_document s.config };
}

impl Service {
    /// Spells the service document, and keeps it. An `Err` is lack of memory.
    pub fn new(alloc: Global, config: Config) -> Result<Service, AllocError>
        ensures { IfOk result (λ service. service ≡ config) }
    {
        match service_doc(alloc, &config) {
            Ok(document) => Ok(Service {
                alloc,
                config,
                document: Octets::from_vec(document),
            }),
            Err(error) => {
                drop(config);
                Err(error)
            }
        }
    }

    /// The allocator that replies grow in.
    pub fn alloc(&self) -> Global {
        self.alloc
    }

    /// The configuration.
    pub fn config(&self) -> &Config
        ensures { result.now ≡ self.now }
    {
        &self.config
    }

    /// The bytes of the service document (SWORD 3.0).
    pub fn document(&self) -> &[u8]
        ensures { result.now ≡ service_document self.now }
    {
        self.document.as_slice()
    }
}
