//! What every request is answered from.
ghost use Rattle.std.specs.Prelude.{◌≡◌, IfOk};

use crate::contents::Contents;
use dep_answers::Service;
use dep_moment::Moment;
use dep_router::Routes;
use dep_types::Config;
use std::alloc::{AllocError, Global};
use std::marker::Model;

/// The service that every request is answered from, and the routes by which it is found. Both are made once. Contracts
/// see the configuration.
#[derive(Drop)]
pub struct Site {
    service: Service,
    /// The routes of the profile.
    pub routes: Routes,
}

/// What an item is answered from, when, and how.
#[derive(Clone, Copy)]
pub struct Context<'a> {
    /// The service and the routes.
    pub site: &'a Site,
    /// When it came.
    pub moment: Moment,
    /// How a content behind the reply goes out.
    pub contents: Contents,
}

impl Model for Site {
    ghost use Rattle.dep_types.specs.declared.config.Config.{Config};

    ghost Value = { Config };

    ghost view = { λ s. s.service };
}

impl Site {
    /// The site of a configuration. An `Err` is lack of memory.
    pub fn new(alloc: Global, config: Config) -> Result<Site, AllocError>
        ensures { IfOk result (λ site. site ≡ config) }
    {
        let service = Service::new(alloc, config)?;
        match Routes::new(alloc) {
            Ok(routes) => Ok(Site { service, routes }),
            Err(AllocError) => {
                drop(service);
                Err(AllocError)
            }
        }
    }

    /// The allocator that replies grow in.
    pub fn alloc(&self) -> Global {
        self.service.alloc()
    }

    /// The service, which has the configuration.
    pub fn service(&self) -> &Service
        ensures { result.now ≡ self.now }
    {
        &self.service
    }
}
