//! What may be cached of the archive between requests, so that one for the service document asks no tables.

ghost use Rattle.std.specs.Prelude.{◌≡◌, ◌≤◌, ℕ, Some, None, is_some, if◌then◌else◌, IsTrue, IfOk, ◌↔◌};
ghost use Rattle.dep_types.specs.State.{State};
ghost use Rattle.dep_types.specs.Sound.{IsSound};
ghost use Rattle.dep_tables.specs.Clauses.{StaysWithin};
ghost use Rattle.dep_row_maps.specs.Clauses.{FromMaps};
ghost use Rattle.dep_requests.specs.Caching.{IsCacheOf, Covers, HasNoneLeft, ReadsService};

use crate::showing::reads_service;
use dep_decisions::Operation;
use dep_objects::counters;
use dep_tables::{Statements, left_before};
use dep_types::{Config, Counters, StoreFault};

/// The clock and the counters, at which no upload is idle.
#[derive(Clone, Copy)]
pub struct Cache {
    /// The clock, in seconds since 1970.
    pub clock: u64,
    /// The numbers that are given next.
    pub next: Counters,
    /// The greatest idle time that was looked at, in seconds.
    pub max_idle: u64,
}

impl Cache {
    /// Whether a tick at this moment changes nothing.
    pub fn covers(&self, config: &Config, moment: u64) -> bool
        ensures { IsTrue result
            ↔ ((moment ≤ self.now.clock) × (config.now.staging_max_idle ≡ self.now.max_idle)) }
    {
        moment <= self.clock && config.staging_max_idle == self.max_idle
    }
}

/// What is cached still behind a request: all of it, unless something was changed.
pub fn still_known(cache: Option<Cache>, has_changes: bool) -> Option<Cache>
    ensures { result ≡ (if has_changes then None else cache) }
{
    if has_changes { None } else { cache }
}

/// What may be cached, where a tick at this moment changes nothing.
pub fn read_still<T: Statements>(
    tx: &mut T,
    config: &Config,
    moment: u64,
) -> Result<Option<Cache>, StoreFault>
    ensures map { FromMaps (T.state tx.old) (T.state tx.new)
        (λ s. IsSound s → IfOk result (λ found. (m : Cache) → found ≡ Some m → IsCacheOf m s)) }
    ensures covers { IfOk result (Covers config.now moment) }
    ensures known { FromMaps (T.state tx.old) (T.state tx.new)
        (λ s. IsSound s → moment ≤ s.clock → HasNoneLeft config.now.staging_max_idle s
        → IfOk result (λ found. IsTrue (is_some found))) }
    ensures stays { StaysWithin T.lenders T.state tx.old tx.new result }
{
    let row = counters(tx)?;
    if row.clock < moment {
        return Ok(None);
    }
    let oldest = row.clock.saturating_sub(config.staging_max_idle);
    let left = left_before(tx, oldest)?;
    if left.is_some() {
        return Ok(None);
    }
    Ok(Some(Cache {
        clock: row.clock,
        next: row.next,
        max_idle: config.staging_max_idle,
    }))
}

/// The clock that is cached, where a tick at this moment changes nothing.
pub fn clock_still(cache: &Option<Cache>, config: &Config, moment: u64) -> Option<u64>
    ensures reported { (clock : ℕ) → result ≡ Some clock → (m : Cache) × (cache.now ≡ Some m)
        × (clock ≡ m.clock) × (moment ≤ m.clock) × (config.now.staging_max_idle ≡ m.max_idle) }
    ensures known { (m : Cache) → cache.now ≡ Some m → moment ≤ m.clock
        → config.now.staging_max_idle ≡ m.max_idle → result ≡ Some m.clock }
{
    match cache {
        Some(it) => {
            if it.covers(config, moment) {
                Some(it.clock)
            } else {
                None
            }
        }
        None => None,
    }
}

/// What is cached, where the request reads the service document.
pub fn cached(cache: &Option<Cache>, operation: &Operation<'_>) -> Option<Cache>
    ensures reported { (m : Cache) → result ≡ Some m
        → (cache.now ≡ Some m) × ReadsService operation.now }
    ensures known { ReadsService operation.now → result ≡ cache.now }
{
    match cache {
        Some(it) => {
            if reads_service(operation) {
                Some(*it)
            } else {
                None
            }
        }
        None => None,
    }
}
