//! A client that connects.
ghost use Rattle.std.specs.Prelude.{◌≡◌};
ghost use Rattle.std.specs.Net.Addr.{MatchIp, IsCanonicalOf};

use dep_outbox::Wire;
use std::net::IpAddr;

/// A client that connects.
#[derive(Drop)]
pub struct Client<R, K, S> {
    /// The half of its socket that gives its bytes.
    pub source: R,
    /// The way to it.
    pub wire: Wire<K, S>,
    /// Where it connects from.
    pub address: IpAddr,
}

impl<R, K, S> Client<R, K, S> {
    /// A client at an address. One that is an IPv4 address in the form of IPv6 is taken as that.
    pub fn new(source: R, wire: Wire<K, S>, address: IpAddr) -> Client<R, K, S>
        ensures source { result.source ≡ source }
        ensures wire { result.wire ≡ wire }
        ensures address { MatchIp address (λ _. result.address ≡ address)
            (λ ip. IsCanonicalOf ip result.address) }
    {
        Client {
            source,
            wire,
            address: address.to_canonical(),
        }
    }
}
