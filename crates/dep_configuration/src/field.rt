//! The fields of a configuration.
ghost use Rattle.std.specs.Prelude.{◌≡◌};
ghost use Rattle.dep_configuration.specs.Fields.{bounds, bounds_of, configuration_key, wanted_of};

use dep_types::{
    GREATEST_MAX_ASSEMBLED, GREATEST_MAX_SEGMENTS, GREATEST_MAX_UPLOAD, GREATEST_STAGING_MAX_IDLE,
};
use std::fmt;

/// A field of a configuration.
#[derive(Clone, Copy)]
pub enum ConfigurationField {
    /// The IP address to listen at.
    Address,
    /// The TCP port to listen at.
    Port,
    /// The path of the database's file.
    Database,
    /// The path of the folder for what is to be sent to slow clients.
    SpoolFolder,
    /// The path of the file by which the server is told to stop.
    StopFile,
    /// The URL that all of the server's URLs begin with.
    Base,
    /// The title in the service document.
    Title,
    /// The abstract in the service document.
    Abstract,
    /// The name under which files are deposited.
    Depositor,
    /// Whether a request may be made on behalf of another.
    OnBehalfOf,
    /// Whether a change asks for the entity tag of what it changes.
    RequireIfMatch,
    /// The greatest content of a request, in bytes.
    MaxUpload,
    /// The greatest file that may be assembled from segments, in bytes.
    MaxAssembled,
    /// The greatest number of segments of an upload.
    MaxSegments,
    /// The seconds after which an upload that was left alone expires.
    StagingMaxIdle,
    /// The seconds for which a connection may be silent.
    IdleSeconds,
    /// The bytes that a connection has to move in each idle time.
    LeastRate,
    /// The number of connections after which the server ends.
    Connections,
    /// The greatest number of connections from one address at once.
    AddressConnections,
    /// The greatest number of bytes in the spool folder.
    SpoolBytes,
    /// The greatest number of bytes of requests that aren't whole yet.
    UnfinishedBytes,
    /// The bytes of the reserve beside the database.
    ReserveBytes,
}

/// All fields, in the order in which the example has them.
pub const FIELDS: [ConfigurationField; 22] = [
    ConfigurationField::Address,
    ConfigurationField::Port,
    ConfigurationField::Database,
    ConfigurationField::SpoolFolder,
    ConfigurationField::StopFile,
    ConfigurationField::Base,
    ConfigurationField::Title,
    ConfigurationField::Abstract,
    ConfigurationField::Depositor,
    ConfigurationField::OnBehalfOf,
    ConfigurationField::RequireIfMatch,
    ConfigurationField::MaxUpload,
    ConfigurationField::MaxAssembled,
    ConfigurationField::MaxSegments,
    ConfigurationField::StagingMaxIdle,
    ConfigurationField::IdleSeconds,
    ConfigurationField::LeastRate,
    ConfigurationField::Connections,
    ConfigurationField::AddressConnections,
    ConfigurationField::SpoolBytes,
    ConfigurationField::UnfinishedBytes,
    ConfigurationField::ReserveBytes,
];

/// What a whole number may be.
#[derive(Clone, Copy)]
pub struct Bounds {
    pub least: u64,
    pub most: u64,
}

/// What a field has to be.
#[derive(Clone, Copy)]
pub enum Wanted {
    /// Any text.
    AnyText,
    /// A text of one byte or more.
    FilledText,
    /// True or false.
    Flag,
    /// The text of an IPv4 or IPv6 address, as `127.0.0.1` or `::1`.
    Address,
    /// The text of a base, as the check of a `Config` asks.
    Base,
    /// A number within these bounds, written by digits alone.
    WholeNumber(Bounds),
}

impl fmt::Display for Wanted {
    fn fmt<W: fmt::Write>(&self, f: &mut fmt::Formatter<W>) -> fmt::Result {
        let text = match self {
            Wanted::AnyText => "a text",
            Wanted::FilledText => "a text that is not empty",
            Wanted::Flag => "true or false",
            Wanted::Address => "an IP address in quotes",
            Wanted::Base => {
                "an http URL in its normal form, without a path or the slash at its end"
            }
            Wanted::WholeNumber(bounds) => {
                return write!(f, "a whole number from {} to {}", bounds.least, bounds.most);
            }
        };
        f.write_str(text)
    }
}

impl ConfigurationField {
    /// The name of the field in a configuration.
    #[tactic(auto, unfolding(crate::specs::Fields::configuration_key))]
    pub fn name(self) -> &'static str
        ensures { result.now ≡ configuration_key self }
    {
        match self {
            ConfigurationField::Address => "address",
            ConfigurationField::Port => "port",
            ConfigurationField::Database => "database",
            ConfigurationField::SpoolFolder => "spool_folder",
            ConfigurationField::StopFile => "stop_file",
            ConfigurationField::Base => "base",
            ConfigurationField::Title => "title",
            ConfigurationField::Abstract => "abstract",
            ConfigurationField::Depositor => "depositor",
            ConfigurationField::OnBehalfOf => "on_behalf_of",
            ConfigurationField::RequireIfMatch => "require_if_match",
            ConfigurationField::MaxUpload => "max_upload",
            ConfigurationField::MaxAssembled => "max_assembled",
            ConfigurationField::MaxSegments => "max_segments",
            ConfigurationField::StagingMaxIdle => "staging_max_idle",
            ConfigurationField::IdleSeconds => "idle_seconds",
            ConfigurationField::LeastRate => "least_rate",
            ConfigurationField::Connections => "connections",
            ConfigurationField::AddressConnections => "address_connections",
            ConfigurationField::SpoolBytes => "spool_bytes",
            ConfigurationField::UnfinishedBytes => "unfinished_bytes",
            ConfigurationField::ReserveBytes => "reserve_bytes",
        }
    }

    /// What the field has to be.
    #[tactic(auto, unfolding(crate::specs::Fields::wanted_of, crate::specs::Fields::bounds_of))]
    pub fn wanted(self) -> Wanted
        ensures { result ≡ wanted_of self }
    {
        match self {
            ConfigurationField::Address => Wanted::Address,
            ConfigurationField::Base => Wanted::Base,
            ConfigurationField::Database | ConfigurationField::SpoolFolder => Wanted::FilledText,
            ConfigurationField::StopFile
            | ConfigurationField::Title
            | ConfigurationField::Abstract
            | ConfigurationField::Depositor => Wanted::AnyText,
            ConfigurationField::OnBehalfOf | ConfigurationField::RequireIfMatch => Wanted::Flag,
            _ => Wanted::WholeNumber(self.bounds()),
        }
    }

    /// What a field that is a whole number may be; of any other field, 0 alone.
    #[tactic(auto, unfolding(crate::specs::Fields::bounds_of))]
    pub fn bounds(self) -> Bounds
        ensures { result ≡ bounds_of self }
    {
        match self {
            ConfigurationField::Port => within(1, 65_535),
            ConfigurationField::MaxUpload => within(1, GREATEST_MAX_UPLOAD),
            ConfigurationField::MaxAssembled => within(1, GREATEST_MAX_ASSEMBLED),
            ConfigurationField::MaxSegments => within(1, GREATEST_MAX_SEGMENTS),
            ConfigurationField::StagingMaxIdle => within(1, GREATEST_STAGING_MAX_IDLE),
            ConfigurationField::IdleSeconds => within(1, 86_400),
            ConfigurationField::LeastRate => within(0, 1_000_000_000),
            ConfigurationField::Connections => within(1, 1_000_000_000),
            ConfigurationField::AddressConnections => within(1, 1_024),
            ConfigurationField::SpoolBytes => within(1_048_576, 1_125_899_906_842_624),
            ConfigurationField::UnfinishedBytes => within(33_554_432, 1_099_511_627_776),
            ConfigurationField::ReserveBytes => within(0, 67_108_864),
            _ => within(0, 0),
        }
    }
}

fn within(least: u64, most: u64) -> Bounds
    ensures { result ≡ bounds least most }
{
    Bounds { least, most }
}
