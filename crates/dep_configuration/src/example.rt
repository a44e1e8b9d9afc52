//! The example of a configuration, and what its fields are for.
use crate::field::{ConfigurationField, FIELDS};
use std::fmt;

/// A configuration in which each field stands with its default, but for `connections`, which has none, and
/// those that have to be given. `Configuration::read` takes it as it is. JSON has no comments, so what the
/// fields are for is said apart, by `explain`: then the example can be kept as a file and edited.
pub const EXAMPLE: &str = "{
  \"address\": \"127.0.0.1\",
  \"port\": 8080,
  \"database\": \"/var/lib/swordd/deposits.db\",
  \"spool_folder\": \"/var/lib/swordd/spools\",
  \"stop_file\": \"\",
  \"base\": \"http://127.0.0.1:8080\",
  \"title\": \"swordd\",
  \"abstract\": \"Deposit service\",
  \"depositor\": \"depositor\",
  \"on_behalf_of\": false,
  \"require_if_match\": false,
  \"max_upload\": 16777216,
  \"max_assembled\": 17179869184,
  \"max_segments\": 10000,
  \"staging_max_idle\": 3600,
  \"idle_seconds\": 60,
  \"least_rate\": 4096,
  \"address_connections\": 1024,
  \"spool_bytes\": 68719476736,
  \"unfinished_bytes\": 1073741824,
  \"reserve_bytes\": 33554432
}
";

impl ConfigurationField {
    /// What the field is for, and what is taken where it isn't given.
    pub fn explanation(self) -> &'static str {
        match self {
            Self::Address => "the IP address to listen at; 127.0.0.1 by default",
            Self::Port => "the TCP port to listen at; 8080 by default",
            Self::Database => "the file of the database, which is made where it isn't there",
            Self::SpoolFolder => "the folder for what is to be sent to slow clients",
            Self::StopFile =>
                "the file whose being there tells the server to stop; empty for none, as by default",
            Self::Base => "what all URLs of the server begin with, as clients see them",
            Self::Title => "the title in the service document; swordd by default",
            Self::Abstract => "the abstract in the service document; Deposit service by default",
            Self::Depositor => "the name under which files are deposited; depositor by default",
            Self::OnBehalfOf =>
                "whether requests may be made on behalf of others; false by default",
            Self::RequireIfMatch => "whether changes have to send If-Match; false by default",
            Self::MaxUpload => "the greatest content of a request, in bytes; 16777216 by default",
            Self::MaxAssembled =>
                "the greatest file assembled from segments, in bytes; 17179869184 by default",
            Self::MaxSegments => "the greatest number of segments of an upload; 10000 by default",
            Self::StagingMaxIdle =>
                "the seconds after which an upload left alone expires; 3600 by default",
            Self::IdleSeconds => "the seconds for which a client may be silent; 60 by default",
            Self::LeastRate =>
                "the bytes that a busy connection has to move in each idle time, 0 for none; 4096 by default",
            Self::Connections => "the connections after which the server ends; none by default",
            Self::AddressConnections =>
                "the connections that one address may have at once; 1024 by default, which behind a proxy is needed",
            Self::SpoolBytes =>
                "the bytes that the spool folder may hold in all; 68719476736 by default",
            Self::UnfinishedBytes =>
                "the bytes that unfinished requests may hold in all; 1073741824 by default",
            Self::ReserveBytes => "the bytes kept for a full disk, 0 for none; 33554432 by default",
        }
    }
}

/// Writes a line for each field, in the order of the example: its name, what it has to be, and what it is for.
pub fn explain<W: fmt::Write>(out: &mut W) -> fmt::Result {
    for field in &FIELDS {
        writeln!(
            out,
            "{}: {}; {}",
            field.name(),
            field.wanted(),
            field.explanation()
        )?;
    }
    Ok(())
}
