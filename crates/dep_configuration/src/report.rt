//! What a configuration asks for, field by field.

use crate::configuration::Configuration;
use crate::field::{ConfigurationField, FIELDS};
use std::fmt;
use std::io::{self, Write};
use std::net::IpAddr;

/// The value of a field.
#[derive(Clone, Copy)]
enum Given<'a> {
    Address(IpAddr),
    Text(&'a str),
    Flag(bool),
    Number(u64),
}

impl fmt::Display for Given<'_> {
    fn fmt<W: fmt::Write>(&self, f: &mut fmt::Formatter<W>) -> fmt::Result {
        match self {
            Given::Address(address) => address.fmt(f),
            Given::Text(text) => text.fmt(f),
            Given::Flag(flag) => flag.fmt(f),
            Given::Number(number) => number.fmt(f),
        }
    }
}

/// Prints each field with its value, also where the file leaves it out.
pub fn print_configuration<W: Write>(out: &mut W, configuration: &Configuration) -> io::Result<()> {
    for field in &FIELDS {
        writeln!(out, "{}: {}", field.name(), value_of(configuration, *field))?;
    }
    Ok(())
}

fn value_of<'a>(configuration: &'a Configuration, field: ConfigurationField) -> Given<'a> {
    let config = &configuration.config;
    let limits = &configuration.limits;
    match field {
        ConfigurationField::Address => Given::Address(configuration.address),
        ConfigurationField::Port => Given::Number(u64::from(configuration.port)),
        ConfigurationField::Database => Given::Text(configuration.database.as_str()),
        ConfigurationField::SpoolFolder => Given::Text(configuration.spool_folder.as_str()),
        ConfigurationField::StopFile => Given::Text(configuration.stop_file.as_str()),
        ConfigurationField::Base => Given::Text(config.base.as_str()),
        ConfigurationField::Title => Given::Text(config.title.as_str()),
        ConfigurationField::Abstract => Given::Text(config.abstract_text.as_str()),
        ConfigurationField::Depositor => Given::Text(config.depositor.as_str()),
        ConfigurationField::OnBehalfOf => Given::Flag(config.on_behalf_of),
        ConfigurationField::RequireIfMatch => Given::Flag(config.require_if_match),
        ConfigurationField::MaxUpload => Given::Number(config.max_upload),
        ConfigurationField::MaxAssembled => Given::Number(config.max_assembled),
        ConfigurationField::MaxSegments => Given::Number(config.max_segments),
        ConfigurationField::StagingMaxIdle => Given::Number(config.staging_max_idle),
        ConfigurationField::IdleSeconds => Given::Number(limits.idle_seconds),
        ConfigurationField::LeastRate => Given::Number(limits.least_rate),
        ConfigurationField::Connections => match limits.connections {
            Some(connections) => Given::Number(connections),
            None => Given::Text("without end"),
        },
        ConfigurationField::AddressConnections => Given::Number(limits.address_connections),
        ConfigurationField::SpoolBytes => Given::Number(limits.spool_bytes),
        ConfigurationField::UnfinishedBytes => Given::Number(limits.unfinished_bytes),
        ConfigurationField::ReserveBytes => Given::Number(configuration.reserve_bytes),
    }
}
