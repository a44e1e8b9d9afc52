//! The configuration of a server, and how it is read.
ghost use Rattle.std.specs.Prelude.{◌≡◌, ◌⊎◌, IfOk, IfErr, OnOk};
ghost use Rattle.json.specs.Json.{document};
ghost use Rattle.json.specs.Value.{value_view};
ghost use Rattle.dep_configuration.specs.declared.fault.ConfigurationFault.TheVariants.{Invalid, Memory};
ghost use Rattle.dep_types.specs.Base.{IsBase};
ghost use Rattle.dep_types.specs.Config.{IsChecked, HasLimits};
ghost use Rattle.dep_configuration.specs.Configured.{HasConfig, HasConfiguration, GivesLimits, IsConfiguration, IsConfigurationRead};
ghost use Rattle.dep_configuration.specs.Faults.{AreReadable, IsFirstFault, IsRefusedBy};

use crate::checks::check_fields;
use crate::fault::ConfigurationFault;
use crate::field::ConfigurationField;
use crate::names::check_names;
use crate::values::{address, flag, given_number, number, required_text, text};
use dep_types::{
    Config, ConfigFault, GREATEST_MAX_ASSEMBLED, GREATEST_MAX_SEGMENTS, GREATEST_MAX_UPLOAD, Text,
};
use json::{Scratch, Value};
use std::alloc::{AllocError, Global};
use std::net::IpAddr;

/// The configuration of a server.
#[derive(Drop)]
pub struct Configuration {
    /// The IP address to listen at.
    pub address: IpAddr,
    /// The TCP port to listen at.
    pub port: u16,
    /// The path of the database's file.
    pub database: Text,
    /// The path of the folder for what is to be sent to slow clients.
    pub spool_folder: Text,
    /// The path of the file by which the server is told to stop; it has none where it is empty.
    pub stop_file: Text,
    /// What the server itself is set up with.
    pub config: Config,
    /// What bounds its connections.
    pub limits: ServerLimits,
    /// The bytes of the file that is kept beside the database, and given up where its disk is full; 0 for none.
    pub reserve_bytes: u64,
}

/// What bounds the connections of a server.
#[derive(Clone, Copy)]
pub struct ServerLimits {
    /// The seconds for which a connection may be silent.
    pub idle_seconds: u64,
    /// The bytes that a connection has to move in each idle time, as long as a request or a reply is under
    /// way; 0 asks for none.
    pub least_rate: u64,
    /// The number of connections after which the server ends; it goes on where there is none.
    pub connections: Option<u64>,
    /// The greatest number of connections from one address at once.
    pub address_connections: u64,
    /// The greatest number of bytes in the spool folder.
    pub spool_bytes: u64,
    /// The greatest number of bytes of requests that aren't whole yet.
    pub unfinished_bytes: u64,
}

impl Configuration {
    /// Reads a configuration: an object of JSON (RFC 8259) whose members are fields, each at most once.
    /// Unknown fields are refused, and so is whatever isn't written as its field asks, as a number in quotes.
    /// A field that isn't there has its default; `database`, `spool_folder` and `base` have none. Of several
    /// faults the first is returned: of the names, in their order; of the fields, in the order of the
    /// example; and last, that the text of `base` isn't a base.
    pub fn read(alloc: Global, text: &str) -> Result<Configuration, ConfigurationFault>
        ensures read { IfOk result (λ c. IsConfiguration c text.now) }
        ensures refused { IfErr result (λ e. IsRefusedBy e (document text.now)) }
    {
        let mut scratch = Scratch::new(alloc);
        let value = Value::parse(alloc, text, &mut scratch)?;
        read_value(alloc, &value)
    }
}

fn read_value(alloc: Global, value: &Value<'_>) -> Result<Configuration, ConfigurationFault>
    ensures read { IfOk result (λ c. IsConfigurationRead c (value_view value.now)) }
    ensures refused { IfErr result (λ e. (e ≡ Memory) ⊎ IsFirstFault e (value_view value.now)) }
{
    check_names(alloc, value)?;
    check_fields(value)?;
    let configuration = configuration_in(alloc, value)?;
    match check_config(alloc, &configuration.config) {
        Ok(()) => Ok(configuration),
        Err(fault) => {
            drop(configuration);
            Err(fault)
        }
    }
}

// Whether a server can be set up so, which has its limits.
fn check_config(alloc: Global, config: &Config) -> Result<(), ConfigurationFault>
    requires { HasLimits config.now }
    ensures checked { OnOk result (IsChecked config.now) }
    ensures refused { IfErr result (λ e. (e ≡ Memory)
        ⊎ ((e ≡ Invalid ConfigurationField.Base) × (¬ IsBase config.now.base))) }
{
    match config.check(alloc) {
        Ok(()) => Ok(()),
        Err(ConfigFault::Base) => Err(ConfigurationFault::Invalid(ConfigurationField::Base)),
        Err(ConfigFault::Limit) => unreachable!(),
        Err(ConfigFault::Memory) => Err(ConfigurationFault::Memory),
    }
}

#[tactic(auto, unfolding(crate::specs::Fields::wanted_of, crate::specs::Fields::bounds_of))]
fn configuration_in(alloc: Global, value: &Value<'_>) -> Result<Configuration, AllocError>
    requires { AreReadable (value_view value.now) }
    ensures { IfOk result (λ c. HasConfiguration c (value_view value.now)) }
{
    let database = required_text(alloc, value, ConfigurationField::Database)?;
    let spool_folder = required_text(alloc, value, ConfigurationField::SpoolFolder)?;
    let stop_file = text(alloc, value, ConfigurationField::StopFile, "")?;
    let config = config_in(alloc, value)?;
    Ok(Configuration {
        address: address(value),
        port: number(value, ConfigurationField::Port, 8_080) as u16,
        database,
        spool_folder,
        stop_file,
        config,
        limits: limits_in(value),
        reserve_bytes: number(value, ConfigurationField::ReserveBytes, 33_554_432),
    })
}

#[tactic(auto, unfolding(crate::specs::Fields::wanted_of, crate::specs::Fields::bounds_of))]
fn config_in(alloc: Global, value: &Value<'_>) -> Result<Config, AllocError>
    requires { AreReadable (value_view value.now) }
    ensures { IfOk result (λ c. HasConfig c (value_view value.now)) }
{
    let base = required_text(alloc, value, ConfigurationField::Base)?;
    let title = text(alloc, value, ConfigurationField::Title, "swordd")?;
    let abstract_text = text(
        alloc,
        value,
        ConfigurationField::Abstract,
        "Deposit service",
    )?;
    let depositor = text(alloc, value, ConfigurationField::Depositor, "depositor")?;
    Ok(Config {
        base,
        title,
        abstract_text,
        depositor,
        on_behalf_of: flag(value, ConfigurationField::OnBehalfOf),
        require_if_match: flag(value, ConfigurationField::RequireIfMatch),
        max_upload: number(value, ConfigurationField::MaxUpload, GREATEST_MAX_UPLOAD),
        max_assembled: number(
            value,
            ConfigurationField::MaxAssembled,
            GREATEST_MAX_ASSEMBLED,
        ),
        max_segments: number(
            value,
            ConfigurationField::MaxSegments,
            GREATEST_MAX_SEGMENTS,
        ),
        staging_max_idle: number(value, ConfigurationField::StagingMaxIdle, 3_600),
    })
}

#[tactic(auto, unfolding(crate::specs::Fields::wanted_of, crate::specs::Fields::bounds_of))]
fn limits_in(value: &Value<'_>) -> ServerLimits
    requires { AreReadable (value_view value.now) }
    ensures { GivesLimits result (value_view value.now) }
{
    ServerLimits {
        idle_seconds: number(value, ConfigurationField::IdleSeconds, 60),
        least_rate: number(value, ConfigurationField::LeastRate, 4_096),
        connections: given_number(value, ConfigurationField::Connections),
        address_connections: number(value, ConfigurationField::AddressConnections, 1_024),
        spool_bytes: number(value, ConfigurationField::SpoolBytes, 68_719_476_736),
        unfinished_bytes: number(value, ConfigurationField::UnfinishedBytes, 1_073_741_824),
    }
}
