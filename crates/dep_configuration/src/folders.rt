//! The folders that a configuration names.

use crate::configuration::Configuration;
use crate::field::ConfigurationField;
use std::error::Error;
use std::{fmt, fs};

/// A folder that a configuration needs isn't there. It is displayed as one line, which begins with the field's name.
#[derive(Clone, Copy, Debug)]
pub enum FolderFault {
    /// That in which the database's file stands.
    OfDatabase,
    /// That for what is to be sent to slow clients.
    OfSpools,
}

impl fmt::Display for FolderFault {
    fn fmt<W: fmt::Write>(&self, f: &mut fmt::Formatter<W>) -> fmt::Result {
        let (field, wanted) = match self {
            FolderFault::OfDatabase => (
                ConfigurationField::Database,
                "a file in a folder that is there",
            ),
            FolderFault::OfSpools => (ConfigurationField::SpoolFolder, "a folder that is there"),
        };
        write!(f, "{}: {wanted}", field.name())
    }
}

impl Error for FolderFault {}

/// Returns `Ok` where the folder of the database and that of the spools are there, and the database is no folder, else the
/// first fault.
pub fn check_folders(rt: &HostRuntime, configuration: &Configuration) -> Result<(), FolderFault> {
    let database = configuration.database.as_str();
    if is_folder(rt, database) || !is_folder(rt, folder_of(database)) {
        return Err(FolderFault::OfDatabase);
    }
    if !is_folder(rt, configuration.spool_folder.as_str()) {
        return Err(FolderFault::OfSpools);
    }
    Ok(())
}

fn is_folder(rt: &HostRuntime, path: &str) -> bool {
    match fs::metadata(rt, path) {
        Ok(metadata) => metadata.is_dir(),
        Err(_) => false,
    }
}

/// The folder in which a file stands.
fn folder_of(file: &str) -> &str {
    match file.rsplit_once('/') {
        Some((folder, _)) if !folder.is_empty() => folder,
        Some(_) => "/",
        None => ".",
    }
}
