//! The value of a Content-Disposition field (RFC 6266): its type, its parameters, and the file name that they give
//! (RFC 8187).
#![tactic(auto)]

mod disposition;
mod file_name;
pub mod laws;
mod parts;
mod quoted;
mod reader;

pub use disposition::{Disposition, ParamFault};
pub use reader::read_disposition;
