//! Numbers, tokens, white space and comma lists in the values of HTTP fields. Nothing here allocates.
#![tactic(auto)]

pub mod laws;
mod lists;
mod numbers;
mod tokens;
mod whitespace;

pub use lists::{SplitList, split_list};
pub use numbers::{Number, decimal, positive_decimal};
pub use tokens::{is_token, is_token_octet};
pub use whitespace::trim_ows;
