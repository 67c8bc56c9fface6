//! The slaves of a scenario: what their plain keys say, their objects, files and IDNs, read from their tables, or refused.
#![tactic(auto)]

mod files;
mod idns;
mod plain;
mod protocols;
mod ring;
mod settings;
mod slave;

pub use ring::{paces, slaves};
