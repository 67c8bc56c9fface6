//! The protocols CoE, FoE, SoE and EoE as models: of each the server as what it does with one mail, the client's mails and the reply that the mails
//! it hears complete, and the law between them (ETG.1000.6; CiA 301, "SDO protocol"). Values, files, elements and packets are whole, mails are data,
//! and nothing here runs: the functions do nothing, and their contracts state the laws.
#![tactic(auto)]

pub mod coe_model;
pub mod eoe_model;
pub mod foe_model;
pub mod soe_model;
