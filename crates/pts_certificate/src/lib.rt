//! The text of certificates, and its reader.
//! A text is read as what the definition of the format says, or refused at the first line that breaks it.
//! Stands on systems, names and records.
#![tactic(auto)]

mod certificate;
mod declaration;
mod fault;
mod kind;
mod lists;
mod node;
mod number;
mod sorts;
mod split;
mod state;
mod table;
mod term;
mod word;

pub use certificate::{Certificate, read_certificate};
pub use fault::CertificateFault;
