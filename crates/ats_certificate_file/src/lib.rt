//! Certificate files: the certificate that a file declares, and the text of a certificate.
#![tactic(auto)]

pub mod fault;
pub mod laws;
pub mod reading;
mod row;
pub mod writing;

pub use fault::CertFault;
pub use reading::read_certificate;
pub use writing::write_certificate;
