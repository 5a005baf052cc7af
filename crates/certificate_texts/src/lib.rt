//! Certificates in JSON: their kinds, keys and words, and the certificate that a tree describes if it has its form.
#![tactic(auto)]

mod certificates;
mod pairs;
mod shape;

pub use certificates::certificate_of;
pub use shape::{CertificateShape, family_of};
