//! The GS3 proof of a closed tableau under its offer.
#![tactic(auto)]

mod answer;
mod build;
mod count;
mod growth;
mod lengths;
mod line;
mod measuring;
mod parameters;
mod standing;
mod stepping;
mod translate;
mod value;
mod walk;

pub use answer::GsError;
pub use translate::to_gs3;
