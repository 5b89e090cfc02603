//! The results and effects of the services of the OSEKtime operating system and of the OSEK
//! subsystem.
#![tactic(auto)]

mod laws;
mod service;

pub use laws::services_agree;
pub use service::{Answer, perform};
