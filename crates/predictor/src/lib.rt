//! Prediction: the values that PCRs may have while a boot stands between two components, whatever
//! variant each component takes (`--location` of systemd-pcrlock(8)), and which PCRs of a machine a
//! policy can protect.
#![tactic(auto)]

mod error;
mod foreseeing;
mod protecting;
mod protection;
mod reached;
mod reading;
mod seen;
mod spreading;
mod state_key;
mod window;

pub use error::{ForeseeError, ProtectError, WindowError};
pub use foreseeing::{components_inside, foresee, foresee_choices, foresee_joint};
pub use protecting::protect;
pub use protection::{Cause, LeftOut, Protection};
pub use reached::Reached;
pub use reading::inside;
pub use spreading::extend_by;
pub use window::Window;
