//! The tree of components: which component files stand in a list of folders, and what may be
//! measured by each (systemd.pcrlock(5)). A component is one step of the boot; its variants are the
//! alternatives for that step, of which any one boot measures one. The folders are laid over one
//! another, the first on top, and an empty file hides those of its name below it.
#![tactic(auto)]

mod error;
mod growing;
mod loading;
mod name;
mod place;
mod reading;
mod taken;
mod tree;
mod walk;

pub use error::{TreeError, TreeLimit};
pub use loading::load_tree;
pub use tree::{Component, Tree, Variant};
