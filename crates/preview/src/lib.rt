//! Previews of sheets before they are imposed: the list of a plan, and a drawing.
#![tactic(auto)]

mod drawing;
mod guides;
pub mod laws;
mod listing;
mod naming;
mod reading;
mod ways;

pub use drawing::preview_text;
pub use guides::{Guide, GuideKind};
pub use listing::plan_text;
pub use naming::{Edge, Sides};
pub use reading::{Places, Reading};
