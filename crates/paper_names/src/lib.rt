//! Papers as users name them: by name or by size. A user who names none gets the system's default paper.
#![tactic(auto)]

mod error;
mod home;
mod names;
mod size;

pub use error::PaperError;
pub use home::default_paper;
pub use names::{name_list, paper_by_name};
pub use size::read_paper;
