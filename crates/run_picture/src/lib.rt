//! The picture of a run and of the restarts that faults make of it, as SVG.
#![tactic(auto)]

mod attempts;
mod columns;
mod elements;
mod frame;
mod layout;
mod notes;
mod timeline;
mod told;
mod values;

pub use timeline::timeline_text;
