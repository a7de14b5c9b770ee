//! Shape files: one group of schedulers, its arrivals and their verdicts.
#![tactic(auto)]

mod draft;
pub mod fault;
pub mod laws;
mod line;
pub mod printing;
pub mod reading;
pub mod shape;
pub mod verdicts;
mod words;

pub use fault::ShapeFault;
pub use laws::{each_fault_is_the_first, each_shape_is_faultless};
pub use printing::report;
pub use reading::read_shape;
pub use shape::{Shape, ShapeFrame, ShapeStream};
pub use verdicts::judge;
