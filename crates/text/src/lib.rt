// Lines of text and their fields: where each stands, what number it is, and which one is bad.
#![tactic(auto)]

mod bytes;
mod fields;
mod lines;
mod numbered;
mod summary;

pub use bytes::{number_of, number32_of};
pub use fields::{BadField, Fields, check_length, parse_line};
pub use lines::Lines;
pub use numbered::Numbered;
pub use summary::Summary;
