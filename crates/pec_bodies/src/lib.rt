//! Multipart bodies: parameters of a value, the parts of a body as slices of it, and bodies composed of parts (RFC
//! 2045, section 5.1, and RFC 2046, section 5.1, within this project's profile).
#![tactic(auto)]

mod composing;
mod cutting;
mod entries;
mod faults;
mod marks;
mod numbers;
mod parameters;
mod parts;

pub use composing::{
    a_composed_type_has_its_boundary, boundary, compose, composed_type,
    parts_have_one_composed_body, what_is_composed_is_read_again,
};
pub use faults::BodyFault;
pub use marks::delimiters_are_dashes_and_the_boundary;
pub use numbers::free_number;
pub use parameters::{
    a_value_has_one_parameter_of_a_name, a_written_parameter_is_read, parameter,
    values_are_cut_outside_quotes,
};
pub use parts::{Part, Parts, a_body_has_one_reading, parts_stand_in_order};

/// The most bytes of a boundary (RFC 2046, section 5.1.1).
pub const BOUNDARY_LIMIT: usize = 70;
