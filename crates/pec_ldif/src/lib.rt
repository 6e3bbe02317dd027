//! Directories of providers as registries hand them out, in LDIF (RFC 2849, within this project's profile).
#![tactic(auto)]

mod attributes;
mod directories;
mod faults;
mod first_line;
mod laws;
mod lines;
mod reading;
mod records;
mod refusals;
mod tables;
mod writing;

pub use attributes::{Attribute, a_line_is_one_attribute, read_attribute};
pub use directories::{an_ldif_directory_is_told_exactly, directory_of};
pub use faults::LdifFault;
pub use first_line::is_ldif;
pub use laws::what_is_written_is_read;
pub use lines::{Line, read_lines};
pub use reading::{a_text_is_one_ldif, read_ldif};
pub use records::Entry;
pub use refusals::LdifRefused;
pub use writing::ldif_of;
