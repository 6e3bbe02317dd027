//! The directory of providers: who is who in a network of certified mail.
#![tactic(auto)]

mod accounts;
mod digesting;
mod directories;
mod drafts;
mod faults;
mod fields;
mod ids;
mod laws;
mod members;
mod own_fields;
mod places;
mod providers;
mod reading;
mod settling;

pub use accounts::Account;
pub use directories::Directory;
pub use faults::{DirectoryFault, Field};
pub use laws::{
    a_canonical_text_is_one_directory, a_directory_is_lawful, a_directory_is_told_exactly,
    a_first_domain_is_one_providers, a_table_is_told_exactly, a_text_names_one_message,
};
pub use providers::Provider;
