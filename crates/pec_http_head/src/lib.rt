//! The head of an HTTP request: where it ends, and what a desk's rows ask of it.
//! It knows no device, no desk and no answer.
#![tactic(auto)]

mod cuts;
mod fields;
mod heads;
mod laws;
mod paths;
mod patterns;
mod routes;
mod stands;

pub use cuts::Cut;
pub use heads::{Field, Head};
pub use laws::{
    a_head_ends_in_one_place, a_request_is_seen_in_one_way, a_spaced_path_has_one_reading,
};
pub use routes::{Call, Route};
pub use stands::{HEAD_BYTES, HEAD_LINES, Scan, Stand};
