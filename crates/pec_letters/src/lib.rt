//! Envelopes of certified mail: the transport envelope of a message, what is seen of one, and the anomaly envelope of
//! what isn't certified mail (RFC 6109, sections 2.1.2, 3.1.1 and 3.2, within this project's profile).
#![tactic(auto)]

mod anomalies;
mod asking;
mod envelopes;
mod laws;
mod reading;

pub use anomalies::{anomaly_name, compose_anomaly};
pub use envelopes::compose_envelope;
pub use laws::{
    a_message_has_one_anomaly, a_message_has_one_envelope, a_text_is_one_envelope,
    an_anomaly_is_no_letter, what_is_composed_is_seen,
};
pub use reading::{EnvelopeView, envelope_in, has_envelope_head, read_envelope};
