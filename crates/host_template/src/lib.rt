//! The lower layer of a host: the trait that a host adapter's driver implements (`scsi_mid_low_api.rst`, "The SCSI mid
//! level is above a lower level driver").
//!
//! Beside what it answers, a lower layer *stands where a journal leaves it*: a relation of its own, which says for a
//! host's spec, the numbers of earlier probes and a journal that this is the journal whose calls it has answered. Each call
//! says where it stands afterwards, for every journal that the call fits; so no answer of a lower layer is invented.
//!
//! It has meanings of its own too, whatever the journal: the attempts that it holds, where it tells them; whether it is
//! honest; and whether an answer is due. The clauses on what is held are about one that is honest and tells.
#![tactic(auto)]

mod fits;
mod queued;
mod says;
mod template;

pub use fits::{
    a_first_attempt_fits_queue, a_last_attempt_fits_abort, a_sent_attempt_does_not_fit_queue,
    an_earlier_attempt_does_not_fit_abort, request_sense_is_a_probe_for_252_bytes,
};
pub use queued::Queued;
pub use says::{EhSay, TimerSay};
pub use template::HostTemplate;
