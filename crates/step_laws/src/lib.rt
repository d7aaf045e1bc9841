//! A step is enabled exactly where its entry may stand.
//!
//! `barred` names the first condition that keeps a step from being taken; `Allowed` says which entries may stand next. The
//! laws here hold the two together: neither may be made weaker or stronger alone. Where a step's entry hangs on what the
//! lower layer answers, some answer is enough.
#![tactic(auto)]

mod laws;

pub use laws::{
    abort_is_rightly_barred, drop_is_rightly_barred, due_is_rightly_barred,
    each_step_is_enabled_where_nothing_bars_it, each_step_is_rightly_barred,
    eh_act_is_rightly_barred, eh_begin_is_rightly_barred, eh_end_is_rightly_barred,
    eh_flush_is_rightly_barred, own_is_rightly_barred, send_is_rightly_barred,
    set_state_is_rightly_barred, settle_is_rightly_barred, submit_is_rightly_barred,
    tick_is_rightly_barred, work_is_rightly_barred,
};
