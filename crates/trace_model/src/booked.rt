ghost use Rattle.std.specs.Prelude.{ℕ, List};
ghost use Rattle.mid_base.specs.declared.answers.TagState.{TagState};
ghost use Rattle.mid_base.specs.declared.entries.Entry.{Entry};
ghost use Rattle.mid_base.specs.declared.host_spec.HostSpec.{HostSpec};
ghost use Rattle.mid_base.specs.declared.names.DevAddr.{DevAddr};

/// A state of a host that has a journal: what a table of hosts has to know of it, and nothing of what is inside.
///
/// It has no calls. Its meanings are the host's spec, the numbers of probes that were made on devices before the journal
/// began, the journal, the oldest entry first, and the state of each tag.
pub trait Booked {
    ghost spec: { Self → HostSpec };

    ghost before: { Self → List (DevAddr × ℕ) };

    ghost journal: { Self → List Entry };

    ghost tags: { Self → List TagState };
}
