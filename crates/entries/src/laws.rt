//! What follows from the definitions: each function is proved to meet its clause.
ghost use Rattle.entries.specs.Laws.{ChangesAreTold, DueSlotsAreOver, EntriesAreNeeded, EntriesAgreeOnNone};
ghost use Rattle.entries.specs.Laws.{PacketsAreTold, EntriesAreTheStep, EntriesAreThere, FlowsAreNotedApart};
ghost use Rattle.entries.specs.Laws.{LastingIsSound, QuietStepsKeep, RestartsAreSound, RestartsAreThere};
ghost use Rattle.entries.specs.Laws.{RunsAreEntered, TablesTellEntries};

/// The entries of an event do to what is durable what the event does to the state.
pub fn entries_are_the_step()
    ensures { EntriesAreTheStep }
{}

/// An event has no entries exactly where none is needed: no session ends, no text is taken, and what is done
/// changes nothing that is durable.
pub fn entries_are_needed()
    ensures { EntriesAreNeeded }
{}

/// Of every event there is a list of entries, which may be empty.
pub fn entries_are_there()
    ensures { EntriesAreThere }
{}

/// An event with no entries leaves what is durable as it is.
pub fn quiet_steps_keep()
    ensures { QuietStepsKeep }
{}

/// Of two lists of entries of an event both are empty or neither.
pub fn entries_agree_on_none()
    ensures { EntriesAgreeOnNone }
{}

/// The entry that makes one session another is told by their openers and by what was seen of them.
pub fn changes_are_told()
    ensures { ChangesAreTold }
{}

/// A packet of a session that is held makes one entry or none, which session and packet tell.
pub fn packets_are_told()
    ensures { PacketsAreTold }
{}

/// The entries of a run do to what is durable what the run does to the state.
pub fn runs_are_entered()
    ensures { RunsAreEntered }
{}

/// A table of sessions tells the entry of a session that takes its place there.
pub fn tables_tell_entries()
    ensures { TablesTellEntries }
{}

/// The entries of two sessions of different flows may both be told before either takes its place.
pub fn flows_are_noted_apart()
    ensures { FlowsAreNotedApart }
{}

/// The slots that the timers tell hold just the sessions that end.
pub fn due_slots_are_over()
    ensures { DueSlotsAreOver }
{}

/// What must survive of a sound state is what a gateway may have, and has no moments.
pub fn lasting_is_sound()
    ensures { LastingIsSound }
{}

/// From whatever a gateway may have a state can be begun again.
pub fn restarts_are_there()
    ensures { RestartsAreThere }
{}

/// A state that is begun again is sound, and just what it was begun from must survive of it, where no session of that
/// has a moment.
pub fn restarts_are_sound()
    ensures { RestartsAreSound }
{}
