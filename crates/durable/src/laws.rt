//! What follows from the definitions: each function is proved to meet its clauses.
ghost use Rattle.packet.specs.Config.{Config};
ghost use Rattle.durable.specs.declared.version.Version.{Version};
ghost use Rattle.durable.specs.Versions.{IsOf};
ghost use Rattle.durable.specs.Coding.{IsSession, session_bytes, IsEntry, entry_bytes, IsCodedConfig, config_bytes, IsSnapshot, snapshot_bytes, IsHeading, heading_bytes};
ghost use Rattle.durable.specs.Laws.{ArrangedIsTheSet, ArrangedIsTheSort, ArrangedIsASet, CodedOnce, BodiesOnce, EntersOnce, KeepsDurable, RecoversOnce, RecoversSound, Grows, Renews};

/// A code at the front of bytes determines the session, or the entry, and the rest; and a body its entries.
pub fn coded_once()
    ensures sessions { CodedOnce IsSession session_bytes }
    ensures entries { CodedOnce IsEntry entry_bytes }
    ensures bodies { BodiesOnce }
{}

/// A code at the front of bytes determines the heading, with its version, or the snapshot, and the rest; and so does the
/// code of a configuration in one version.
pub fn heading_once()
    ensures headings { CodedOnce IsHeading heading_bytes }
    ensures configs { (version : Version)
        → CodedOnce (λ c. IsCodedConfig c × IsOf version c) (config_bytes version) }
    ensures snapshots { CodedOnce IsSnapshot snapshot_bytes }
{}

/// Entering is a function of the entries and the state; it splits where the list of entries does; no entries change
/// nothing; and a state that a gateway may have stays one.
pub fn entering_laws()
    ensures once { (config : Config) → EntersOnce config }
    ensures kept { (config : Config) → KeepsDurable config }
{}

/// A snapshot's sessions, in whatever order they stand, are put in order as by a stable sort, and none is dropped. They
/// come to a set exactly where no two are of one flow, and then to the one set that has just them.
pub fn arranging_laws()
    ensures sorted { ArrangedIsTheSort }
    ensures set { ArrangedIsTheSet }
    ensures rises { ArrangedIsASet }
{}

/// Two files stand for one state at most, by one active file, and a gateway with the stored configuration may have
/// that state.
pub fn recovers_once()
    ensures { RecoversOnce }
{}

/// A gateway with the stored configuration may have what two files stand for, also where none is stored, and no session
/// in it has a moment.
pub fn recovers_sound()
    ensures { RecoversSound }
{}

/// A file made anew holds its snapshot's state, and a group put behind the others leads to the next state.
pub fn growing_laws()
    ensures { Grows }
{}

/// What two files stand for stays while the other file is made anew, and after it is open; and a group put behind the
/// others leads to the next state, or, where a crash tore it, leaves the state as it was.
pub fn renewing_laws()
    ensures { Renews }
{}
