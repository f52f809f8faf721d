//! What holds of every step, of every state that is reached, and of the rules of every text that loads. Each function
//! does nothing: its clause is a theorem, which is proved.
//!
//! A state is sound where its sessions can be held together, which makes the mappings of each protocol one-to-one,
//! no packet of theirs is later than the clock, and the rules are those of the text (`specs/Sound`).
ghost use Rattle.machine.specs.Hairpins.{HairpinsComeIn};
ghost use Rattle.machine.specs.Laws.{AnswersComeIn, ClockNeverFalls, DropsChangeNothing, EventsAreJudgedOnce, FilteredByAddressAlone, ForwardsArePlanned, FullAddressesArePassedOver, HostsKeepOneAddress, InsideMapsOnce, KnownAddressesAreLetIn, LivingMappingsStay, LoadsTakeForce, MappingsAreReused, NewMappingsArePaired, NewPortsKeepClass, OneAddressIsAsBefore, OnlyKnownAddressesComeIn, OnlyLoadsChangeRules, OnlyTranslationsMoveHosts, OutsideIsNotShared, RefusalsChangeNothing, RunsKeepSound, SessionsAreAlive, SessionsGoOut, StartIsSound, StepsKeepSound, StrangersAreFiltered, TranslationsStayInBounds};
ghost use Rattle.machine.specs.Order.{CausesComeInOrder};
ghost use Rattle.machine.specs.Requirements.{HairpinsHaveExternalSources, LivingSessionsStay, MappingsLetIn, NewMappingsKeepPorts, PacketsLeaveBySessions, PacketsOutCameIn, SessionsBeginByPackets, SessionsLiveTheirTime};

use rulesyntax::one_ruleset;

/// A gateway begins sound.
pub fn start_is_sound()
    ensures { StartIsSound }
{}

/// A step of a sound state gives a sound state.
pub fn steps_keep_sound()
    ensures { StepsKeepSound }
{}

/// A run of any steps from a sound state gives a sound state.
pub fn runs_keep_sound()
    ensures { RunsKeepSound }
{}

/// No two mappings of one protocol share an outside endpoint, over all external addresses (RFC 4787, REQ-3; RFC 5382,
/// REQ-7).
pub fn outside_is_not_shared()
    ensures { OutsideIsNotShared }
{}

/// An inside endpoint has at most one mapping of a protocol, whatever the remote (RFC 4787, REQ-1; RFC 5382,
/// REQ-1).
pub fn inside_maps_once()
    ensures { InsideMapsOnce }
{}

/// A mapping stays while a session of it is alive (RFC 4787, REQ-5 and REQ-6).
pub fn living_mappings_stay()
    ensures { LivingMappingsStay }
{}

/// The clock never falls, whatever moments come.
pub fn clock_never_falls()
    ensures { ClockNeverFalls }
{}

/// After a step every session is alive: none outlives its timeout.
pub fn sessions_are_alive()
    ensures { SessionsAreAlive }
{}

/// A packet that is dropped changes nothing but what time changes: the clock has risen, and the sessions that
/// are no longer alive have ended.
pub fn drops_change_nothing()
    ensures { DropsChangeNothing }
{}

/// While a session is alive, a packet from wan with the route in, from its remote endpoint to its outside one,
/// comes to its inside endpoint, if the forward chains let it.
pub fn answers_come_in()
    ensures { AnswersComeIn }
{}

/// While a session is alive, a packet from lan with the route out, from its inside endpoint to its remote one,
/// goes out from its outside endpoint, if the forward chains let it.
pub fn sessions_go_out()
    ensures { SessionsGoOut }
{}

/// While a mapping has a living session, a new session that goes out from its inside endpoint has its outside
/// endpoint, whatever the remote and the nat chains (RFC 4787, REQ-1; RFC 5382, REQ-1): if the packet may
/// begin a session, the forward chains let it, and fewer than 65,536 are held.
pub fn mappings_are_reused()
    ensures { MappingsAreReused }
{}

/// A new mapping of a host that has others is at an external address of one of them, whatever their protocols: where its
/// packet goes out and is masqueraded, and where it hairpins (RFC 4787, REQ-2). Without a free port there it isn't made,
/// though another address has one. `snat` and `dnat` are at the address that the rule or the packet names.
pub fn new_mappings_are_paired()
    ensures { NewMappingsArePaired }
{}

/// A host has all its mappings at one external address, in each state that a gateway reaches, and once it begins again
/// from its files, as long as the rules leave the host to the pool (RFC 4787, REQ-2).
///
/// Two translations don't: `snat` of a packet of the host, to an address of the pool at which it isn't, and `dnat` to
/// the host, for an endpoint at such an address. Each gives it a second address, and from then on it is given the first
/// of them that the pool lists. Rules that do so for other hosts change nothing for this one.
pub fn hosts_keep_one_address()
    ensures { HostsKeepOneAddress }
{}

/// Rules without `snat`, and without `dnat` to the host, leave the host to the pool.
pub fn only_translations_move_hosts()
    ensures { OnlyTranslationsMoveHosts }
{}

/// The outside port of a new mapping is of the class and parity of its inside port, at whatever address, and no session
/// of the protocol had it (RFC 4787, REQ-3, REQ-3 a) and REQ-4).
pub fn new_ports_keep_class()
    ensures { NewPortsKeepClass }
{}

/// Masquerading, an address of the pool is passed over only where no port of the class and parity is free there.
pub fn full_addresses_are_passed_over()
    ensures { FullAddressesArePassedOver }
{}

/// With filtering by address, a packet that comes in through a mapping, without a session of its own, is from an address
/// that some living session of the mapping has as its remote one (RFC 4787, REQ-8; RFC 5382, REQ-3).
pub fn only_known_addresses_come_in()
    ensures { OnlyKnownAddressesComeIn }
{}

/// With filtering by address, a packet to a mapping from an address that no living session of the mapping has as its
/// remote one is dropped as `Filtered`, if it may begin a session and no rule translates it.
pub fn strangers_are_filtered()
    ensures { StrangersAreFiltered }
{}

/// Whom a host has written to at one port may answer from another: while a session with the address lives, no packet
/// from there to the session's outside endpoint is dropped as `Filtered`.
pub fn known_addresses_are_let_in()
    ensures { KnownAddressesAreLetIn }
{}

/// With filtering by endpoint, no packet is dropped as `Filtered`.
pub fn filtered_by_address_alone()
    ensures { FilteredByAddressAlone }
{}

/// With one external address and filtering by endpoint every event is answered as it was before there was a choice of
/// either. So what a gateway does is the same once its files are of the later version: the state in them is the same, and
/// a step asks nothing of the configuration that has changed but its legs, and which addresses are external.
pub fn one_address_is_as_before()
    ensures { OneAddressIsAsBefore }
{}

/// An event is judged in one way only: a text loads or doesn't, and it spells at most one ruleset.
pub fn events_are_judged_once()
    ensures { EventsAreJudgedOnce }
{
    one_ruleset();
}

/// A load that is refused changes nothing but what time changes: the clock has risen, and the sessions that are
/// no longer alive have ended.
pub fn refusals_change_nothing()
    ensures { RefusalsChangeNothing }
{}

/// A text that loads is in force from then on, with its rules; the sessions that are alive go on.
pub fn loads_take_force()
    ensures { LoadsTakeForce }
{}

/// Packets and moments keep the text and its rules.
pub fn only_loads_change_rules()
    ensures { OnlyLoadsChangeRules }
{}

/// Only what a leg planned is forwarded, and then the sessions are changed as it planned.
pub fn forwards_are_planned()
    ensures { ForwardsArePlanned }
{}

/// Translations by a text that has loaded lead where they can: a source becomes an external address, a
/// destination an inside one, and a port that isn't 0 never becomes 0.
pub fn translations_stay_in_bounds()
    ensures { TranslationsStayInBounds }
{}

/// A packet from wan to the outside endpoint of a living mapping comes to its inside endpoint, whoever sends it (RFC
/// 4787, REQ-8; RFC 5382, REQ-3): if filtering is by endpoint, or a living session of the mapping has its remote
/// endpoint at the sender's address. The cause of each drop that may come first is named at its premise.
pub fn mappings_let_in()
    ensures { MappingsLetIn }
{}

/// A packet from lan to the outside endpoint of a living mapping comes to its inside endpoint, from the outside
/// endpoint of its sender: its mapping's, or one that it is given (RFC 4787, REQ-9; RFC 5382, REQ-8). So does a packet
/// of two living sessions, one that it goes out by, and one that it comes in by. The cause of each drop that may come
/// first is named at its premise.
pub fn hairpins_come_in()
    ensures { HairpinsComeIn }
{}

/// A hairpin that passes leaves on lan, from the external endpoint of its sender, to the inside endpoint that is mapped
/// to the one it was sent to, by a mapping that was there or by dnat (RFC 4787, REQ-9 and REQ-9 a); RFC 5382, REQ-8).
/// Of files that no gateway wrote from nothing this isn't known: by a session in them that leads from an inside endpoint
/// to an external address, but isn't translated, a hairpin leaves from the inside endpoint itself.
pub fn hairpins_have_external_sources()
    ensures { HairpinsHaveExternalSources }
{}

/// A mapping that a step makes for the sender of a packet from lan has the inside port, if no session of the protocol
/// has that port at the mapping's address. It always has a port of its class and parity that was free (RFC 4787, REQ-3,
/// REQ-3 a) and REQ-4).
pub fn new_mappings_keep_ports()
    ensures { NewMappingsKeepPorts }
{}

/// A packet that passes leaves by its session, which tells how it is translated: out on wan, from the session's outside
/// endpoint to its remote one; in on lan, from its remote endpoint to its inside one. A hairpin leaves on lan, from the
/// outside endpoint of the session that it goes out by, to the inside endpoint of the one that it comes in by. Each of
/// these sessions is held, and was last used at the clock (RFC 4787, REQ-6).
pub fn packets_leave_by_sessions()
    ensures { PacketsLeaveBySessions }
{}

/// No step ends a session that is alive, and none changes it but by a packet of it that passes (RFC 4787, REQ-5 and
/// REQ-6; RFC 5382, REQ-5). Then protocol and endpoints stay. What the packet shows was seen too, and the last moment is
/// the clock's. But a SYN alone begins a closing session anew, with nothing seen, and its sender is the opener.
pub fn living_sessions_stay()
    ensures { LivingSessionsStay }
{}

/// A session goes on, whatever an event brings, while it has been idle for less than its time, and ends once that has
/// passed: 300 seconds for UDP (RFC 4787, REQ-5); for TCP 7,440 once both sides have acknowledged, and 240 before, or
/// once it is closing (RFC 5382, REQ-5). At the end of any run of events each session goes on whose last packet was
/// less than 300 seconds ago, or 240 for TCP. If a TCP session is established, and no packet of it in the run shows a
/// FIN or a RST, it goes on, established and not begun anew, at each moment before 7,440 seconds have passed since its
/// last packet, whatever else comes.
pub fn sessions_live_their_time()
    ensures { SessionsLiveTheirTime }
{}

/// Only a packet begins a session, and of TCP a SYN alone, and only if the chains let it pass. A packet that goes out
/// begins the session of its source and its destination. From wan it is one for an inside address, one that dnat sends
/// there, or one that a mapping lets in (RFC 5382, REQ-3 and section 4). A hairpin begins the session that it goes out
/// by, or the one that it comes in by, or both.
pub fn sessions_begin_by_packets()
    ensures { SessionsBeginByPackets }
{}

/// Each packet that leaves is the one that its event brought, translated. So nothing is answered to a SYN that nobody
/// asked for, neither early nor late (RFC 5382, REQ-4).
pub fn packets_out_came_in()
    ensures { PacketsOutCameIn }
{}

/// A packet is dropped for its first fault (1 to 9), else because it has no route (10 to 12), else for the first of
/// its route's reasons that holds (13 to 20); if none holds, it passes. `specs/Order` says of each reason when it
/// holds, and lists those of each route in order.
pub fn causes_come_in_order()
    ensures { CausesComeInOrder }
{}
