//! What holds of the legs, whatever the rules and the sessions: each function is proved to meet its clause.
ghost use Rattle.hairpin.specs.AsBefore.{OneAddressIsAsBefore};
ghost use Rattle.hairpin.specs.Paired.{HostsKeepOneAddress};
ghost use Rattle.hairpin.specs.Strangers.{StrangersAreFiltered};

/// With one external address and filtering by endpoint the legs are the former ones.
pub fn one_address_is_as_before()
    ensures { OneAddressIsAsBefore }
{}

/// Filtering by address drops what comes to a mapping from an address at which no session of it has its remote endpoint
/// (RFC 4787, REQ-8).
pub fn strangers_are_filtered()
    ensures { StrangersAreFiltered }
{}

/// A host is at one external address while it has a mapping (RFC 4787, REQ-2): what masquerade or a hairpin gives it is
/// there, and a session that is put in there keeps all hosts so.
pub fn hosts_keep_one_address()
    ensures { HostsKeepOneAddress }
{}
