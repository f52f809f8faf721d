//! The words that have a meaning where they stand.

ghost use Rattle.std.specs.Prelude.{◌≡◌, ℕ, List, map};
ghost use Rattle.std.specs.Str.{bytes_eq};
ghost use Rattle.rulesyntax.specs.Words.{lookup, flag_words, verdict_words, nat_words, head_words, meta_words, ip_words, port_words, family_words, type_words, hook_words, policy_words, priority_words, statement_words, item_words, line_words, member_words};

use ruletree::{ChainType, Family, Hook, Policy};

/// Whether the word has these bytes.
pub fn is(word: &[u8], expected: &[u8]) -> bool
    ensures { result ≡ bytes_eq word.now expected.now }
{
    word == expected
}

/// One of the words that have a meaning at some place.
pub trait Keyword: Copy + 'static {
    ghost words: { List (List ℕ × Self) };

    /// The words, each with what it means here.
    fn table() -> &'static [(&'static [u8], Self)]
        ensures { map (λ entry. (entry.0.now, entry.1)) result.now ≡ words };
}

/// What the word means, if it is one of `K`.
pub fn meaning<K: Keyword>(word: &[u8]) -> Option<K>
    ensures { result ≡ lookup K.words word.now }
{
    let mut rest = K::table();
    while let [(expected, meaning), tail @ ..] = rest {
        if is(word, expected) {
            return Some(*meaning);
        }
        rest = tail;
    }
    None
}

/// A flag of a set.
#[derive(Clone, Copy, Drop)]
pub enum Flag {
    Interval,
    Constant,
}

/// What a verdict begins with.
#[derive(Clone, Copy, Drop)]
pub enum VerdictWord {
    Accept,
    Drop,
    Return,
    Continue,
    Jump,
    Goto,
}

/// What a translation begins with.
#[derive(Clone, Copy, Drop)]
pub enum NatWord {
    Dnat,
    Snat,
    Masquerade,
}

/// What a head begins with.
#[derive(Clone, Copy, Drop)]
pub enum HeadWord {
    Meta,
    Ip,
    Tcp,
    Udp,
    Ct,
    Iifname,
    Iif,
    Oifname,
    Oif,
}

/// What stands behind `meta`.
#[derive(Clone, Copy, Drop)]
pub enum MetaWord {
    Iifname,
    Iif,
    Oifname,
    Oif,
    L4proto,
}

/// What stands behind `ip` in a head.
#[derive(Clone, Copy, Drop)]
pub enum IpWord {
    Saddr,
    Daddr,
    Protocol,
}

/// What stands behind `tcp` or `udp`.
#[derive(Clone, Copy, Drop)]
pub enum PortWord {
    Sport,
    Dport,
}

/// A name of a priority.
#[derive(Clone, Copy, Drop)]
pub enum PriorityName {
    Raw,
    Mangle,
    Dstnat,
    Filter,
    Security,
    Srcnat,
}

/// What a statement of a text begins with.
#[derive(Clone, Copy, Drop)]
pub enum StatementWord {
    Flush,
    Table,
}

/// What an item of a table begins with.
#[derive(Clone, Copy, Drop)]
pub enum ItemWord {
    Comment,
    Set,
    Chain,
}

/// What a line of a set begins with.
#[derive(Clone, Copy, Drop)]
pub enum LineWord {
    Type,
    Flags,
    AutoMerge,
    Elements,
    Comment,
}

/// What stands before the rules of a chain.
#[derive(Clone, Copy, Drop)]
pub enum MemberWord {
    Comment,
    Type,
}

impl Keyword for Flag {
    ghost words = { flag_words };

    fn table() -> &'static [(&'static [u8], Flag)] {
        &[(b"interval", Flag::Interval), (b"constant", Flag::Constant)]
    }
}

impl Keyword for VerdictWord {
    ghost words = { verdict_words };

    fn table() -> &'static [(&'static [u8], VerdictWord)] {
        &[
            (b"accept", VerdictWord::Accept),
            (b"drop", VerdictWord::Drop),
            (b"return", VerdictWord::Return),
            (b"continue", VerdictWord::Continue),
            (b"jump", VerdictWord::Jump),
            (b"goto", VerdictWord::Goto),
        ]
    }
}

impl Keyword for NatWord {
    ghost words = { nat_words };

    fn table() -> &'static [(&'static [u8], NatWord)] {
        &[
            (b"dnat", NatWord::Dnat),
            (b"snat", NatWord::Snat),
            (b"masquerade", NatWord::Masquerade),
        ]
    }
}

impl Keyword for HeadWord {
    ghost words = { head_words };

    fn table() -> &'static [(&'static [u8], HeadWord)] {
        &[
            (b"meta", HeadWord::Meta),
            (b"ip", HeadWord::Ip),
            (b"tcp", HeadWord::Tcp),
            (b"udp", HeadWord::Udp),
            (b"ct", HeadWord::Ct),
            (b"iifname", HeadWord::Iifname),
            (b"iif", HeadWord::Iif),
            (b"oifname", HeadWord::Oifname),
            (b"oif", HeadWord::Oif),
        ]
    }
}

impl Keyword for MetaWord {
    ghost words = { meta_words };

    fn table() -> &'static [(&'static [u8], MetaWord)] {
        &[
            (b"iifname", MetaWord::Iifname),
            (b"iif", MetaWord::Iif),
            (b"oifname", MetaWord::Oifname),
            (b"oif", MetaWord::Oif),
            (b"l4proto", MetaWord::L4proto),
        ]
    }
}

impl Keyword for IpWord {
    ghost words = { ip_words };

    fn table() -> &'static [(&'static [u8], IpWord)] {
        &[
            (b"saddr", IpWord::Saddr),
            (b"daddr", IpWord::Daddr),
            (b"protocol", IpWord::Protocol),
        ]
    }
}

impl Keyword for PortWord {
    ghost words = { port_words };

    fn table() -> &'static [(&'static [u8], PortWord)] {
        &[(b"sport", PortWord::Sport), (b"dport", PortWord::Dport)]
    }
}

impl Keyword for Family {
    ghost words = { family_words };

    fn table() -> &'static [(&'static [u8], Family)] {
        &[(b"ip", Family::Ip), (b"inet", Family::Inet)]
    }
}

impl Keyword for ChainType {
    ghost words = { type_words };

    fn table() -> &'static [(&'static [u8], ChainType)] {
        &[(b"filter", ChainType::Filter), (b"nat", ChainType::Nat)]
    }
}

impl Keyword for Hook {
    ghost words = { hook_words };

    fn table() -> &'static [(&'static [u8], Hook)] {
        &[
            (b"prerouting", Hook::Prerouting),
            (b"input", Hook::Input),
            (b"forward", Hook::Forward),
            (b"output", Hook::Output),
            (b"postrouting", Hook::Postrouting),
        ]
    }
}

impl Keyword for Policy {
    ghost words = { policy_words };

    fn table() -> &'static [(&'static [u8], Policy)] {
        &[(b"accept", Policy::Accept), (b"drop", Policy::Drop)]
    }
}

impl Keyword for PriorityName {
    ghost words = { priority_words };

    fn table() -> &'static [(&'static [u8], PriorityName)] {
        &[
            (b"raw", PriorityName::Raw),
            (b"mangle", PriorityName::Mangle),
            (b"dstnat", PriorityName::Dstnat),
            (b"filter", PriorityName::Filter),
            (b"security", PriorityName::Security),
            (b"srcnat", PriorityName::Srcnat),
        ]
    }
}

impl Keyword for StatementWord {
    ghost words = { statement_words };

    fn table() -> &'static [(&'static [u8], StatementWord)] {
        &[
            (b"flush", StatementWord::Flush),
            (b"table", StatementWord::Table),
        ]
    }
}

impl Keyword for ItemWord {
    ghost words = { item_words };

    fn table() -> &'static [(&'static [u8], ItemWord)] {
        &[
            (b"comment", ItemWord::Comment),
            (b"set", ItemWord::Set),
            (b"chain", ItemWord::Chain),
        ]
    }
}

impl Keyword for LineWord {
    ghost words = { line_words };

    fn table() -> &'static [(&'static [u8], LineWord)] {
        &[
            (b"type", LineWord::Type),
            (b"flags", LineWord::Flags),
            (b"auto-merge", LineWord::AutoMerge),
            (b"elements", LineWord::Elements),
            (b"comment", LineWord::Comment),
        ]
    }
}

impl Keyword for MemberWord {
    ghost words = { member_words };

    fn table() -> &'static [(&'static [u8], MemberWord)] {
        &[
            (b"comment", MemberWord::Comment),
            (b"type", MemberWord::Type),
        ]
    }
}
