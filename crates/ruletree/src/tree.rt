//! A ruleset as its text spells it.
//!
//! Names are the bytes of the text; an address is a number whose most significant byte is the first
//! octet. What has no effect isn't kept: `flush ruleset`, flags of sets, `auto-merge`, counters and
//! comments. A `Line` stands wherever a report may have to name one.

use ruletokens::Line;
use sqlite_items::Items;

/// The tables of a text, in its order.
#[derive(Drop)]
pub struct Spelled {
    /// There may be none.
    pub tables: Items<Table>,
}

/// The protocols that a table's rules are asked for. A table without a family is of `Ip`.
#[derive(Clone, Copy, PartialEq, Eq, Drop)]
pub enum Family {
    /// IPv4.
    Ip,
    /// IPv4 and IPv6.
    Inet,
}

/// A table: its sets and its chains, each in the order of the text.
#[derive(Drop)]
pub struct Table {
    /// Of the word `table`.
    pub line: Line,
    /// Tables of different families may have one name.
    pub family: Family,
    /// None of `ip`, `inet`, `ip6`, `arp`, `bridge` and `netdev`.
    pub name: Items<u8>,
    /// For the rules of this table alone.
    pub sets: Items<Set>,
    /// Jumps and gotos stay among them.
    pub chains: Items<Chain>,
}

/// A named set. One `type` line and at most one `elements` line are legal, but more can be spelled.
#[derive(Drop)]
pub struct Set {
    /// Of the word `set`.
    pub line: Line,
    /// Of its name.
    pub name_line: Line,
    /// As rules name it behind `@`.
    pub name: Items<u8>,
    /// Its `type` lines.
    pub types: Items<SetType>,
    /// Its `elements` lines.
    pub elements: Items<SetElements>,
}

/// A line `type NAME` of a set.
#[derive(Drop)]
pub struct SetType {
    /// Of the word `type`.
    pub line: Line,
    /// Of the type's name.
    pub name_line: Line,
    /// The type's name, which may be an unknown one.
    pub name: Items<u8>,
}

/// A line `elements = { .. }` of a set.
#[derive(Drop)]
pub struct SetElements {
    /// Of the word `elements`.
    pub line: Line,
    /// One at least.
    pub elements: Items<Element>,
}

/// A chain: a base chain where it has a base, else one that rules jump or go to.
#[derive(Drop)]
pub struct Chain {
    /// Of the word `chain`.
    pub line: Line,
    /// As jumps and gotos name it.
    pub name: Items<u8>,
    /// The line that begins with `type`.
    pub base: Option<Base>,
    /// In the order of the text.
    pub rules: Items<Rule>,
}

/// Where a base chain is asked, and what its end answers.
#[derive(Drop)]
pub struct Base {
    /// Of the word `type`.
    pub line: Line,
    /// Behind `type`.
    pub kind: ChainType,
    /// Behind `hook`.
    pub hook: Hook,
    /// From -1,000,000,300 to 1,000,000,100; chains of lower priority are asked first.
    pub priority: i64,
    /// Accept where none is written.
    pub policy: Policy,
}

/// What a base chain is for: to filter every packet, or to translate those that have no session yet.
#[derive(Clone, Copy, PartialEq, Eq, Drop)]
pub enum ChainType {
    Filter,
    Nat,
}

/// The place on a packet's way at which a base chain is asked.
#[derive(Clone, Copy, PartialEq, Eq, Drop)]
pub enum Hook {
    /// As it comes in, where destinations are translated.
    Prerouting,
    /// For the gateway itself: no packet gets there.
    Input,
    /// As it goes through.
    Forward,
    /// From the gateway itself: no packet gets there.
    Output,
    /// As it leaves, where sources are translated.
    Postrouting,
}

/// What the end of a base chain answers.
#[derive(Clone, Copy, PartialEq, Eq, Drop)]
pub enum Policy {
    Accept,
    Drop,
}

/// A rule: where all its matches hold, its end is taken.
#[derive(Drop)]
pub struct Rule {
    /// Of its first token.
    pub line: Line,
    /// Without any the end is taken for every packet.
    pub matches: Items<Match>,
    /// Without one the rule does nothing.
    pub end: Option<End>,
}

/// A test of one fact of a packet.
#[derive(Drop)]
pub struct Match {
    /// Of its first token.
    pub line: Line,
    /// The fact.
    pub head: Head,
    /// By `!=`: the fact must not be a member of the side.
    pub negated: bool,
    /// What the fact is compared with.
    pub side: Side,
}

/// The protocol that a head of ports demands.
#[derive(Clone, Copy, PartialEq, Eq, Drop)]
pub enum Transport {
    Tcp,
    Udp,
}

/// The fact that a match or a verdict map asks for.
#[derive(Clone, Copy, PartialEq, Eq, Drop)]
pub enum Head {
    /// `iifname`, `iif`: the name of the interface that a packet came in by.
    Iifname,
    /// `oifname`, `oif`: the name of the interface that a packet leaves by.
    Oifname,
    /// `ip saddr`
    Saddr,
    /// `ip daddr`
    Daddr,
    /// `ip protocol`, `meta l4proto`
    Protocol,
    /// `tcp sport`, `udp sport`
    Sport(Transport),
    /// `tcp dport`, `udp dport`
    Dport(Transport),
    /// `ct state`
    State,
}

/// The values that a match asks about.
#[derive(Drop)]
pub enum Side {
    /// A single one, without braces.
    One(Element),
    /// Between braces, where it may be one, or two states at least with commas between.
    Several(Items<Element>),
    /// By `@`: those of a set of the table.
    Named(SetName),
}

/// The name of a set, behind `@`.
#[derive(Drop)]
pub struct SetName {
    /// Of the symbol `@`.
    pub line: Line,
    /// It may be that of no set.
    pub name: Items<u8>,
}

/// A part of a side, of a set or of a verdict map's keys.
#[derive(Drop)]
pub struct Element {
    /// Of its first token.
    pub line: Line,
    /// What it stands for.
    pub value: Value,
}

/// What an element stands for.
#[derive(Drop)]
pub enum Value {
    Address(u32),
    /// The address as it is written, with any host bits, and a length in bits, at most 32.
    Prefix(u32, u8),
    /// The first and the last address, the first being at most the last.
    Addresses(u32, u32),
    Number(u64),
    /// The first and the last number, the first being at most the last.
    Numbers(u64, u64),
    Name(Items<u8>),
    /// The bytes between the quotes.
    Quoted(Items<u8>),
}

/// What a rule does where its matches hold.
#[derive(Drop)]
pub enum End {
    Verdict(Verdict),
    Vmap(Vmap),
    Dnat(Dnat),
    Snat(Snat),
    /// A translation of the source to an external address, with the line of its word.
    Masquerade(Line),
}

/// Where a packet goes on.
#[derive(Drop)]
pub enum Verdict {
    /// At the next base chain of the hook.
    Accept,
    /// Nowhere: it is dropped.
    Drop,
    /// Where the chain was jumped to from; in a base chain, at its policy.
    Return,
    /// At the next rule.
    Continue,
    /// In the chain, and behind this rule once that has returned or run out.
    Jump(Target),
    /// In the chain, whose end is the end of this one.
    Goto(Target),
}

/// The chain that a jump or goto names.
#[derive(Drop)]
pub struct Target {
    /// Of the word `jump` or `goto`.
    pub line: Line,
    /// Its name, which may be that of no chain.
    pub chain: Items<u8>,
}

/// A verdict map: the verdict of the key that holds the fact.
#[derive(Drop)]
pub struct Vmap {
    /// Of its first token.
    pub line: Line,
    /// The fact.
    pub head: Head,
    /// One at least.
    pub pairs: Items<Pair>,
}

/// A key of a verdict map, and its verdict.
#[derive(Drop)]
pub struct Pair {
    /// The values that lead there.
    pub key: Element,
    /// Where they lead.
    pub verdict: Verdict,
}

/// A translation of the destination.
#[derive(Drop)]
pub struct Dnat {
    /// Of the word `dnat`.
    pub line: Line,
    /// Of the address.
    pub address_line: Line,
    /// Where the packet goes instead.
    pub address: u32,
    /// From 1; without one the packet's port stays.
    pub port: Option<u16>,
}

/// A translation of the source.
#[derive(Drop)]
pub struct Snat {
    /// Of the word `snat`.
    pub line: Line,
    /// Of the address.
    pub address_line: Line,
    /// Where the packet comes from instead.
    pub address: u32,
}
