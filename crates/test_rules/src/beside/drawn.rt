//! Rules and packets that are drawn.
use std::alloc::{AllocError, Global};

/// What a match asks a packet for.
#[derive(Clone, Copy)]
pub enum Head {
    Saddr,
    Daddr,
    TcpSport,
    TcpDport,
    UdpSport,
    UdpDport,
    State,
}

/// The values that a match names.
#[derive(Clone, Copy)]
pub enum Side {
    One(u32),
    Range(u32, u32),
    Two(u32, u32),
    Set,
}

#[derive(Clone, Copy)]
pub struct Test {
    pub head: Head,
    pub negated: bool,
    pub side: Side,
}

#[derive(Clone, Copy)]
pub enum Verdict {
    Accept,
    Drop,
    Return,
    Continue,
    Jump,
    Goto,
}

#[derive(Clone, Copy)]
pub struct Rule {
    pub first: Test,
    pub second: Option<Test>,
    pub verdict: Verdict,
}

/// Two base chains at forward, one behind the other, and a chain that they lead to. The set of addresses and that of
/// ports have one number and one range.
#[derive(Drop)]
pub struct Ruleset {
    pub first: Vec<Rule>,
    pub later: Vec<Rule>,
    pub called: Vec<Rule>,
    pub drops: bool,
    pub set: (u32, u32, u32),
}

/// A packet in the numbers that are drawn: addresses lie from 10.0.0.0 on.
#[derive(Clone, Copy)]
pub struct Packet {
    pub src: u32,
    pub dst: u32,
    pub sport: u32,
    pub dport: u32,
    pub is_tcp: bool,
    pub is_established: bool,
}

// The packet with the number that the match asks for.
fn aimed(test: Option<Test>, packet: Packet) -> Packet {
    let Some(test) = test else {
        return packet;
    };
    let Side::One(number) = test.side else {
        return packet;
    };
    let mut packet = packet;
    match test.head {
        Head::Saddr => packet.src = number,
        Head::Daddr => packet.dst = number,
        Head::TcpSport | Head::UdpSport => packet.sport = number,
        Head::TcpDport | Head::UdpDport => packet.dport = number,
        Head::State => packet.is_established = true,
    }
    match test.head {
        Head::TcpSport | Head::TcpDport => packet.is_tcp = true,
        Head::UdpSport | Head::UdpDport => packet.is_tcp = false,
        Head::Saddr | Head::Daddr | Head::State => {}
    }
    packet
}

/// A linear generator. Numbers are drawn from 0 up to the mask, so that rules and packets meet more or less often.
#[derive(Clone, Copy)]
pub struct Draw {
    state: u64,
    mask: u32,
}

impl Draw {
    pub fn of_seed(seed: u64) -> Draw {
        Draw {
            state: seed,
            mask: 3,
        }
    }

    /// Eight bits.
    pub fn byte(&mut self) -> u8 {
        self.state = self
            .state
            .wrapping_mul(6_364_136_223_846_793_005)
            .wrapping_add(1_442_695_040_888_963_407);
        let [byte, ..] = self.state.to_be_bytes();
        byte
    }

    fn is_one_of(&mut self, many: u8) -> bool {
        self.byte() < many
    }

    fn number(&mut self) -> u32 {
        let high = u32::from(self.byte());
        let low = u32::from(self.byte());
        (high * 256 + low) & self.mask
    }

    fn range(&mut self) -> (u32, u32) {
        let one = self.number();
        let other = self.number();
        (one.min(other), one.max(other))
    }

    fn head(&mut self) -> Head {
        match self.byte() {
            0..48 => Head::Saddr,
            48..96 => Head::Daddr,
            96..128 => Head::TcpSport,
            128..176 => Head::TcpDport,
            176..208 => Head::UdpSport,
            208..248 => Head::UdpDport,
            _ => Head::State,
        }
    }

    fn side(&mut self) -> Side {
        match self.byte() {
            0..160 => Side::One(self.number()),
            160..192 => {
                let (low, high) = self.range();
                Side::Range(low, high)
            }
            192..224 => {
                let one = self.number();
                Side::Two(one, self.number())
            }
            _ => Side::Set,
        }
    }

    fn test(&mut self) -> Test {
        let head = self.head();
        let side = self.side();
        Test {
            head,
            negated: self.is_one_of(16),
            side,
        }
    }

    fn verdict(&mut self) -> Verdict {
        match self.byte() {
            0..64 => Verdict::Accept,
            64..128 => Verdict::Drop,
            128..144 => Verdict::Return,
            144..192 => Verdict::Continue,
            192..232 => Verdict::Jump,
            _ => Verdict::Goto,
        }
    }

    fn rule(&mut self) -> Rule {
        let first = self.test();
        let second = if self.is_one_of(96) {
            Some(self.test())
        } else {
            None
        };
        Rule {
            first,
            second,
            verdict: self.verdict(),
        }
    }

    // Up to 255 rules.
    fn rules(&mut self, alloc: Global) -> Result<Vec<Rule>, AllocError> {
        let mut rules = Vec::new(alloc);
        let count = self.byte();
        for _ in 0..count {
            rules.push(self.rule())?;
        }
        Ok(rules)
    }

    pub fn ruleset(&mut self, alloc: Global) -> Result<Ruleset, AllocError> {
        self.mask = match self.byte() {
            0..32 => 3,
            32..128 => 63,
            _ => 1023,
        };
        let (low, high) = self.range();
        Ok(Ruleset {
            first: self.rules(alloc)?,
            later: self.rules(alloc)?,
            called: self.rules(alloc)?,
            drops: self.is_one_of(128),
            set: (self.number(), low, high),
        })
    }

    /// A packet that three times of four meets what one of the rules asks for, as far as that is one number.
    pub fn packet(&mut self, ruleset: &Ruleset) -> Packet {
        let packet = self.any_packet();
        let rules = match self.byte() {
            0..64 => return packet,
            64..144 => &ruleset.first,
            144..208 => &ruleset.later,
            _ => &ruleset.called,
        };
        match rules.get(usize::from(self.byte())) {
            None => packet,
            Some(rule) => aimed(rule.second, aimed(Some(rule.first), packet)),
        }
    }

    fn any_packet(&mut self) -> Packet {
        Packet {
            src: self.number(),
            dst: self.number(),
            sport: self.number(),
            dport: self.number(),
            is_tcp: self.is_one_of(128),
            is_established: self.is_one_of(128),
        }
    }
}
