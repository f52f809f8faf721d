//! What the machine in memory answers to events, and what must survive behind each of them.
use crate::shared::{Answer, Event, Session, Trials};
use machine::Core;
use std::alloc::Global;

/// A text, and sessions without the moments of their last packets.
#[derive(Drop)]
pub struct Lasting {
    text: Vec<u8>,
    sessions: Vec<Session>,
}

/// The answers to the events, and what must survive before them and behind each.
#[derive(Drop)]
pub struct Model {
    pub answers: Vec<Answer>,
    pub states: Vec<Lasting>,
}

fn forget_moments(sessions: &mut [Session]) {
    for session in sessions {
        session.last = 0;
    }
}

// Here and below none where memory is refused.
fn lasting_of(alloc: Global, text: &[u8], mut sessions: Vec<Session>) -> Option<Lasting> {
    forget_moments(&mut sessions);
    let text = Vec::from_slice(alloc, text).ok()?;
    Some(Lasting { text, sessions })
}

impl Lasting {
    /// Those of a gateway.
    pub fn of_gateway(alloc: Global, gateway: &Trials) -> Option<Lasting> {
        lasting_of(alloc, gateway.text(), gateway.sessions().ok()?)
    }

    fn of_core(alloc: Global, core: &Core) -> Option<Lasting> {
        lasting_of(alloc, core.text(), core.sessions().ok()?)
    }

    /// Whether both are the same.
    pub fn is(&self, other: &Lasting) -> bool {
        self.text.as_slice() == other.text.as_slice()
            && self.sessions.as_slice() == other.sessions.as_slice()
    }
}

/// Whether two answers are the same.
pub fn is_same(answer: &Answer, wanted: &Answer) -> bool {
    match (answer, wanted) {
        (Answer::Loaded, Answer::Loaded)
        | (Answer::Refused, Answer::Refused)
        | (Answer::Ticked, Answer::Ticked) => true,
        (Answer::Dropped(cause), Answer::Dropped(wanted)) => cause == wanted,
        (Answer::Forward(iface, bytes), Answer::Forward(to, wanted)) => {
            iface == to && bytes.as_slice() == wanted.as_slice()
        }
        _ => false,
    }
}

/// What the machine answers to an event.
pub fn step(core: &mut Core, event: Event) -> Option<Answer> {
    match core.step(event) {
        Ok(answer) => Some(answer),
        Err(_) => None,
    }
}

impl Model {
    /// Of a machine that has taken no event.
    pub fn begin(alloc: Global, core: &Core) -> Option<Model> {
        let state = Lasting::of_core(alloc, core)?;
        Some(Model {
            answers: Vec::new(alloc),
            states: vec![in alloc; state].ok()?,
        })
    }

    /// Takes one event more.
    pub fn go_on(&mut self, alloc: Global, core: &mut Core, event: Event) -> Option<()> {
        self.answers.push(step(core, event)?).ok()?;
        self.states.push(Lasting::of_core(alloc, core)?).ok()?;
        Some(())
    }
}
