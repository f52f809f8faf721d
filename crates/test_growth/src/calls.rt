//! The calls of a gateway: each once, and a second time where memory was refused to it.
use crate::shared::{
    Answers, Bytes, Event, FIRST, GatewayFault, Given, Iface, Kept, MASQUERADE, NEIGHBOUR, Seen,
    Stop, Trials, What, close, compact, disk_of, empty_disk, flush, lasting, must, offer, open,
    run, see,
};
use std::alloc::Global;
use trial_disk::Trial;

// It jumps to itself, and doesn't load.
const LOOP: &[u8; 101] =
    b"table ip t { chain c { jump c; }; }                                                                  ";

// From 192.168.1.3:6000 to 203.0.113.1:5000. It begins two sessions.
const HAIRPIN: [u8; 28] = [
    0x45, 0x00, 0x00, 0x1c, 0x00, 0x01, 0x00, 0x00, 0x40, 0x11, 0x7d, 0x23, 0xc0, 0xa8, 0x01, 0x03,
    0xcb, 0x00, 0x71, 0x01, 0x17, 0x70, 0x13, 0x88, 0x00, 0x08, 0xd7, 0x38,
];

fn load(alloc: Global, moment: u64, text: &[u8; 101]) -> Option<Event> {
    let bytes = Bytes::of(Vec::from_slice(alloc, text).ok()?);
    let what = What::Load(bytes);
    Some(Event { moment, what })
}

fn from_lan(alloc: Global, moment: u64, packet: &[u8; 28]) -> Option<Event> {
    let bytes = Bytes::of(Vec::from_slice(alloc, packet).ok()?);
    let what = What::Packet(Iface::Lan, bytes);
    Some(Event { moment, what })
}

fn tick(moment: u64) -> Event {
    let what = What::Moment;
    Event { moment, what }
}

// The packets that are offered, from the last to the first. At 1300 all sessions end that began at 1000.
const OFFERED: [(u64, &[u8; 28]); 4] = [
    (1300, &NEIGHBOUR),
    (1000, &HAIRPIN),
    (1000, &FIRST),
    (1000, &FIRST),
];

fn put_event(events: &mut Vec<Event>, event: Option<Event>) -> Option<()> {
    events.push(event?).ok()
}

// What is offered event by event, from the last to the first.
fn begin_once(alloc: Global) -> Option<Vec<Event>> {
    let mut events = Vec::new(alloc);
    for (moment, packet) in &OFFERED {
        put_event(&mut events, from_lan(alloc, *moment, *packet))?;
    }
    put_event(&mut events, load(alloc, 1000, MASQUERADE))?;
    Some(events)
}

fn begin(alloc: Global) -> Result<Vec<Event>, Stop> {
    match begin_once(alloc) {
        Some(events) => Ok(events),
        None => begin_once(alloc).ok_or(Stop::Wrong("events")),
    }
}

fn next(offered: &mut Vec<Event>) -> Result<Event, Stop> {
    offered.pop().ok_or(Stop::Wrong("too few events"))
}

fn room_once(alloc: Global) -> Option<Answers> {
    Vec::with_capacity(alloc, 16).ok()
}

// Room for the answers.
fn room(alloc: Global) -> Result<Answers, Stop> {
    match room_once(alloc) {
        Some(answers) => Ok(answers),
        None => room_once(alloc).ok_or(Stop::Wrong("room for answers")),
    }
}

// The second text and the packet change something.
fn events_once(alloc: Global) -> Option<Vec<Event>> {
    let mut events = Vec::new(alloc);
    put_event(&mut events, Some(tick(1301)))?;
    put_event(&mut events, load(alloc, 1301, LOOP))?;
    put_event(&mut events, load(alloc, 1302, MASQUERADE))?;
    put_event(&mut events, from_lan(alloc, 1303, &FIRST))?;
    put_event(&mut events, Some(tick(1304)))?;
    Some(events)
}

// The events of a run.
fn events(alloc: Global) -> Result<Vec<Event>, Stop> {
    match events_once(alloc) {
        Some(events) => Ok(events),
        None => events_once(alloc).ok_or(Stop::Wrong("events of a run")),
    }
}

// Whether a gateway is as it was seen.
fn must_be_still(before: &Seen, gateway: &Trials, place: &'static str) -> Result<(), Stop> {
    must(before.is_still(gateway)?, place)
}

fn offer_again(gateway: &mut Trials, event: Event) -> Result<Given, Stop> {
    match offer(gateway, event) {
        Ok(given) => Ok(given),
        Err(_) => Err(Stop::Wrong("second offer")),
    }
}

// Offers it, a second time where memory was refused and all is as it was seen.
fn offer_twice(gateway: &mut Trials, event: Event, before: &Seen) -> Result<Given, Stop> {
    match offer(gateway, event) {
        Ok(given) => Ok(given),
        Err((event, GatewayFault::NoMemory)) => {
            must_be_still(before, gateway, "a refused event")?;
            offer_again(gateway, event)
        }
        Err(_) => Err(Stop::Wrong("offer")),
    }
}

fn hold(gateway: &mut Trials, event: Event) -> Result<(), Stop> {
    let before = see(gateway)?;
    let given = offer_twice(gateway, event, &before)?;
    must(matches!(given, Given::Held(_)), "an answer too early")
}

// It takes no memory, and so it is answered the first time.
fn answer_at_once(gateway: &mut Trials, event: Event, answers: &mut Answers) -> Result<(), Stop> {
    match offer(gateway, event) {
        Ok(Given::Now(number, answer)) => must(
            answers.push((number, answer)).is_ok(),
            "room for an answer",
        ),
        _ => Err(Stop::Wrong("an answer at once")),
    }
}

fn put(answers: &mut Answers, mut more: Answers) -> Result<(), Stop> {
    must(answers.append(&mut more).is_ok(), "room for answers")
}

// Where memory is refused to the disk, the gateway has fallen, and its answers stay held.
fn hand_out(gateway: &mut Trials, answers: &mut Answers) -> Result<(), Stop> {
    let held = gateway.held();
    match flush(gateway) {
        Ok(more) => {
            must(more.len() == held && gateway.held() == 0, "answers")?;
            put(answers, more)
        }
        Err(GatewayFault::Device) => {
            must(gateway.held() == held, "held answers")?;
            Err(Stop::Fallen)
        }
        Err(_) => Err(Stop::Wrong("flush")),
    }
}

// Compacts, a second time where memory was refused and all is as it was seen.
fn compact_twice(gateway: &mut Trials, before: &Seen) -> Result<(), Stop> {
    let mut end = compact(gateway);
    if end == Err(GatewayFault::NoMemory) {
        must_be_still(before, gateway, "a refused compaction")?;
        end = compact(gateway);
    }
    match end {
        Ok(()) => must(gateway.grown() == 0, "groups"),
        Err(GatewayFault::Device) => Err(Stop::Fallen),
        Err(_) => Err(Stop::Wrong("compaction")),
    }
}

fn make_anew(gateway: &mut Trials) -> Result<(), Stop> {
    let before = see(gateway)?;
    compact_twice(gateway, &before)
}

// Those behind the first `taken` ones.
fn rest(alloc: Global, taken: usize) -> Result<Vec<Event>, Stop> {
    let mut rest = Vec::new(alloc);
    for event in events(alloc)?.into_iter().skip(taken) {
        must(rest.push(event).is_ok(), "rest of a run")?;
    }
    Ok(rest)
}

// What is held is handed out first.
fn run_rest(gateway: &mut Trials, rest: Vec<Event>, answers: &mut Answers) -> Result<(), Stop> {
    match run(gateway, rest) {
        Ok(more) => put(answers, more),
        Err(_) => Err(Stop::Wrong("second run")),
    }
}

// Where memory was refused, the events that were not taken are run once more.
fn run_on(
    alloc: Global,
    gateway: &mut Trials,
    answers: &mut Answers,
    more: Answers,
) -> Result<(), Stop> {
    let taken = more.len().saturating_add(gateway.held());
    must(taken < 5, "a refused run")?;
    put(answers, more)?;
    run_rest(gateway, rest(alloc, taken)?, answers)
}

fn run_all(alloc: Global, gateway: &mut Trials, answers: &mut Answers) -> Result<(), Stop> {
    match run(gateway, events(alloc)?) {
        Ok(more) => put(answers, more),
        Err((more, GatewayFault::NoMemory)) => run_on(alloc, gateway, answers, more),
        Err((_, GatewayFault::Device)) => Err(Stop::Fallen),
        Err(_) => Err(Stop::Wrong("run")),
    }
}

// What is held now is handed out, and kept.
fn settle(gateway: &mut Trials, answers: &mut Answers, kept: &mut Kept) -> Result<(), Stop> {
    hand_out(gateway, answers)?;
    *kept = lasting(gateway)?;
    Ok(())
}

fn hold_next(
    gateway: &mut Trials,
    offered: &mut Vec<Event>,
    answers: &mut Answers,
    kept: &mut Kept,
) -> Result<(), Stop> {
    hold(gateway, next(offered)?)?;
    settle(gateway, answers, kept)
}

// Each event that is offered, up to a fault of the disk.
fn offer_each(
    gateway: &mut Trials,
    offered: &mut Vec<Event>,
    answers: &mut Answers,
    kept: &mut Kept,
) -> Result<(), Stop> {
    hold(gateway, next(offered)?)?;
    hold_next(gateway, offered, answers, kept)?;
    answer_at_once(gateway, next(offered)?, answers)?;
    hold_next(gateway, offered, answers, kept)?;
    make_anew(gateway)?;
    hold_next(gateway, offered, answers, kept)
}

// Each call in turn, up to a fault of the disk.
fn call_each(
    alloc: Global,
    gateway: &mut Trials,
    offered: &mut Vec<Event>,
    answers: &mut Answers,
    kept: &mut Kept,
) -> Result<(), Stop> {
    offer_each(gateway, offered, answers, kept)?;
    run_all(alloc, gateway, answers)?;
    *kept = lasting(gateway)?;
    Ok(())
}

fn must_be_left(gateway: &Trials, kept: Kept, present: Result<Kept, Stop>) -> Result<(), Stop> {
    let found = lasting(gateway)?;
    must(found == kept || found == present?, "files")?;
    must(gateway.held() == 0, "answers of nobody")
}

// The files open again, with what they stood for, or with what there was at the end.
fn expect_left(
    alloc: Global,
    disk: Trial,
    kept: Kept,
    present: Result<Kept, Stop>,
) -> Result<(), Stop> {
    let gateway = open(alloc, disk)?;
    let ended = must_be_left(&gateway, kept, present);
    close(gateway);
    ended
}

fn play_into(alloc: Global, offered: &mut Vec<Event>, answers: &mut Answers) -> Result<(), Stop> {
    let mut kept = (0, 0);
    let mut gateway = open(alloc, empty_disk(alloc)?)?;
    let end = call_each(alloc, &mut gateway, offered, answers, &mut kept);
    let present = lasting(&gateway);
    expect_left(alloc, disk_of(gateway), kept, present)?;
    end
}

fn play_once(alloc: Global) -> Result<Answers, Stop> {
    let mut offered = begin(alloc)?;
    let mut answers = room(alloc)?;
    play_into(alloc, &mut offered, &mut answers)?;
    Ok(answers)
}

/// What is answered to each event. Where the disk was refused memory, all begins again, with another disk.
///
/// # Errors
///
/// The first place at which something is wrong.
pub fn play(alloc: Global) -> Result<Answers, Stop> {
    match play_once(alloc) {
        Err(Stop::Fallen) => play_once(alloc),
        end => end,
    }
}
