//! What follows from the definitions of `specs/Standing`, `specs/Lives`, `specs/Restarts` and `specs/Living`: each
//! function is proved to meet its clauses. The laws of every step are in `machine::laws`.
//!
//! - `calls_stand_for_the_model`: calls one by one, and what the files stand for between them
//! - `lives_are_the_models`: gateways opened one after the other over the same files, each stopped at any moment
//! - `goes_on_after_a_stop`: the plainest case of it
//! - `restarts_keep_the_state`: which state a gateway begins with then
//! - `open_in_lives`, `run_in_lives`, `compact_in_lives`: these calls of `Gateway`, each with the clauses that say that it
//!   makes such lives; `rests_in_lives`: a gateway that rests, as behind these, is in its life
//! - `calls_are_lives`: what `offer`, `take_packet`, `take_event`, `flush` and `settle` promise makes such lives; so does
//!   what the calls of `running` promise, which make these calls for their callers
ghost use Rattle.std.specs.Prelude.{◌≡◌, ◌≢◌, ◌++◌, [], List, IfErr, IfOk, IsErr, MatchResult, OnErr, OnOk, true};
ghost use Rattle.packet.specs.Config.{Config};
ghost use Rattle.disk_model.specs.Disk.{LeavesNow};
ghost use Rattle.durable.specs.Entering.{Durable};
ghost use Rattle.machine.specs.declared.event.Event.{Event};
ghost use Rattle.gateway.specs.Lives.{AreLives, GoesOnAfterAStop, IsAsModel, IsLife, Life, LivesAreTheModels, NextFinds, Refused, Stopped};
ghost use Rattle.gateway.specs.Living.{CallsAreLives, EndsLife, EndsTaking, GoesOnInLife, RestsAgain, RestingIsLiving, RestsInLife, RunsInLife, StaysInLife, StopsInLife, StopsTaking, TakesAllInLife};
ghost use Rattle.gateway.specs.Restarts.{RestartsKeepTheState};
ghost use Rattle.gateway.specs.Standing.{CallsStandForTheModel};
ghost use Rattle.gateway.specs.Told.{TookAll};

use crate::calls::Gateway;
use crate::{GatewayFault, OpenFault};
use disk_model::Disk;
use machine::laws::runs_keep_sound;
use machine::{Answer, Event};
use packet::Bounds;
use rulesyntax::one_ruleset;
use std::alloc::Global;

/// From a sound state, nothing held and files that stand for it: after any list of steps that are as `specs/Standing`
/// defines an offer, a flush and a compaction, none of which a device fault ended, the files stand for what the model
/// has after the events that were answered, and the present state is the model's after all that were taken. Of the
/// calls of `Gateway` itself `AgreesWithModel` (`specs/Running`) says as much.
pub fn calls_stand_for_the_model()
    ensures { CallsStandForTheModel }
{}

/// Gateways are opened one after the other with one configuration, each over files that the one before may have left, or
/// over what an opening of those may have made of them (`NextFinds`). Each was stopped at any moment, within any call, its
/// opening too. Then no opening answers `Damaged` or `ConfigDiffers`, and `Generations` only if the files may be of a
/// former version and of the last generation. Each gateway begins again from what must survive of the model's state after
/// some first events of the earlier lives, each in its turn, and these hold every event whose answer was given out: it
/// goes on from the gateway before it (`GoesOnFrom`), with the state of the model after these, but for the moments. Every
/// answer that it gives out is the model's from there on. Files of version 1 may be the first.
///
/// What a life is (`IsLife` of `specs/Lives`) is what the clauses of the calls say: the functions below, and
/// `socket_edge::laws::runs_are_lives`, are proved to make such ones.
pub fn lives_are_the_models<D: Disk>(_: &D)
    ensures { (config : Config) → LivesAreTheModels D.honest D.moment D.left D.seen config }
{
    restarts_keep_the_state();
}

/// The plainest case: a gateway is opened over files of which none is open and is stopped at any moment, and another
/// one is opened. It begins again from what must survive of the model's state after some first events, which hold every
/// event whose answer was given out, and goes on from the first one with that state, but for the moments.
pub fn goes_on_after_a_stop<D: Disk>(_: &D)
    ensures { (config : Config) → GoesOnAfterAStop D.honest D.moment D.left D.seen config }
{
    restarts_keep_the_state();
}

/// What is stored settles the state that a gateway begins with: the text, the rules that are in force, and the sessions,
/// from which mappings, hosts and timers follow. Of a life of which something may survive, that is the state that the
/// model has after some first of its events, every part as it was, but for the moments: each session is as if its last
/// packet had passed as the gateway was opened, and the clock begins with that moment.
pub fn restarts_keep_the_state()
    ensures { RestartsKeepTheState }
{
    one_ruleset();
    runs_keep_sound();
}

/// Opens a gateway (`Gateway::open`). Stopped within it, or refused by it, that is a life; else the gateway that it
/// gives is in its life. Behind earlier lives it tells neither damage nor another configuration.
///
/// # Errors
///
/// Those of `Gateway::open`.
pub fn open_in_lives<D: Disk + Drop>(
    alloc: Global,
    disk: D,
    bounds: Bounds,
    moment: u64,
) -> Result<Gateway<D>, (D, OpenFault)>
    ensures stopped { D.honest disk → MatchResult result
        (λ g. IsLife D.honest D.moment D.left D.seen bounds
        (record { disk = disk; opened_at = moment; course = Stopped g.disk }))
        (λ e. IsLife D.honest D.moment D.left D.seen bounds
        (record { disk = disk; opened_at = moment; course = Stopped e.0 })) }
    ensures refused { D.honest disk → IfErr result (λ e.
        IsLife D.honest D.moment D.left D.seen bounds
        (record { disk = disk; opened_at = moment; course = Refused e.0 e.1 })) }
    ensures opened { D.honest disk → IfOk result (λ g.
        RestsInLife D.honest D.moment D.left D.seen bounds disk moment g [] [] g) }
    ensures behind { D.honest disk → (first : Durable) (earlier : List (Life D))
        → AreLives D.honest D.moment D.left D.seen bounds first earlier
        → LeavesNow D.moment D.left disk
        (NextFinds D.honest D.moment D.left D.seen bounds first earlier)
        → IfErr result (λ e. IsAsModel D.honest D.moment D.left D.seen bounds first earlier moment
        (Refused e.0 e.1)) }
{
    bounds.facts();
    lives_are_the_models(&disk);
    Gateway::open(alloc, disk, bounds, moment)
}

/// A gateway that rests in its life, as one that was opened or has ended a run well does, is in its life, as the other
/// calls ask. It does nothing but carry this fact.
pub fn rests_in_lives<D: Disk + Drop>(gateway: &Gateway<D>)
    ensures { RestingIsLiving D.honest D.moment D.left D.seen D.failed gateway.now }
{
    gateway.has_fallen();
}

/// Takes events (`Gateway::run`), for a gateway in its life, whatever it holds. After Ok, or any fault but `Device`, it
/// goes on in its life, with these answers given out too; with `Device` that ends, with these given out. A stop within
/// the run ends the life: the events that the run took count as taken, and the answers given out before it as given out.
/// A gateway that rested rests again after Ok.
///
/// # Errors
///
/// Those of `Gateway::run`.
pub fn run_in_lives<D: Disk + Drop>(
    gateway: &mut Gateway<D>,
    events: Vec<Event>,
) -> Result<Vec<(u64, Answer)>, (Vec<(u64, Answer)>, GatewayFault)>
    ensures ok { IfOk result (λ answers.
        RunsInLife D.honest D.moment D.left D.seen gateway.old gateway.new events.items
        answers.items
        × RestsAgain D.honest D.moment D.left D.seen gateway.old gateway.new events.items
        answers.items
        × StopsTaking D.honest D.moment D.left D.seen D.failed gateway.old gateway.new
        events.items
        × TakesAllInLife D.honest D.moment D.left D.seen D.failed gateway.old gateway.new
        events.items answers.items) }

    // With a fault, this is said of those that were taken. Unless a call of the disk failed, the gateway stays in its
    // life.
    ensures err { IfErr result (λ e. (front : List Event)
        × (back : List Event) × (events.items ≡ front ++ back)
        × TookAll gateway.old.told gateway.new.told front e.0.items
        × RunsInLife D.honest D.moment D.left D.seen gateway.old gateway.new front e.0.items
        × (e.1 ≢ GatewayFault.Device → StaysInLife D.honest D.moment D.left D.seen D.failed
        gateway.old gateway.new front e.0.items)
        × StopsTaking D.honest D.moment D.left D.seen D.failed gateway.old gateway.new front
        × (e.1 ≢ GatewayFault.Device → TakesAllInLife D.honest D.moment D.left D.seen D.failed
        gateway.old gateway.new front e.0.items)
        × EndsTaking D.honest D.moment D.left D.seen D.failed gateway.old gateway.new front
        e.0.items) }
    ensures none { OnOk result (gateway.new.told.held ≡ []) }
    ensures fallen { gateway.old.fallen ≡ true → IsErr result × (gateway.new ≡ gateway.old) }
{
    gateway.run(events)
}

/// Compacts (`Gateway::compact`), for a gateway in its life that holds nothing. Stopped within it, that is a life.
/// After it the gateway goes on in its life. With `Device`, that is its end; any other fault changes nothing.
///
/// # Errors
///
/// Those of `Gateway::compact`.
pub fn compact_in_lives<D: Disk + Drop>(gateway: &mut Gateway<D>) -> Result<(), GatewayFault>
    requires { gateway.old.told.held ≡ [] }
    ensures stopped { StopsInLife D.honest D.moment D.left D.seen D.failed gateway.old gateway.new }
    ensures ok { OnOk result (GoesOnInLife D.honest D.moment D.left D.seen D.failed gateway.old
        gateway.new []) }
    ensures err { OnErr result (EndsLife D.honest D.moment D.left D.seen D.failed gateway.old
        gateway.new) }
    ensures stays { IfErr result (λ e. e ≢ GatewayFault.Device → gateway.new ≡ gateway.old) }
    ensures told { gateway.new.told ≡ gateway.old.told }
    ensures fallen { gateway.old.fallen ≡ true → IsErr result × (gateway.new ≡ gateway.old) }
{
    gateway.compact()
}

/// Between two calls a stop is the end of a life (`between`). What the calls of a gateway promise leads on in its life,
/// or to its end: `offer`, `take_packet` and `take_event` (`takes`), `flush` and `settle` (`syncs`), and the calls of
/// `running`. The field `carries` of `PutsBehind` and `Proceeds` is what `carries` takes. If such a call fails,
/// `breaks` of `FailsBehind` and `Fails`, for the run in `IsInLife`, gives what `ends` takes and, unless it is Device,
/// what `stands` takes. A stop within a call ends the life (`safe`, from `SafeWithin`), also within a run of events
/// that begins while answers are held (`SafeThrough`). A held answer counts as given out once `flush` or `settle` has
/// ended well, and not before, also if it was told in place.
pub fn calls_are_lives<D: Disk>(_: &D)
    ensures { CallsAreLives D.honest D.moment D.left D.seen D.failed }
{}
