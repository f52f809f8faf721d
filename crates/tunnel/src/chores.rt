//! What goes on beside the packets: natgw waits for them, and once a second the ruleset's file is looked at, and the
//! counts are reported.
ghost use Rattle.std.specs.Option.{ForSome};
ghost use Rattle.std.specs.Prelude.{◌≤◌, IfOk, length};

use crate::clock::Clock;
use crate::report::write_file;
use crate::rules::{Rules, judge};
use carrying::{Beat, Between, Dropped, Pace};
use checking::bounds;
use devices::{Readiness, Tun, wait};
use drop_lines::put_line;
use from_devices::LONGEST_TEXT;
use options::{Report, Tunnel};
use packet::Bounds;
use refusals::{Refusal, Stop};
use std::alloc::{AllocError, Global};
use std::fs::Files;
use std::io::Eprint;
use to_devices::Counts;

/// The longest wait for a packet, in milliseconds.
const LONGEST_WAIT: u16 = 500;

// The line of a dropped packet, without its end.
fn drop_line(alloc: Global, dropped: &Dropped) -> Result<Vec<u8>, AllocError> {
    let mut line = Vec::new(alloc);
    let side = if dropped.from_wan { "wan" } else { "lan" };
    put_line(
        &mut line,
        dropped.moment,
        dropped.cause,
        side,
        dropped.packet(),
    )?;
    Ok(line)
}

/// The clock, the ruleset's file, and the report that is due.
#[derive(Drop)]
pub struct Chores<'a, R> {
    rt: &'a R,
    alloc: Global,
    clock: Clock,
    /// The moment of the last turn at which all was looked at, in seconds; none before the first turn.
    looked: Option<u64>,
    rules: Rules<'a>,
    bounds: Bounds,
    report: Report<'a>,
    /// The moment of the next report, in seconds.
    due: u64,
    /// Why they ended.
    ended: Option<Stop>,
}

impl<'a, R: Files + Eprint> Chores<'a, R> {
    /// They begin at the moment that is asked for.
    ///
    /// # Errors
    ///
    /// `Config` where the options are no configuration; `File` where the ruleset's file can't be read; `NoMemory` where
    /// memory is refused.
    pub fn new(rt: &'a R, alloc: Global, asked: &Tunnel<'a>) -> Result<Chores<'a, R>, Stop> {
        let clock = Clock::new(asked.opening.moment);
        let rules = Rules::new(asked.rules);
        drop(rules.read(rt, alloc)?);
        Ok(Chores {
            rt,
            alloc,
            clock,
            looked: None,
            rules,
            bounds: bounds(alloc, &asked.sides)?,
            report: asked.report,
            due: clock.first(),
            ended: None,
        })
    }

    /// The first moment, in seconds.
    pub fn first(&self) -> u64 {
        self.clock.first()
    }

    /// Why the run ended, where no fault of the gateway ended it.
    pub fn ended(self) -> Result<(), Stop> {
        let Chores { ended, .. } = self;
        match ended {
            Some(stop) => Err(stop),
            None => Ok(()),
        }
    }

    // Tells a line on standard error. Where that takes no more it is lost, and the work goes on.
    fn tell(&self, line: &str) {
        let _ = eprintln!(self.rt; "{line}");
    }

    // Tells of dropped packets, of each in a line. One that has no memory is lost.
    fn tell_drops(&self, dropped: &[Dropped]) {
        for packet in dropped {
            if let Ok(line) = drop_line(self.alloc, packet) {
                self.tell(std::str::from_utf8(line.as_slice()).unwrap_or(""));
            }
        }
    }

    // The text of the ruleset's file, if it has changed and isn't too long. What becomes of it is told.
    fn changed_text(&mut self) -> Result<Option<Vec<u8>>, Stop>
        ensures { IfOk result (λ text. ForSome text (λ bytes. length bytes.items ≤ 262144)) }
    {
        if !self.rules.has_changed(self.rt) {
            return Ok(None);
        }
        let text = match self.rules.read(self.rt, self.alloc) {
            Ok(text) => text,
            Err(stop) => {
                self.tell(stop.second_line());
                return Ok(None);
            }
        };
        let line = judge(self.alloc, self.rules.path(), text.as_slice(), &self.bounds)?;
        self.tell(line.as_str());
        if text.len() > LONGEST_TEXT {
            return Ok(None);
        }
        Ok(Some(text))
    }

    // Writes the report, if it is due at this moment, in seconds.
    fn report(&mut self, moment: u64, devices: &Between<Tun, Tun>, counts: &Counts) {
        if self.report.seconds == 0 || moment < self.due {
            return;
        }
        self.due = moment.saturating_add(self.report.seconds);
        let path = self.report.path;
        if let Err(error) = write_file(self.rt, self.alloc, path, devices, counts) {
            let _ = eprintln!(self.rt; "{path} can't be written: {error}");
        }
    }

    // Ends the run, for this reason.
    fn end(&mut self, stop: Stop) -> Option<Beat> {
        self.ended = Some(stop);
        None
    }

    // The turn at this moment, in seconds, at which all is looked at.
    fn look(&mut self, moment: u64, devices: &Between<Tun, Tun>, counts: &Counts) -> Option<Beat> {
        self.looked = Some(moment);
        self.report(moment, devices, counts);
        match self.changed_text() {
            Ok(text) => Some(Beat { moment, text }),
            Err(stop) => self.end(stop),
        }
    }

    // Ends the run, since a device is gone.
    fn end_without(&mut self, option: &str) -> Option<Beat> {
        let line = format!(in self.alloc;
            "the device of {option} is gone: start natgw with a new one"
        );
        self.end(Stop::with(Refusal::File, line))
    }
}

impl<R: Files + Eprint> Pace<Tun, Tun> for Chores<'_, R> {
    fn next(
        &mut self,
        devices: &mut Between<Tun, Tun>,
        counts: &Counts,
        dropped: &[Dropped],
    ) -> Option<Beat> {
        self.tell_drops(dropped);
        let Some(looked) = self.looked else {
            let first = self.clock.first();
            return self.look(first, devices, counts);
        };
        wait(&mut devices.lan, &mut devices.wan, LONGEST_WAIT);
        if devices.lan.ready == Readiness::Gone {
            return self.end_without("--lan-fd");
        }
        if devices.wan.ready == Readiness::Gone {
            return self.end_without("--wan-fd");
        }
        let moment = self.clock.now();
        if moment != looked {
            return self.look(moment, devices, counts);
        }
        Some(Beat { moment, text: None })
    }
}
