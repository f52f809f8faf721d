//! What a command line asks for, as it was written: the options that all commands have, the command, and what it alone
//! takes. Nothing of it is tested here. `command_line` makes it, and `commands` does what it says.
#![tactic(auto)]

ghost use Rattle.std.specs.Prelude.{◌≡◌};
ghost use Rattle.options.specs.Modes.{mode_of};

mod tunnel;

pub use tunnel::{Descriptors, Report, Tunnel};

/// A command line that was read.
#[derive(Clone, Copy, Drop)]
pub struct Options<'a> {
    /// The options that all commands have.
    pub sides: Sides<'a>,
    /// The command, and what it alone takes.
    pub task: Task<'a>,
}

/// What the gateway stands between, as it was written. Nothing of it is tested yet.
#[derive(Clone, Copy, Drop)]
pub struct Sides<'a> {
    /// The name of the inside interface.
    pub lan: &'a str,
    /// The name of the outside interface.
    pub wan: &'a str,
    /// The inside prefixes, joined by commas.
    pub inside: &'a str,
    /// The external addresses, joined by commas.
    pub external: &'a str,
    /// The word for whom a mapping lets in.
    pub filtering: &'a str,
}

/// A command with what it alone takes.
#[derive(Clone, Copy, Drop)]
pub enum Task<'a> {
    /// Says whether the ruleset of this file would load.
    Check {
        /// The file.
        path: &'a str,
        /// Whether the place of a fault is shown.
        explains: bool,
    },
    /// Tells of a gateway that another natgw may be serving: no lock is taken, and nothing is written.
    Look {
        /// The directory of its two files.
        directory: &'a str,
        /// What is told.
        view: View,
    },
    /// Has a gateway work.
    Open {
        /// How it opens.
        opening: Opening<'a>,
        /// What it does then.
        work: Work<'a>,
    },
}

/// How a gateway opens.
#[derive(Clone, Copy, Drop)]
pub struct Opening<'a> {
    /// The directory of its two files.
    pub directory: &'a str,
    /// The moment, in seconds.
    pub moment: u64,
}

/// What a gateway is opened for.
#[derive(Clone, Copy, Drop)]
pub enum Work<'a> {
    /// It answers the requests of standard input.
    Replay,
    /// It serves the clients of a Unix socket, one after the other.
    Serve {
        /// The path of the socket.
        socket: &'a str,
        /// Who may connect to it.
        access: Access,
        /// How many connections.
        connections: u64,
    },
    /// It answers the requests of a file, through a Unix socket of its own.
    Loop {
        /// The file.
        path: &'a str,
    },
    /// It is told of.
    View(View),
}

/// What is told of a gateway.
#[derive(Clone, Copy, Debug, PartialEq, Eq, Drop)]
pub enum View {
    /// Its sessions.
    Sessions(Listing),
    /// The ruleset in force, byte for byte as it was loaded.
    Rules,
}

/// How sessions are listed, each in a line of its own.
#[derive(Clone, Copy, Debug, PartialEq, Eq, Drop)]
pub enum Listing {
    /// In columns.
    Columns,
    /// As an object of JSON.
    Json,
}

/// Who may connect to a socket.
#[derive(Clone, Copy, Debug, PartialEq, Eq, Drop)]
pub enum Access {
    /// The user that natgw runs as: mode 0600.
    Owner,
    /// That user and the group of the socket: mode 0660.
    Group,
    /// Everyone: mode 0666.
    Everyone,
}

impl Access {
    /// The bits of the socket's mode.
    pub fn mode(self) -> u32
        ensures { result ≡ mode_of self }
    {
        match self {
            Access::Owner => 0o600,
            Access::Group => 0o660,
            Access::Everyone => 0o666,
        }
    }
}
