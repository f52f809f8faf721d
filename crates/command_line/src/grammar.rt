//! Which commands there are, and what each takes.
use crate::help;

/// A command.
pub(crate) struct Verb {
    pub(crate) name: &'static str,
    pub(crate) about: &'static str,
    /// What stands at the end of its help.
    pub(crate) more: &'static str,
    /// Whether it opens a gateway, and so takes `OPENING`.
    pub(crate) opens: bool,
    /// Whether it tells of a gateway, and so takes `LOOKING`.
    pub(crate) looks: bool,
    /// What it takes behind that.
    pub(crate) own: &'static [Argument],
}

/// An option of a command, or its file.
pub(crate) struct Argument {
    /// The option without its `--`, or the file.
    pub(crate) name: &'static str,
    pub(crate) form: Form,
    /// What stands for the value in help.
    pub(crate) value: &'static str,
    /// The value where none is given; without it one has to be given. A flag has none, and may be left out.
    pub(crate) default: Option<&'static str>,
    pub(crate) help: &'static str,
}

/// How an option or a file is written.
#[derive(Clone, Copy)]
pub(crate) enum Form {
    /// `--name VALUE`.
    Text,
    /// `--name VALUE`, the value a number below 2^64.
    Number,
    /// `--name VALUE`, the value one of these words.
    Word(&'static [&'static str]),
    /// `--name` alone.
    Flag,
    /// The value alone.
    File,
}

/// What all commands take.
pub(crate) const SIDES: &[Argument] = &[
    Argument {
        name: "lan",
        form: Form::Text,
        value: "NAME",
        default: Some("lan"),
        help: "The inside interface",
    },
    Argument {
        name: "wan",
        form: Form::Text,
        value: "NAME",
        default: Some("wan"),
        help: "The outside interface",
    },
    Argument {
        name: "inside",
        form: Form::Text,
        value: "LIST",
        default: None,
        help: "The inside prefixes, as 192.168.0.0/16, joined by commas",
    },
    Argument {
        name: "external",
        form: Form::Text,
        value: "LIST",
        default: None,
        help: "1 to 4 external addresses, as 203.0.113.1, joined by commas",
    },
    Argument {
        name: "filtering",
        form: Form::Word(&["endpoint", "address"]),
        value: "WORD",
        default: Some("endpoint"),
        help: "Whom a mapping lets in: everyone, or the addresses it knows",
    },
];

/// What the commands take that open a gateway.
pub(crate) const OPENING: &[Argument] = &[
    Argument {
        name: "dir",
        form: Form::Text,
        value: "DIR",
        default: None,
        help: "The directory of natgw.a and natgw.b, which are made where they are missing",
    },
    Argument {
        name: "at",
        form: Form::Number,
        value: "N",
        default: Some("0"),
        help: "The opening moment, in seconds",
    },
];

/// What the commands take that tell of a gateway.
pub(crate) const LOOKING: &[Argument] = &[Argument {
    name: "running",
    form: Form::Flag,
    value: "",
    default: None,
    help: "Looks on while another natgw serves: takes no lock, and writes nothing",
}];

/// The commands, in the order in which help lists them.
pub(crate) const VERBS: &[Verb] = &[
    Verb {
        name: "check",
        about: help::CHECK,
        more: help::KINDS,
        opens: false,
        looks: false,
        own: &[
            Argument {
                name: "explain",
                form: Form::Flag,
                value: "",
                default: None,
                help: "Shows on standard error the place of the fault, what stands there and what could",
            },
            Argument {
                name: "FILE",
                form: Form::File,
                value: "FILE",
                default: None,
                help: "The ruleset's text; - is standard input",
            },
        ],
    },
    Verb {
        name: "replay",
        about: help::REPLAY,
        more: help::FRAMES,
        opens: true,
        looks: false,
        own: &[],
    },
    Verb {
        name: "serve",
        about: help::SERVE,
        more: help::CLIENTS,
        opens: true,
        looks: false,
        own: &[
            Argument {
                name: "socket",
                form: Form::Text,
                value: "P",
                default: None,
                help: "The path of the socket, where nothing is yet",
            },
            Argument {
                name: "socket-mode",
                form: Form::Word(&["600", "660", "666"]),
                value: "MODE",
                default: Some("600"),
                help: "Who may connect: the user alone, its group, or everyone",
            },
            Argument {
                name: "connections",
                form: Form::Number,
                value: "N",
                default: None,
                help: "How many connections are served before natgw ends",
            },
        ],
    },
    Verb {
        name: "loop",
        about: help::LOOP,
        more: help::TRIED,
        opens: true,
        looks: false,
        own: &[Argument {
            name: "FILE",
            form: Form::File,
            value: "FILE",
            default: None,
            help: "The request frames, at most 2048 bytes",
        }],
    },
    Verb {
        name: "show",
        about: help::SHOW,
        more: help::COLUMNS,
        opens: true,
        looks: true,
        own: &[Argument {
            name: "json",
            form: Form::Flag,
            value: "",
            default: None,
            help: "Lists each session as an object of JSON",
        }],
    },
    Verb {
        name: "rules",
        about: help::RULES,
        more: help::IN_FORCE,
        opens: true,
        looks: true,
        own: &[],
    },
    crate::tunnel::VERB,
];
