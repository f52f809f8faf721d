//! What is said of a finding, and what to do.
ghost use Rattle.std.specs.Prelude.{IsTrue};
ghost use Rattle.packet.specs.Config.{is_name};

use crate::advice::{Advice, advice_for, sentence};
use crate::{Damage, Differing, Fault, Field, Finding, Held, Reading, differs};
use disk_model::FileId;
use file_disk::name_of;
use packet::{Bounds, Filtering, Prefix};
use std::fmt;
use std::fmt::{Display, Formatter};
use std::net::Ipv4Addr;

const FIELDS: [Field; 5] = [
    Field::Lan,
    Field::Wan,
    Field::Inside,
    Field::External,
    Field::Filtering,
];

// What stands behind the name of a file.
impl Display for Fault {
    fn fmt<W: fmt::Write>(&self, f: &mut Formatter<W>) -> fmt::Result {
        f.write_str(match self {
            Fault::Foreign => "is no file of natgw, or one of another version",
            Fault::Front => "has no whole beginning, it was cut short or changed",
            Fault::Snapshot => "begins with sessions or a ruleset that can't be, it was changed",
            Fault::Changes => {
                "has changes that aren't whole or don't fit, it was cut short or changed"
            }
        })
    }
}

// What stands behind the name of a file.
impl Display for Held {
    fn fmt<W: fmt::Write>(&self, f: &mut Formatter<W>) -> fmt::Result {
        write!(f, "holds generation {}, ", self.generation)?;
        match self.sessions {
            0 => f.write_str("no session"),
            1 => f.write_str("one session"),
            many => write!(f, "{many} sessions"),
        }
    }
}

// What stands behind the name of a file.
impl Display for Reading {
    fn fmt<W: fmt::Write>(&self, f: &mut Formatter<W>) -> fmt::Result {
        match self {
            Reading::Empty => f.write_str("is empty"),
            Reading::Closed => f.write_str("is not in use"),
            Reading::Faulty(fault) => Display::fmt(fault, f),
            Reading::Whole(held) => Display::fmt(held, f),
        }
    }
}

// One line: what is the matter, and what to do.
impl Display for Damage {
    fn fmt<W: fmt::Write>(&self, f: &mut Formatter<W>) -> fmt::Result {
        let advice = advice_for(*self);
        match advice {
            Advice::MoveEither => say_twins(f)?,
            _ => say_files(f, *self)?,
        }
        f.write_str(sentence(advice))
    }
}

fn say_files<W: fmt::Write>(f: &mut Formatter<W>, damage: Damage) -> fmt::Result {
    write!(
        f,
        "{} {}; {} {}: put both back from one backup",
        name_of(FileId::A),
        damage.a,
        name_of(FileId::B),
        damage.b
    )
}

fn say_twins<W: fmt::Write>(f: &mut Formatter<W>) -> fmt::Result {
    let (a, b) = (name_of(FileId::A), name_of(FileId::B));
    write!(
        f,
        "{a} and {b} have one generation, so they are not of one backup: put both back from one"
    )
}

// One line: what is the matter, and what to do.
impl Display for Differing<'_> {
    fn fmt<W: fmt::Write>(&self, f: &mut Formatter<W>) -> fmt::Result {
        f.write_str("the files were written with another configuration: start natgw with")?;
        for field in FIELDS {
            if differs(field, &self.stored, self.given) {
                say_field(f, field, &self.stored)?;
            }
        }
        f.write_str(", or name another directory")
    }
}

// One line.
impl Display for Finding<'_> {
    fn fmt<W: fmt::Write>(&self, f: &mut Formatter<W>) -> fmt::Result {
        match self {
            Finding::Sound => f.write_str("the files are sound"),
            Finding::Damaged(damage) => Display::fmt(damage, f),
            Finding::Differs(differing) => Display::fmt(differing, f),
        }
    }
}

fn option_of(field: Field) -> &'static str {
    match field {
        Field::Lan => " --lan ",
        Field::Wan => " --wan ",
        Field::Inside => " --inside ",
        Field::External => " --external ",
        Field::Filtering => " --filtering ",
    }
}

// A part of a configuration, as an option of the command line.
fn say_field<W: fmt::Write>(f: &mut Formatter<W>, field: Field, bounds: &Bounds) -> fmt::Result {
    f.write_str(option_of(field))?;
    bounds.facts();
    match field {
        Field::Lan => say_name(f, bounds.lan()),
        Field::Wan => say_name(f, bounds.wan()),
        Field::Inside => say_prefixes(f, bounds.inside()),
        Field::External => say_addresses(f, bounds.external()),
        Field::Filtering => f.write_str(name_of_filtering(bounds.filtering())),
    }
}

fn say_name<W: fmt::Write>(f: &mut Formatter<W>, name: &[u8]) -> fmt::Result
    requires { IsTrue (is_name name.now) }
{
    match str::from_utf8(name) {
        Ok(text) => f.write_str(text),
        Err(_) => unreachable!(),
    }
}

fn say_address<W: fmt::Write>(f: &mut Formatter<W>, addr: u32) -> fmt::Result {
    write!(f, "{}", Ipv4Addr::from_bits(addr))
}

fn say_addresses<W: fmt::Write>(f: &mut Formatter<W>, addresses: &[u32]) -> fmt::Result {
    let mut comma = "";
    for address in addresses {
        f.write_str(comma)?;
        say_address(f, *address)?;
        comma = ",";
    }
    Ok(())
}

fn name_of_filtering(filtering: Filtering) -> &'static str {
    match filtering {
        Filtering::Endpoint => "endpoint",
        Filtering::Address => "address",
    }
}

fn say_prefixes<W: fmt::Write>(f: &mut Formatter<W>, prefixes: &[Prefix]) -> fmt::Result {
    let mut comma = "";
    for prefix in prefixes {
        f.write_str(comma)?;
        say_address(f, prefix.addr)?;
        write!(f, "/{}", prefix.len)?;
        comma = ",";
    }
    Ok(())
}
