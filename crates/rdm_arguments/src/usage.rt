//! How the program is used, for people.
use crate::table::{COMMANDS, CommandRule};
use std::fmt;

/// The program's version.
pub const VERSION: &str = "0.1.0";

/// The commands and options that the program knows, with examples. This is what its `Display` writes.
#[derive(Clone, Copy, Debug, Drop)]
pub struct Usage;

const ENDING: &str = "\
HEX: bytes as pairs of hexadecimal digits. UID: a device, as 7a70:00000001. FILE: JSON; docs/FORMATS.md has its keys.
examples: wurstlinen decode fefefefefefefeaafa7ffa75aa55aa55aa55ab55ae57eff5
          wurstlinen encode 7a70:00000001
          wurstlinen discover examples/small_rig.json --quick
          wurstlinen run examples/two_programs.json --port rings";

// Where the arguments of commands begin, apart from their names, and the explanations.
const AFTER_PROGRAM: usize = 18;

const AFTER_NAME: usize = 15;

impl fmt::Display for Usage {
    fn fmt<W: fmt::Write>(&self, f: &mut fmt::Formatter<W>) -> fmt::Result {
        let mut start = "usage: ";
        for command in COMMANDS {
            write_forms(f, start, command)?;
            start = "       ";
        }
        for command in COMMANDS {
            write_help(f, command)?;
        }
        f.write_str(ENDING)
    }
}

// The lines of a command's forms.
fn write_forms<W: fmt::Write>(
    f: &mut fmt::Formatter<W>,
    start: &str,
    command: &CommandRule,
) -> fmt::Result {
    let name = command.name;
    for form in command.forms {
        if form.starts_with('[') {
            write_spaces(f, AFTER_PROGRAM.saturating_add(name.len()))?;
        } else {
            write!(f, "{start}wurstlinen {name}")?;
        }
        writeln!(f, " {form}")?;
    }
    Ok(())
}

// A line for a command, and one for each option that is explained after it.
fn write_help<W: fmt::Write>(f: &mut fmt::Formatter<W>, command: &CommandRule) -> fmt::Result {
    write_entry(f, "", command.name, command.help)?;
    for option in command.explained {
        write_entry(f, "--", option.name, option.help)?;
    }
    Ok(())
}

fn write_entry<W: fmt::Write>(
    f: &mut fmt::Formatter<W>,
    hyphens: &str,
    name: &str,
    help: &str,
) -> fmt::Result {
    write!(f, "  {hyphens}{name}")?;
    write_spaces(
        f,
        AFTER_NAME.saturating_sub(hyphens.len().saturating_add(name.len())),
    )?;
    writeln!(f, "{help}")
}

fn write_spaces<W: fmt::Write>(f: &mut fmt::Formatter<W>, count: usize) -> fmt::Result {
    for _ in 0..count {
        f.write_str(" ")?;
    }
    Ok(())
}
