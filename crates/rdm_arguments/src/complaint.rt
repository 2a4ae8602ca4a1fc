//! What is wrong with arguments that fit no command, for people.
ghost use Rattle.std.specs.Prelude.{◌≡◌, ◌∷◌, [], List, IfSome, IfNone, OnSome, IsTrue, Some, false};
ghost use Rattle.std.specs.Borrow.{Bor};
ghost use Rattle.clap.specs.Words.{Text};
ghost use Rattle.rdm_arguments.specs.Arguments.{is_plain};
ghost use Rattle.rdm_arguments.specs.Complaints.{IsTrueAfter, IsTrueOf, IsNoCommand};

use crate::reading::{budget_named, port_named};
use crate::table::{
    ArgumentRule, BUDGET, CommandRule, DECODE, DISCOVER, ENCODE, EXPLAIN, LINE, PORT, RUN, SOURCE,
};
use crate::usage::{Usage, VERSION};
use rdm_wire::MOST_DEVICES;
use std::fmt;

/// What is wrong with arguments that fit no command, or what they ask for instead. Options are named without hyphens.
#[derive(Clone, Copy)]
pub enum Complaint<'a> {
    /// Nothing: they ask for the usage.
    Help,
    /// Nothing: they ask for the program's version.
    Version,
    /// There are none.
    NoCommand,
    /// The first one isn't a command.
    UnknownCommand(&'a str),
    /// The command has no such option.
    UnknownOption {
        /// The command's name.
        command: &'static str,
        /// The argument.
        option: &'a str,
    },
    /// This option is given twice.
    Repeated(&'static str),
    /// This option has a value, but takes none.
    HasValue(&'static str),
    /// The option `port` has this value.
    UnknownPort(&'a str),
    /// The command's argument is missing.
    NoArgument {
        /// The command's name.
        command: &'static str,
        /// What the argument is.
        argument: &'static str,
    },
    /// The command has no argument for this one.
    Unexpected(&'a str),
    /// This option has no value.
    NoValue(&'static str),
    /// The command's option is missing.
    NoOption {
        /// The command's name.
        command: &'static str,
        /// The option.
        option: &'static str,
    },
    /// This option needs the option `line`.
    NeedsLine(&'static str),
    /// This option is given more than 1,024 times.
    TooOften(&'static str),
    /// The option `budget` has this value.
    UnknownBudget(&'a str),
    /// One of them isn't text.
    NoText,
    /// Anything else.
    Misfit,
}

/// What is wrong with arguments that fit no command. Requests for help or for the version come first, and then the
/// first thing that is wrong. What it says is true of the arguments, but there may be more to say.
pub fn complaint_of<'a>(words: &[&'a str]) -> Complaint<'a>
    ensures { IsTrueOf words.now result }
{
    if let Some(asked) = asked(words) {
        return asked;
    }
    let Some((name, rest)) = words.split_first() else {
        return Complaint::NoCommand;
    };
    match command_named(name) {
        Some(command) => complaint_after(command, rest),
        None => Complaint::UnknownCommand(name),
    }
}

// The complaint for an argument that asks for help or for the version.
fn asked<'a>(words: &[&'a str]) -> Option<Complaint<'a>>
    ensures { IfSome result (IsTrueOf words.now) }
{
    if words.first() == Some(&"help") {
        return Some(Complaint::Help);
    }
    'words: for word in words {
        match *word {
            "-h" | "--help" => return Some(Complaint::Help),
            "-V" | "--version" => return Some(Complaint::Version),
            "--" => return None,
            _ => {}
        }
    }
    None
}

// The command with this name.
fn command_named(name: &str) -> Option<&'static CommandRule>
    ensures some { IfSome result (λ command. command.now.name.now ≡ name.now) }
    ensures known { OnSome result (¬ IsNoCommand name.now) }
    ensures none { IfNone result (IsNoCommand name.now) }
{
    match name {
        "decode" => Some(&DECODE),
        "encode" => Some(&ENCODE),
        "discover" => Some(&DISCOVER),
        "run" => Some(&RUN),
        "explain" => Some(&EXPLAIN),
        _ => None,
    }
}

// The first thing that is wrong with the arguments after a command's name.
fn complaint_after<'a>(command: &'static CommandRule, words: &[&'a str]) -> Complaint<'a>
    ensures { IsTrueAfter command.now.name.now words.now result }
{
    let mut reader = Reader {
        command,
        has_line: times_given(&LINE, words) > 0,
        has_value: false,
        wants: None,
        is_past_options: false,
    };
    'words: for i in 0..words.len() {
        if let Some(complaint) = reader.read_word(&words[..i], words[i]) {
            return complaint;
        }
    }
    reader.end(words)
}

// How often an option occurs in the arguments.
fn times_given(option: &ArgumentRule, words: &[&str]) -> usize {
    let mut times = 0_usize;
    for word in words {
        if option_name(word) == Some(option.name) {
            times = times.saturating_add(1);
        }
    }
    times
}

// The name of an option, without its hyphens and its value.
fn option_name(word: &str) -> Option<&str> {
    let option = word.strip_prefix("--")?;
    match option.split_once('=') {
        Some((name, _)) => Some(name),
        None => Some(option),
    }
}

// Whether an argument is an option or the end of the options. A hyphen alone is neither.
fn is_option(word: &str) -> bool
    ensures { IsTrue result → is_plain word.now ≡ false }
{
    word.starts_with('-') && word != "-"
}

// What was read of a command's arguments so far.
#[derive(Drop)]
struct Reader {
    command: &'static CommandRule,
    // Whether the option `--line` is among them.
    has_line: bool,
    // Whether the argument without a name was given.
    has_value: bool,
    // The option whose value is next.
    wants: Option<&'static ArgumentRule>,
    // A word `--` has ended the options.
    is_past_options: bool,
}

impl Reader {
    // Takes the next word after these, or says what is wrong with it.
    fn read_word<'a>(&mut self, before: &[&'a str], word: &'a str) -> Option<Complaint<'a>>
        ensures true_after { IfSome result (IsTrueAfter self.old.command.now.name.now (word.entry ∷ [])) }
        ensures kept { self.new.command ≡ self.old.command }
    {
        if let Some(option) = self.wants.take() {
            return value_after(option, word);
        }
        if self.is_past_options || !is_option(word) {
            return self.read_value(word);
        }
        if word == "--" {
            self.is_past_options = true;
            return None;
        }
        self.read_option(before, word)
    }

    fn read_value<'a>(&mut self, word: &'a str) -> Option<Complaint<'a>>
        ensures true_after { IfSome result (λ c. c ≡ Complaint.Unexpected word.entry) }
        ensures kept { self.new.command ≡ self.old.command }
    {
        if self.has_value || self.command.value(self.has_line).is_none() {
            return Some(Complaint::Unexpected(word));
        }
        self.has_value = true;
        None
    }

    fn read_option<'a>(&mut self, before: &[&'a str], word: &'a str) -> Option<Complaint<'a>>
        requires { is_plain word.now ≡ false }
        ensures true_after { IfSome result (IsTrueAfter self.old.command.now.name.now (word.entry ∷ [])) }
        ensures kept { self.new.command ≡ self.old.command }
    {
        let Some(option) = self.option(word) else {
            return Some(Complaint::UnknownOption {
                command: self.command.name,
                option: word,
            });
        };
        if option.needs_line && !self.has_line {
            return Some(Complaint::NeedsLine(option.name));
        }
        if let Some(complaint) = too_often(option, times_given(option, before)) {
            return Some(complaint);
        }
        match word.split_once('=') {
            Some((_, value)) if option.takes_value() => wrong_value(option, value),
            Some(_) => Some(Complaint::HasValue(option.name)),
            None => {
                if option.takes_value() {
                    self.wants = Some(option);
                }
                None
            }
        }
    }

    // The command's option that a word gives.
    fn option(&self, word: &str) -> Option<&'static ArgumentRule> {
        self.command.option(option_name(word)?)
    }

    // What is wrong if no words are left after these.
    fn end<'a>(&self, words: &[&'a str]) -> Complaint<'a>
        ensures { IsTrueAfter self.now.command.now.name.now [] result }
    {
        if let Some(option) = self.wants {
            return Complaint::NoValue(option.name);
        }
        let command = self.command.name;
        match self.command.value(self.has_line) {
            Some(argument) if !self.has_value => Complaint::NoArgument {
                command,
                argument: argument.help,
            },
            None if times_given(&SOURCE, words) == 0 => Complaint::NoOption {
                command,
                option: SOURCE.name,
            },
            _ => Complaint::Misfit,
        }
    }
}

// What is wrong with an option that was given this often before.
fn too_often<'a>(option: &ArgumentRule, before: usize) -> Option<Complaint<'a>>
    ensures { (command : Text) (words : List (Bor Text)) → IfSome result (IsTrueAfter command words) }
{
    if option.is_repeatable() {
        if before >= MOST_DEVICES {
            return Some(Complaint::TooOften(option.name));
        }
        return None;
    }
    if before > 0 {
        return Some(Complaint::Repeated(option.name));
    }
    None
}

// What is wrong with the word after an option that takes a value.
fn value_after<'a>(option: &ArgumentRule, word: &'a str) -> Option<Complaint<'a>>
    ensures { (command : Text) (words : List (Bor Text)) → IfSome result (IsTrueAfter command words) }
{
    if is_option(word) {
        Some(Complaint::NoValue(option.name))
    } else {
        wrong_value(option, word)
    }
}

// What is wrong with an option's value.
fn wrong_value<'a>(option: &ArgumentRule, value: &'a str) -> Option<Complaint<'a>>
    ensures { (command : Text) (words : List (Bor Text)) → IfSome result (IsTrueAfter command words) }
{
    if option.name == PORT.name && port_named(value).is_none() {
        return Some(Complaint::UnknownPort(value));
    }
    if option.name == BUDGET.name && budget_named(value).is_none() {
        return Some(Complaint::UnknownBudget(value));
    }
    None
}

impl fmt::Display for Complaint<'_> {
    fn fmt<W: fmt::Write>(&self, f: &mut fmt::Formatter<W>) -> fmt::Result {
        match self {
            Complaint::Help => write!(f, "{Usage}"),
            Complaint::Version => write!(f, "{Usage}\nversion: {VERSION}"),
            _ => {
                write_complaint(f, self)?;
                f.write_str("; try 'wurstlinen --help'")
            }
        }
    }
}

fn write_complaint<W: fmt::Write>(
    f: &mut fmt::Formatter<W>,
    complaint: &Complaint<'_>,
) -> fmt::Result {
    match complaint {
        Complaint::NoCommand => f.write_str("the command is missing"),
        Complaint::UnknownCommand(word) => write_unknown_command(f, word),
        Complaint::UnknownOption { command, option } => {
            write!(f, "{command} has no option {option:?}")
        }
        Complaint::Repeated(option) => write_about(f, option, "is given twice"),
        Complaint::HasValue(option) => write_about(f, option, "takes no value"),
        Complaint::UnknownPort(name) => write_quoted(f, "--port is locked or rings, not", name),
        Complaint::NoArgument { command, argument } => {
            write!(f, "the {argument} of {command} is missing")
        }
        Complaint::Unexpected(word) => write_quoted(f, "unexpected argument", word),
        Complaint::NoValue(option) => write_no_value(f, option),
        Complaint::NoOption { command, option } => {
            write!(f, "the option --{option} of {command} is missing")
        }
        Complaint::NeedsLine(option) => write_about(f, option, "needs --line"),
        Complaint::TooOften(option) => {
            write!(
                f,
                "the option --{option} is given more than {MOST_DEVICES} times"
            )
        }
        Complaint::UnknownBudget(text) => {
            let wanted = "--budget is a whole number from 1 to 1000000000, not";
            write_quoted(f, wanted, text)
        }
        Complaint::NoText => f.write_str("an argument isn't UTF-8 text"),
        _ => f.write_str("the arguments fit no command"),
    }
}

// A word with a leading hyphen may be an option that is given too early.
fn write_unknown_command<W: fmt::Write>(f: &mut fmt::Formatter<W>, word: &str) -> fmt::Result {
    write_quoted(f, "unknown command", word)?;
    if word.starts_with('-') {
        f.write_str("; options come after the command")?;
    }
    Ok(())
}

// The option --port takes one of two words, so the message names them.
fn write_no_value<W: fmt::Write>(f: &mut fmt::Formatter<W>, option: &str) -> fmt::Result {
    write!(f, "the value of --{option} is missing")?;
    if option == PORT.name {
        f.write_str(": locked or rings")?;
    }
    Ok(())
}

// What is wrong with an argument, which is quoted.
fn write_quoted<W: fmt::Write>(f: &mut fmt::Formatter<W>, wrong: &str, word: &str) -> fmt::Result {
    write!(f, "{wrong} {word:?}")
}

// What is wrong with an option.
fn write_about<W: fmt::Write>(f: &mut fmt::Formatter<W>, option: &str, wrong: &str) -> fmt::Result {
    write!(f, "the option --{option} {wrong}")
}
