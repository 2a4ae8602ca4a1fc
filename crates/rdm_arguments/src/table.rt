//! The commands of the program, with their arguments. The parser, the complaints and the usage follow from this table.

/// A command.
#[derive(Clone, Copy)]
pub(crate) struct CommandRule {
    /// Its name.
    pub name: &'static str,
    /// Its arguments. Only the first one may be without a name.
    pub arguments: &'static [ArgumentRule],
    /// What the usage shows after its name, a line for each. One that begins with a bracket continues the last one.
    pub forms: &'static [&'static str],
    /// What it does.
    pub help: &'static str,
    /// The options that the usage explains after it.
    pub explained: &'static [ArgumentRule],
}

/// An argument of a command.
#[derive(Clone, Copy)]
pub(crate) struct ArgumentRule {
    /// Its name. An option is given by two hyphens and its name.
    pub name: &'static str,
    /// How it is given.
    pub form: Form,
    /// Whether it needs the option `--line`.
    pub needs_line: bool,
    /// What an option does, or what another argument is.
    pub help: &'static str,
}

/// How an argument is given.
#[derive(Clone, Copy)]
pub(crate) enum Form {
    /// As a value without a name, which has to be there.
    Needed,
    /// As a value without a name, which may be left out.
    Optional,
    /// As `--name`, once at most.
    Flag,
    /// As `--name VALUE`, once at most.
    Once,
    /// As `--name VALUE`, any number of times.
    Repeated,
}

/// All commands, in the order of the usage.
pub(crate) const COMMANDS: &[CommandRule] = &[DECODE, ENCODE, DISCOVER, RUN, EXPLAIN];

/// Says what bytes mean.
pub(crate) const DECODE: CommandRule = CommandRule {
    name: "decode",
    arguments: &[HEX],
    forms: &["HEX"],
    help: "what the bytes of a reply to a branch say",
    explained: &[],
};

const HEX: ArgumentRule = ArgumentRule {
    name: "hex",
    form: Form::Needed,
    needs_line: false,
    help: "HEX",
};

/// Writes a reply.
pub(crate) const ENCODE: CommandRule = CommandRule {
    name: "encode",
    arguments: &[UID],
    forms: &["UID"],
    help: "the reply of the device with this UID",
    explained: &[],
};

const UID: ArgumentRule = ArgumentRule {
    name: "uid",
    form: Form::Needed,
    needs_line: false,
    help: "UID",
};

/// Discovers devices.
pub(crate) const DISCOVER: CommandRule = CommandRule {
    name: "discover",
    arguments: &[
        SCENE,
        LINE,
        REPLIES,
        SOURCE,
        KNOWN,
        BUDGET,
        INCREMENTAL,
        QUICK,
        LOG,
    ],
    forms: &[
        "FILE [--incremental] [--quick] [--log LOG]",
        "--line OUT [--replies IN] --source UID [--known UID].. [--budget N]",
        "[--incremental] [--quick] [--log LOG]",
    ],
    help: "the devices that a run finds on the line of a scene file",
    explained: &[INCREMENTAL, QUICK, LINE, REPLIES, SOURCE, KNOWN, BUDGET],
};

const SCENE: ArgumentRule = ArgumentRule {
    name: "file",
    form: Form::Optional,
    needs_line: false,
    help: "FILE",
};

const INCREMENTAL: ArgumentRule = ArgumentRule {
    name: "incremental",
    form: Form::Flag,
    needs_line: false,
    help: "mutes the file's known devices first",
};

const QUICK: ArgumentRule = ArgumentRule {
    name: "quick",
    form: Form::Flag,
    needs_line: false,
    help: "sweeps first, which takes fewer frames on a large rig",
};

/// The option without which a line is simulated.
pub(crate) const LINE: ArgumentRule = ArgumentRule {
    name: "line",
    form: Form::Once,
    needs_line: true,
    help: "sends frames to this stream as text, and reads replies from it",
};

const REPLIES: ArgumentRule = ArgumentRule {
    name: "replies",
    form: Form::Once,
    needs_line: true,
    help: "reads replies from this stream instead",
};

/// The option that a discovery with `--line` needs.
pub(crate) const SOURCE: ArgumentRule = ArgumentRule {
    name: "source",
    form: Form::Once,
    needs_line: true,
    help: "the controller's UID",
};

const KNOWN: ArgumentRule = ArgumentRule {
    name: "known",
    form: Form::Repeated,
    needs_line: true,
    help: "a device that --incremental mutes first; may be given often",
};

/// The option whose value is a whole number.
pub(crate) const BUDGET: ArgumentRule = ArgumentRule {
    name: "budget",
    form: Form::Once,
    needs_line: true,
    help: "how many frames the run may send",
};

/// Runs a session.
pub(crate) const RUN: CommandRule = CommandRule {
    name: "run",
    arguments: &[SESSION, LINE, REPLIES, PORT, LOG],
    forms: &["FILE [--line OUT [--replies IN]] [--port locked|rings] [--log LOG]"],
    help: "the results of the clients of a session file",
    explained: &[PORT, LOG],
};

const SESSION: ArgumentRule = ArgumentRule {
    name: "file",
    form: Form::Needed,
    needs_line: false,
    help: "FILE",
};

/// The option whose value is one of two words.
pub(crate) const PORT: ArgumentRule = ArgumentRule {
    name: "port",
    form: Form::Once,
    needs_line: false,
    help: "how the clients share the session: with a mutex (locked), the default, or with ring buffers (rings)",
};

const LOG: ArgumentRule = ArgumentRule {
    name: "log",
    form: Form::Once,
    needs_line: false,
    help: "writes the exchanges of discover, or the log of run, to this file, which is replaced",
};

/// Explains a log.
pub(crate) const EXPLAIN: CommandRule = CommandRule {
    name: "explain",
    arguments: &[EXPLAINED, PRESENT, RIG, JSON],
    forms: &["LOG [--present UID].. [--rig FILE] [--json]"],
    help: "which devices broke the rules in a log that discover or run wrote",
    explained: &[PRESENT, RIG, JSON],
};

const EXPLAINED: ArgumentRule = ArgumentRule {
    name: "log",
    form: Form::Needed,
    needs_line: false,
    help: "LOG",
};

const PRESENT: ArgumentRule = ArgumentRule {
    name: "present",
    form: Form::Repeated,
    needs_line: false,
    help: "a device that was on the line, beside those that were found; may be given often",
};

const RIG: ArgumentRule = ArgumentRule {
    name: "rig",
    form: Form::Once,
    needs_line: false,
    help: "a scene file with devices that were on the line",
};

const JSON: ArgumentRule = ArgumentRule {
    name: "json",
    form: Form::Flag,
    needs_line: false,
    help: "prints the findings as one JSON document",
};

impl ArgumentRule {
    /// Whether it is given by a name.
    pub fn is_option(&self) -> bool {
        !matches!(self.form, Form::Needed | Form::Optional)
    }

    /// Whether it may be given any number of times.
    pub fn is_repeatable(&self) -> bool {
        matches!(self.form, Form::Repeated)
    }

    /// Whether a value belongs to it.
    pub fn takes_value(&self) -> bool {
        !matches!(self.form, Form::Flag)
    }
}

impl CommandRule {
    /// Its option with this name.
    pub fn option(&self, name: &str) -> Option<&'static ArgumentRule> {
        self.arguments
            .iter()
            .find(|argument| argument.is_option() && argument.name == name)
    }

    /// Its argument without a name, if it has one. With `--line` none may be left out.
    pub fn value(&self, has_line: bool) -> Option<&'static ArgumentRule> {
        match self.arguments.first() {
            Some(argument) if matches!(argument.form, Form::Needed) => Some(argument),
            Some(argument) if matches!(argument.form, Form::Optional) && !has_line => Some(
                argument,
            ),
            _ => None,
        }
    }
}
