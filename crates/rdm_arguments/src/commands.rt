//! The commands of the table, for `clap`.
ghost use Rattle.std.specs.Prelude.{◌≡◌, [], IfOk, false, map};
ghost use Rattle.clap.specs.Words.{app_of, rule_of, with_rule};
ghost use Rattle.clap.specs.declared.builder.command.Command.TheViews.{out-Command as fields_of};
ghost use Rattle.rdm_arguments.specs.Arguments.{commands, command_with, program, rule_for};

use crate::table::{ArgumentRule, COMMANDS, CommandRule, Form};
use clap::{Arg, ArgAction, Command};
use std::alloc::{AllocError, Global};

/// The program with its commands.
pub(crate) fn commands<'a>(alloc: Global) -> Result<Command<'a>, AllocError>
    ensures { IfOk result (λ c. app_of c ≡ commands) }
{
    let mut parser = program(alloc);
    'commands: for rule in COMMANDS {
        let command = command_of(alloc, rule)?;
        parser = parser.subcommand(command)?;
    }
    Ok(parser)
}

// The program without its commands.
fn program<'a>(alloc: Global) -> Command<'a>
    ensures { app_of result ≡ program }
{
    Command::new(alloc, "wurstlinen")
        .no_binary_name(true)
        .subcommand_required(true)
        .disable_help_flag(true)
        .disable_help_subcommand(true)
}

// A command of the table.
fn command_of<'a>(alloc: Global, rule: &CommandRule) -> Result<Command<'a>, AllocError>
    ensures app { IfOk result (λ r. app_of r ≡ record {
      top = command_with rule.now.name.now
          (map (λ (a : ArgumentRule). rule_for a.form a.name.now) rule.now.arguments.now);
      subs = [];
    }) }
    ensures local { IfOk result (λ r. (fields_of r).has_globals ≡ false) }
{
    let mut command = Command::new(alloc, rule.name).disable_help_flag(true);
    'arguments: for argument in rule.arguments {
        command = with_argument(command, argument.arg(alloc))?;
    }
    Ok(command)
}

// A command with one more argument.
fn with_argument<'a>(command: Command<'a>, argument: Arg<'a>) -> Result<Command<'a>, AllocError>
    requires local { (fields_of command).has_globals ≡ false }
    requires own { argument.global ≡ false }
    ensures app { IfOk result (λ r. app_of r ≡ with_rule (app_of command.entry) (rule_of argument.entry)) }
    ensures local { IfOk result (λ r. (fields_of r).has_globals ≡ false) }
{
    command.arg(argument)
}

impl ArgumentRule {
    // The same argument, for `clap`.
    fn arg<'a>(&self, alloc: Global) -> Arg<'a>
        ensures rule { rule_of result ≡ rule_for self.now.form self.now.name.now }
        ensures own { result.global ≡ false }
    {
        let arg = Arg::new(alloc, self.name);
        match self.form {
            Form::Needed => arg.required(true),
            Form::Optional => arg,
            Form::Flag => arg.long(self.name).action(ArgAction::SetTrue),
            Form::Once => arg.long(self.name),
            Form::Repeated => arg.long(self.name).action(ArgAction::Append),
        }
    }
}
