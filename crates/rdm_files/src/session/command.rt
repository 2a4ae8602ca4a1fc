//! Discovery commands, which no client may send.
ghost use Rattle.std.specs.Prelude.{◌≡◌, true, false, OnSome, IfNone};
ghost use Rattle.serde_json.specs.View.{view};
ghost use Rattle.rdm_files.specs.Commands.{has_discovery_command, has_command};

use crate::scene::SceneFault;
use serde_json::Value;

const WHY: &str =
    "clients send no discovery commands; a discovery is asked for by the key discover";

/// The first discovery command among the clients' calls: a call with the key `discovery`, whatever its value, and
/// whatever else is wrong in the file.
pub fn discovery_command(file: &Value) -> Option<SceneFault>
    ensures some { OnSome result (has_discovery_command (view file.now) ≡ true) }
    ensures none { IfNone result (has_discovery_command (view file.now) ≡ false) }
{
    let clients = file.get("clients")?.as_array()?;
    'clients: for i in 0..clients.len() {
        if let Some(fault) = command_of(&clients[i]) {
            return Some(fault.in_item(i).under("clients"));
        }
    }
    None
}

// The first discovery command of a client.
fn command_of(client: &Value) -> Option<SceneFault>
    ensures some { OnSome result (has_command (view client.now) ≡ true) }
    ensures none { IfNone result (has_command (view client.now) ≡ false) }
{
    let calls = client.get("calls")?.as_array()?;
    'calls: for i in 0..calls.len() {
        if calls[i].get("discovery").is_some() {
            let fault = SceneFault::unwanted(WHY).under("discovery");
            return Some(fault.in_item(i).under("calls"));
        }
    }
    None
}
