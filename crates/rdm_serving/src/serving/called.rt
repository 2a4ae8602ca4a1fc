//! Compares the calls of a session file with those that the session's log accepted.
ghost use Rattle.std.specs.Prelude.{◌≡◌, map, filter_map};
ghost use Rattle.std.specs.Bool.{OnTrue};
ghost use Rattle.rdm_log.specs.log.Entries.{join_of};
ghost use Rattle.rdm_serving.specs.LoggedCalls.{AllCalled, HasCalls, call_logged, calls_logged};
ghost use Rattle.rdm_files.specs.declared.session.client.ClientFile.{ClientFile as ClientState};

use rdm_files::{ClientCall, ClientFile};
use rdm_log::Entry;

/// Whether the log has exactly these clients, with their queue depths, and for each client exactly its calls, in order:
/// each request as a whole, and each discovery with its kind.
pub(crate) fn has_calls(entries: &[Entry], clients: &[ClientFile]) -> bool
    ensures { OnTrue result (HasCalls entries.now clients.now) }
{
    have_joined(entries, clients) && all_called(entries, clients)
}

// Whether these clients have joined, with their queue depths, and no others.
fn have_joined(entries: &[Entry], clients: &[ClientFile]) -> bool
    ensures { OnTrue result (filter_map join_of entries.now ≡ map (λ (c : ClientState). c.places) clients.now) }
{
    let mut left = clients;
    'entries: for entry in entries {
        let Entry::Join { places, .. } = entry else {
            continue;
        };
        let Some((client, later)) = left.split_first() else {
            return false;
        };
        if client.places != *places {
            return false;
        }
        left = later;
    }
    left.is_empty()
}

fn all_called(entries: &[Entry], clients: &[ClientFile]) -> bool
    ensures { OnTrue result (AllCalled entries.now 0 clients.now) }
{
    'clients: for client in 0..clients.len() {
        if !is_called(entries, client, &clients[client].calls) {
            return false;
        }
    }
    true
}

// Whether the log has exactly these calls of a client, in order.
fn is_called(entries: &[Entry], client: usize, calls: &[ClientCall]) -> bool
    ensures { OnTrue result (calls_logged client entries.now ≡ calls.now) }
{
    let mut left = calls;
    'entries: for entry in entries {
        let Some(logged) = call_logged(client, entry) else {
            continue;
        };
        let Some((call, later)) = left.split_first() else {
            return false;
        };
        if !is_same(&logged, call) {
            return false;
        }
        left = later;
    }
    left.is_empty()
}

// The call of this client that an entry accepts, if it accepts one.
fn call_logged(client: usize, entry: &Entry) -> Option<ClientCall>
    ensures { result ≡ call_logged client entry.now }
{
    match entry {
        Entry::Accept {
            client: caller,
            request,
            ..
        } if client == usize::from(caller.0) => Some(ClientCall::Submit(request.copied())),
        Entry::Ask {
            client: caller,
            kind,
            ..
        } if client == usize::from(caller.0) => Some(ClientCall::Discover(*kind)),
        _ => None,
    }
}

// Whether two calls are the same.
fn is_same(one: &ClientCall, other: &ClientCall) -> bool
    ensures { OnTrue result (one.now ≡ other.now) }
{
    match (one, other) {
        (ClientCall::Submit(one), ClientCall::Submit(other)) => one == other,
        (ClientCall::Discover(one), ClientCall::Discover(other)) => one == other,
        _ => false,
    }
}
