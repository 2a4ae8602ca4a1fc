//! A session file as a whole.
ghost use Rattle.serde_json.specs.View.{view};
ghost use Rattle.rdm_files.specs.Forms.{Reads};
ghost use Rattle.rdm_files.specs.SceneFiles.{IsSceneFile};
ghost use Rattle.rdm_files.specs.SessionFiles.{IsSessionFile, IsSessionLine};

use crate::scene::{
    BUDGET, Form, Keyed, ListOf, OwnUid, SceneFault, SceneFile, UnknownKey, Whole, optional,
    read_scene, required, unknown_in_list, unknown_in_scene, unknown_of, unknown_under,
};
use crate::session::client::{ClientFile, ClientForm};
use rdm_agent::{DEFAULT_BUDGET, Search};
use rdm_line::Scene;
use rdm_log::MOST_CLIENTS;
use rdm_wire::Uid;
use serde_json::Value;
use std::alloc::Global;

/// The contents of a session file.
#[derive(Drop)]
pub struct SessionFile {
    /// The line to be simulated; none if the line is the caller's own.
    pub scene: Option<Scene>,
    /// The controller's UID, which isn't broadcast. With a scene, that of its file.
    pub source: Uid,
    /// How many frames a discovery run may send: 1 to 1,000,000,000. With a scene, that of its file.
    pub budget: u64,
    /// The clients: 1 to 16.
    pub clients: Vec<ClientFile>,
    /// How many slots each ring has: 1 to 255.
    pub ring: u8,
    /// How discoveries search.
    pub search: Search,
    /// The log's free entries: 0 to 1,000,000.
    pub log: u64,
    /// How many turns the worker and each client may make: 1 to 1,000,000,000.
    pub turns: u64,
}

const KEYS: &[&str] = &["scene", "clients", "ring", "search", "log", "turns"];

const OWN_LINE_KEYS: &[&str] = &[
    "source", "budget", "clients", "ring", "search", "log", "turns",
];

const NO_SCENE: &str = "with --line a session file has the key source and no scene";

const CLIENTS: ListOf<ClientForm> = ListOf {
    form: ClientForm,
    least: 1,
    most: MOST_CLIENTS,
    expected: "a list of 1 to 16 clients",
};

const RING: Whole = Whole {
    least: 1,
    most: 255,
    expected: "a whole number from 1 to 255",
};

const LOG: Whole = Whole {
    least: 0,
    most: 1_000_000,
    expected: "a whole number from 0 to 1000000",
};

const TURNS: Whole = Whole {
    least: 1,
    most: 1_000_000_000,
    expected: "a whole number from 1 to 1000000000",
};

/// Reads a session file. `own_line` says that the line is the caller's own. Then the file has the keys `source` and
/// `budget`, and must not have `scene`. Otherwise these two are unknown keys. An error is such a scene, or the first
/// mismatch in the order of the keys `scene`, `source`, `budget`, `clients`, `ring`, `search`, `log`, `turns`, or
/// NoMemory if an allocation failed before it.
pub fn read_session(alloc: Global, value: &Value, own_line: bool) -> Result<SessionFile, SceneFault>
    ensures { Reads result (IsSessionFile own_line (view value.now)) }
{
    let (scene, source, budget) = read_line(alloc, value, own_line)?;
    let clients = required(alloc, value, "clients", &CLIENTS)?;
    let ring = optional(alloc, value, "ring", &RING, 8)?;
    let search = optional(alloc, value, "search", &SearchForm, Search::Steady)?;
    let log = optional(alloc, value, "log", &LOG, 10_000)?;
    let turns = optional(alloc, value, "turns", &TURNS, 100_000_000)?;
    Ok(SessionFile {
        scene,
        source,
        budget,
        clients: clients.into_vec(),
        ring: ring as u8,
        search,
        log,
        turns,
    })
}

// The line of a session: its scene if the line is simulated, the controller's UID, and the budget of a run.
fn read_line(
    alloc: Global,
    value: &Value,
    own_line: bool,
) -> Result<(Option<Scene>, Uid, u64), SceneFault>
    ensures { Reads result (λ line. IsSessionLine own_line (view value.now) line.0 line.1 line.2) }
{
    if !own_line {
        let SceneFile { scene, budget, .. } = required(alloc, value, "scene", &SceneForm)?;
        let source = scene.source;
        return Ok((Some(scene), source, budget));
    }
    if value.get("scene").is_some() {
        return Err(SceneFault::unwanted(NO_SCENE).under("scene"));
    }
    let source = required(alloc, value, "source", &OwnUid)?;
    let budget = optional(alloc, value, "budget", &BUDGET, DEFAULT_BUDGET)?;
    Ok((None, source, budget))
}

/// The first unknown key of a session that [`read_session`] read with the same `own_line`, if any: one of the session,
/// else one in the scene, else one in a client.
pub fn unknown_in_session(value: &Value, own_line: bool) -> Option<UnknownKey> {
    if let Some(unknown) = unknown_of(value, if own_line { OWN_LINE_KEYS } else { KEYS }) {
        return Some(unknown);
    }
    match unknown_under(value, "scene", &SceneForm) {
        Some(unknown) => Some(unknown),
        None => unknown_in_list(value, "clients", &ClientForm),
    }
}

// A scene.
#[derive(Clone, Copy, Drop)]
struct SceneForm;

impl Form for SceneForm {
    type Out = SceneFile;

    ghost says = { λ _. IsSceneFile };

    fn expected(&self) -> &'static str {
        "a scene, as a scene file has it"
    }

    fn read(&self, alloc: Global, value: &Value) -> Result<SceneFile, SceneFault> {
        read_scene(alloc, value)
    }
}

impl Keyed for SceneForm {
    fn unknown(&self, value: &Value) -> Option<UnknownKey> {
        unknown_in_scene(value)
    }
}

const EXPECTED_SEARCH: &str = "\"steady\" or \"quick\"";

// A search.
#[derive(Clone, Copy, Drop)]
struct SearchForm;

impl Form for SearchForm {
    type Out = Search;

    ghost use Rattle.rdm_files.specs.SessionFiles.{IsSearch};

    ghost says = { λ _. IsSearch };

    fn expected(&self) -> &'static str {
        EXPECTED_SEARCH
    }

    fn read(&self, _alloc: Global, value: &Value) -> Result<Search, SceneFault> {
        match value.as_str() {
            Some("steady") => Ok(Search::Steady),
            Some("quick") => Ok(Search::Quick),
            _ => Err(SceneFault::at(value, EXPECTED_SEARCH)),
        }
    }
}
