//! Scene files and the two kinds of session files differ by their keys.
ghost use Rattle.std.specs.Prelude.{◌≡◌};
ghost use Rattle.serde_json.specs.View.{view};
ghost use Rattle.rdm_files.specs.FileKinds.{looks_like};

use serde_json::Value;
use std::fmt;

/// What a file is.
#[derive(Clone, Copy, PartialEq, Eq)]
pub enum FileKind {
    /// A scene, which `discover` reads.
    Scene,
    /// A session on a scene, which `run` reads.
    Session,
    /// A session on a line of the caller's own, which `run` reads with `--line`.
    LineSession,
}

/// What a file looks like, judged only by its keys. One with clients is a session. It is on a line of the caller's own
/// if it has a source and no scene. Without clients it is a scene if it has a source and no scene, and a session if it
/// has a scene and no source. None: it has no clients, and it has both a source and a scene or neither.
pub fn looks_like(file: &Value) -> Option<FileKind>
    ensures { result ≡ looks_like (view file.now) }
{
    let has_source = file.get("source").is_some();
    let has_scene = file.get("scene").is_some();
    let has_clients = file.get("clients").is_some();
    match (has_clients, has_source, has_scene) {
        (true, true, false) => Some(FileKind::LineSession),
        (true, true, true) => Some(FileKind::Session),
        (true, false, _) => Some(FileKind::Session),
        (false, true, false) => Some(FileKind::Scene),
        (false, false, true) => Some(FileKind::Session),
        (false, true, true) => None,
        (false, false, false) => None,
    }
}

impl fmt::Display for FileKind {
    fn fmt<W: fmt::Write>(&self, f: &mut fmt::Formatter<W>) -> fmt::Result {
        match self {
            FileKind::Scene => f.write_str("a scene file; try ./wurstlinen discover FILE"),
            FileKind::Session => f.write_str("a session file; try ./wurstlinen run FILE"),
            FileKind::LineSession => f.write_str(
                "a session file without a scene; try ./wurstlinen run FILE --line OUT",
            ),
        }
    }
}
