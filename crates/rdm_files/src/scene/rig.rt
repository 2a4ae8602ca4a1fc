//! The devices of a scene file: those that are there for the whole scene, and those that come or leave.
ghost use Rattle.std.specs.Prelude.{◌≡◌, IfOk, filter, not};
ghost use Rattle.serde_json.specs.View.{view};
ghost use Rattle.rdm_line.specs.Scenes.{uids_of_scene};
ghost use Rattle.rdm_files.specs.Forms.{Reads};
ghost use Rattle.rdm_files.specs.RigFiles.{IsRigFile, stays};

use crate::scene::device::DEVICES;
use crate::scene::fault::SceneFault;
use crate::scene::file::read_scene;
use crate::scene::form::{Listed, optional};
use rdm_line::SceneDevice;
use rdm_wire::Uid;
use serde_json::Value;
use std::alloc::{AllocError, Global};

/// The UIDs of a scene file's devices, in the order of the file.
#[derive(Drop)]
pub struct RigFile {
    /// Those that are on the line from the start, and never leave.
    pub staying: Vec<Uid>,
    /// Those that come or leave.
    pub passing: Vec<Uid>,
}

/// Reads which devices a scene file has. An error is that of [`read_scene`], or NoMemory.
pub fn read_rig(alloc: Global, value: &Value) -> Result<RigFile, SceneFault>
    ensures { Reads result (IsRigFile (view value.now)) }
{
    let _scene = read_scene(alloc, value)?;
    let listed = optional(alloc, value, "devices", &DEVICES, Listed::new(alloc))?;
    let devices = listed.into_vec();
    let Ok(staying) = staying(alloc, &devices) else {
        return Err(SceneFault::NoMemory);
    };
    let Ok(passing) = passing(alloc, &devices) else {
        return Err(SceneFault::NoMemory);
    };
    Ok(RigFile { staying, passing })
}

// The UIDs of those that stay.
fn staying(alloc: Global, devices: &[SceneDevice]) -> Result<Vec<Uid>, AllocError>
    ensures { IfOk result (λ uids. uids.items ≡ uids_of_scene (filter stays devices.now)) }
{
    let mut uids = Vec::new(alloc);
    'devices: for device in devices {
        if stays(device) {
            uids.push(device.device.uid)?;
        }
    }
    Ok(uids)
}

// The UIDs of those that come or leave.
fn passing(alloc: Global, devices: &[SceneDevice]) -> Result<Vec<Uid>, AllocError>
    ensures { IfOk result (λ uids. uids.items ≡ uids_of_scene (filter (λ d. not (stays d)) devices.now)) }
{
    let mut uids = Vec::new(alloc);
    'devices: for device in devices {
        if !stays(device) {
            uids.push(device.device.uid)?;
        }
    }
    Ok(uids)
}

// Whether a device is on the line from the start, and never leaves.
fn stays(device: &SceneDevice) -> bool
    ensures { result ≡ stays device.now }
{
    device.from == 0 && device.until.is_none()
}
