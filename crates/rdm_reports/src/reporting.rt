//! What is printed for a discovery run.
ghost use Rattle.std.specs.Prelude.{◌≡◌, ◌++◌, ◌∷◌, IfOk, OnOk, flat_map};
ghost use Rattle.rdm_wire.specs.UidText.{uid_text};
ghost use Rattle.rdm_reports.specs.Report.{report_text, found_text, fault_text, device_line, details, four_digits};
ghost use Rattle.rdm_reports.specs.Report.{line_of};

use crate::discovery::Discovery;
use itoa::Buffer;
use rdm_agent::AgentFault;
use rdm_wire::{Device, DeviceSet, Uid};
use std::alloc::{AllocError, Global};

/// The lines of a report: each device, ascending by UID, or the fault; and the count of frames. Err: there was no
/// memory.
pub fn report(alloc: Global, discovery: &Discovery) -> Result<Vec<u8>, AllocError>
    ensures { IfOk result (λ text. text.items ≡ report_text discovery.now.found discovery.now.frames) }
{
    let mut text = Vec::new(alloc);
    match &discovery.found {
        Ok(devices) => write_devices(&mut text, devices.as_slice())?,
        Err((fault, _)) => write_fault(&mut text, *fault)?,
    }
    text.extend_from_slice(b"frames ")?;
    text.extend_from_slice(Buffer::new().format(discovery.frames).as_bytes())?;
    text.push(b'\n')?;
    Ok(text)
}

/// The lines of these devices in a report, ascending by UID. Err: there was no memory.
pub fn device_lines(alloc: Global, devices: &DeviceSet) -> Result<Vec<u8>, AllocError>
    ensures { IfOk result (λ text. text.items ≡ flat_map device_line devices.now) }
{
    let mut text = Vec::new(alloc);
    write_devices(&mut text, devices.as_slice())?;
    Ok(text)
}

fn write_devices(text: &mut Vec<u8>, devices: &[Device]) -> Result<(), AllocError>
    ensures { OnOk result (text.new.items ≡ text.old.items ++ flat_map device_line devices.now) }
{
    'devices: for device in devices {
        write_device(text, device)?;
    }
    Ok(())
}

fn write_device(text: &mut Vec<u8>, device: &Device) -> Result<(), AllocError>
    ensures { OnOk result (text.new.items ≡ text.old.items ++ device_line device.now) }
{
    write_uid(text, device.uid)?;
    write_details(text, device.control, device.binding)?;
    text.push(b'\n')?;
    Ok(())
}

// A device's control field and binding UID, unless the field is 0 and there is no binding UID.
fn write_details(text: &mut Vec<u8>, control: u16, binding: Option<Uid>) -> Result<(), AllocError>
    ensures { OnOk result (text.new.items ≡ text.old.items ++ details control binding) }
{
    match binding {
        None if control == 0 => Ok(()),
        None => write_control(text, control),
        Some(binding) => {
            write_control(text, control)?;
            text.push(b' ')?;
            write_uid(text, binding)
        }
    }
}

// A blank and the control field.
fn write_control(text: &mut Vec<u8>, control: u16) -> Result<(), AllocError>
    ensures { OnOk result (text.new.items ≡ text.old.items ++ (32 ∷ four_digits control)) }
{
    let mut digits = [0; 4];
    hex::encode_to_slice(control.to_be_bytes(), &mut digits).unwrap();
    text.push(b' ')?;
    text.extend_from_slice(&digits)
}

pub(crate) fn write_uid(text: &mut Vec<u8>, uid: Uid) -> Result<(), AllocError>
    ensures { OnOk result (text.new.items ≡ text.old.items ++ uid_text uid) }
{
    text.extend_from_slice(&uid.to_text())
}

pub(crate) fn write_fault(text: &mut Vec<u8>, fault: AgentFault) -> Result<(), AllocError>
    ensures { OnOk result (text.new.items ≡ text.old.items ++ line_of (fault_text fault)) }
{
    match fault {
        AgentFault::Corrupt(uid) => {
            text.extend_from_slice(b"fault 1 ")?;
            write_uid(text, uid)?;
        }
        AgentFault::TooMany => text.extend_from_slice(b"fault 2")?,
        AgentFault::Exhausted => text.extend_from_slice(b"fault 3")?,
        AgentFault::LineFailed => text.extend_from_slice(b"fault 4")?,
        AgentFault::Aborted => text.extend_from_slice(b"fault 5")?,
    }
    text.push(b'\n')?;
    Ok(())
}
