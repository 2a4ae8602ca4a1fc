//! Laws of bytes, each the contract of a function that does nothing. The definitions are in `specs`.
ghost use Rattle.std.specs.Prelude.{◌≡◌, ◌≢◌, ◌↔◌, ℕ, true, false, List, [], ◌∷◌, Some, Ok, ◌++◌, length, replicate};
ghost use Rattle.hex.specs.Hex.{IsBytes};
ghost use Rattle.rdm_wire.specs.BranchText.{BranchText};
ghost use Rattle.rdm_wire.specs.Reading.{text_read, ack_read};
ghost use Rattle.rdm_wire.specs.declared.response.Response.{Response};
ghost use Rattle.rdm_wire.specs.Frames.{asked_in};
ghost use Rattle.rdm_wire.specs.Commands.{FitsFrame, command_frame, Writes, command_read, AsksSo, asked_by_command};
ghost use Rattle.rdm_wire.specs.declared.command.Command.{Command};
ghost use Rattle.rdm_wire.specs.declared.mute_ack.MuteAck.{MuteAck};
ghost use Rattle.rdm_wire.specs.Uid.{has, IsDeviceSet};
ghost use Rattle.rdm_wire.specs.Honest.{Seen, HonestTrace, HonestTo};
ghost use Rattle.rdm_wire.specs.HonestOver.{HonestOver};
ghost use Rattle.rdm_wire.specs.Noisy.{NoisyTrace, NoisyTo, NoisyTraceWith};
ghost use Rattle.rdm_wire.specs.Honest.Heard.{Failed, One, Acked, Noise};
ghost use Rattle.rdm_wire.specs.SampleLines.{first_device, one_there, two_there, asked_all};
ghost use Rattle.rdm_wire.specs.SampleLines.{asked_mute, asked_alone, noisy_exchanges};
ghost use Rattle.rdm_wire.specs.Honest.Asked.{Unmute, Branch, Mute, Other};
ghost use Rattle.rdm_wire.specs.Packet.{Fields, FieldsFit, fields_at, packet};
ghost use Rattle.rdm_wire.specs.CommandFrames.{unmute_frame, branch_frame, mute_frame};
ghost use Rattle.rdm_wire.specs.Responses.{Reads, decoded};
ghost use Rattle.rdm_wire.specs.MuteAcks.{MuteAcked, ack_data};
ghost use Rattle.rdm_wire.specs.SampleFrames.{frame_with_wrong_sum};

use crate::branch::{LONGEST_BRANCH_REPLY, LONGEST_PREAMBLE};
use crate::frame::{MOST_FRAME_BYTES, MOST_PARAMETER_BYTES};
use crate::request::QUEUED_MESSAGE;
use crate::uid_set::MOST_DEVICES;

/// The constants of this crate that other crates depend on.
pub fn limits_are()
    ensures devices { MOST_DEVICES ≡ 1024 }
    ensures frame { MOST_FRAME_BYTES ≡ 257 }
    ensures parameter { MOST_PARAMETER_BYTES ≡ 231 }
    ensures branch_reply { LONGEST_BRANCH_REPLY ≡ 24 }
    ensures preamble { LONGEST_PREAMBLE ≡ 7 }
    ensures queued_message { QUEUED_MESSAGE ≡ 0x0020 }
{}

/// The bytes are read as the UID whose text they are, so no bytes are the text of two UIDs.
pub fn one_text()
    ensures read { (b : List ℕ) (u : ℕ) → BranchText b u → text_read b ≡ Some u }
    ensures text { (b : List ℕ) (u : ℕ) → text_read b ≡ Some u → BranchText b u }
    ensures two { (b : List ℕ) (u v : ℕ) → BranchText b u → BranchText b v → u ≡ v }
{}

/// Bytes decode to a response if and only if they begin with its packet, and an acknowledgement is read with its data.
pub fn responses_decode()
    ensures decode { (r : Response) (b : List ℕ) → Reads r b → decoded b ≡ Ok r }
    ensures reads { (r : Response) (b : List ℕ) → IsBytes b → decoded b ≡ Ok r → Reads r b }
    ensures ack { (u s n : ℕ) (b : List ℕ) (a : MuteAcked u s n b)
        → ack_read u s n b ≡ Some (ack_data a.response.param.items) }
{}

/// A packet determines its fields, which are at the table's offsets; no packet begins with another.
pub fn packets_determine_fields()
    ensures fields { (f : Fields) → FieldsFit f → fields_at (packet f) ≡ f }
    ensures one { (f g : Fields) (rest more : List ℕ) → FieldsFit f → FieldsFit g
        → packet f ++ rest ≡ packet g ++ more → f ≡ g }
{}

/// What one of the four encoders writes, none writes with other arguments.
pub fn frames_determine_commands()
    ensures { (c d : Command) (s m t n : ℕ) → FitsFrame c s m → FitsFrame d t n
        → command_frame c s m ≡ command_frame d t n → (c ≡ d) × (s ≡ t) × (m ≡ n) }
{}

/// A frame asks what it was written for, and a frame with a wrong checksum asks nothing of the devices.
pub fn what_frames_ask()
    ensures written { (command : Command) (s tn : ℕ) (b : List ℕ) →
        Writes command s tn b → asked_in b ≡ asked_by_command command }
    ensures unmute { asked_in (unmute_frame 0x7a7000000100 255) ≡ Unmute }
    ensures branch { asked_in (branch_frame 5 0x1234ffffffff 0x7a7000000100 3) ≡ Branch 5 0x1234ffffffff }
    ensures mute { asked_in (mute_frame 0x123400000001 0x7a7000000100 4) ≡ Mute 0x123400000001 }
    ensures wrong_sum { asked_in frame_with_wrong_sum ≡ Other }
{}

/// What an encoder writes is read as its command. A frame asks of the devices what the command asks that it is read
/// as, and bytes that are no command ask nothing of any device.
pub fn commands_read_back()
    ensures read { (command : Command) (s tn : ℕ) (b : List ℕ) →
        Writes command s tn b → command_read b ≡ Some (command, s, tn) }
    ensures writes { (command : Command) (s tn : ℕ) (b : List ℕ) → IsBytes b →
        command_read b ≡ Some (command, s, tn) → Writes command s tn b }
    ensures asks { (b : List ℕ) → IsBytes b → AsksSo (command_read b) (asked_in b) }
{}

/// If the same devices are present at each exchange, the honest line whose devices come and leave is the honest line
/// with these devices.
pub fn one_set_is_a_case()
    ensures { (present : List ℕ) (x : List Seen) → IsDeviceSet present
        → HonestTrace present x ↔ HonestOver (replicate (length x) present) x }
{}

/// A line may be honest if a device comes during the run, and also if one leaves. It isn't honest if a device comes
/// back.
pub fn devices_come_and_leave()
    ensures comes { HonestOver (one_there ∷ two_there ∷ []) (asked_all (One first_device) ∷ asked_all Noise ∷ []) }
    ensures leaves { HonestOver (two_there ∷ one_there ∷ []) (asked_all Noise ∷ asked_all (One first_device) ∷ []) }
    ensures comes_back { (a b c : Seen) → a.heard ≢ Failed → b.heard ≢ Failed
        → HonestOver (two_there ∷ one_there ∷ two_there ∷ []) (a ∷ b ∷ c ∷ []) → ⊥ }
{}

/// A line is honest if and only if it is a noisy one of which no exchange was disturbed. A device that follows the
/// rules of an honest line also follows those of a noisy one.
pub fn honest_lines_are_noisy()
    ensures undisturbed { (present : List ℕ) (x : List Seen) → HonestTrace present x ↔ NoisyTraceWith present 0 x }
    ensures each { (u : ℕ) (x : List Seen) → HonestTo u x → NoisyTo u x }
{}

/// On a noisy line each of its devices follows the rules.
pub fn noisy_devices_follow_rules()
    ensures { (present : List ℕ) (u : ℕ) (x : List Seen) → has present u ≡ true → NoisyTrace present x → NoisyTo u x }
{}

/// Noise may damage replies and acknowledgements, make a UID's text of a reply, and bring bytes from nobody. It never
/// makes the acknowledgement of an absent UID, nor that UID's text if it alone was asked.
pub fn what_noise_does()
    ensures noisy { NoisyTraceWith one_there 5 noisy_exchanges }
    ensures dishonest { HonestTrace one_there noisy_exchanges → ⊥ }
    ensures unacked { (present : List ℕ) (u : ℕ) (ack : MuteAck) → has present u ≡ false
        → NoisyTrace present (asked_mute u (Acked ack) ∷ []) → ⊥ }
    ensures no_text { (present : List ℕ) (u : ℕ) → has present u ≡ false
        → NoisyTrace present (asked_alone u (One u) ∷ []) → ⊥ }
{}
