//! How a request ended.
ghost use Rattle.std.specs.Prelude.{◌≡◌};
ghost use Rattle.rdm_join.specs.Statuses.{number_of_status, status_of_fault};

use rdm_wire::PacketFault;

/// How a request ended, with its number.
#[derive(Clone, Copy, Debug, PartialEq, Eq)]
pub enum Status {
    /// 0: the device answered.
    Completed,
    /// 1: the request was broadcast, so no device answers it.
    WasBroadcast,
    /// 2: the line failed, or the controller was closed.
    FailedToSend,
    /// 3: no bytes came.
    Timeout,
    /// 4: a response that doesn't answer the request, or that doesn't join with the parts before it.
    InvalidResponse,
    /// 5: fewer bytes than a packet has.
    TooShort,
    /// 6: another start code.
    WrongStart,
    /// 7: another sub start code.
    WrongSubStart,
    /// 8: a message length that doesn't fit the bytes.
    LengthMismatch,
    /// 9: a parameter data length that doesn't fit the message length.
    ParamLengthMismatch,
    /// 10: a checksum that isn't the bytes' sum.
    Checksum,
    /// 11: a command class that isn't a response's.
    InvalidClass,
    /// 12: a response type that doesn't exist.
    InvalidResponseType,
    /// 13: another transaction number than the request's.
    TransactionMismatch,
    /// 14: another sub-device than the request's.
    SubDeviceMismatch,
    /// 15: a response from another device.
    SourceMismatch,
    /// 16: a response to another controller.
    DestMismatch,
    /// 17: a command class that doesn't answer the request's.
    ClassMismatch,
    /// 18: no memory for the joined data.
    NoMemory,
}

impl Status {
    /// Its number, 0 to 18.
    pub fn number(self) -> u8
        ensures { result ≡ number_of_status self }
    {
        match self {
            Status::Completed => 0,
            Status::WasBroadcast => 1,
            Status::FailedToSend => 2,
            Status::Timeout => 3,
            Status::InvalidResponse => 4,
            Status::TooShort => 5,
            Status::WrongStart => 6,
            Status::WrongSubStart => 7,
            Status::LengthMismatch => 8,
            Status::ParamLengthMismatch => 9,
            Status::Checksum => 10,
            Status::InvalidClass => 11,
            Status::InvalidResponseType => 12,
            Status::TransactionMismatch => 13,
            Status::SubDeviceMismatch => 14,
            Status::SourceMismatch => 15,
            Status::DestMismatch => 16,
            Status::ClassMismatch => 17,
            Status::NoMemory => 18,
        }
    }

    // The status of bytes that are no response.
    pub(crate) fn of_fault(fault: PacketFault) -> Status
        ensures { result ≡ status_of_fault fault }
    {
        match fault {
            PacketFault::TooShort => Status::TooShort,
            PacketFault::WrongStart => Status::WrongStart,
            PacketFault::WrongSubStart => Status::WrongSubStart,
            PacketFault::LengthMismatch => Status::LengthMismatch,
            PacketFault::ParamLengthMismatch => Status::ParamLengthMismatch,
            PacketFault::Checksum => Status::Checksum,
            PacketFault::InvalidClass => Status::InvalidClass,
            PacketFault::InvalidResponseType => Status::InvalidResponseType,
        }
    }
}
