//! Why a port can't be ended.
use thiserror::Error;

/// Why a port can't be ended; nothing has changed. They are tested in this order.
#[derive(Clone, Copy, Debug, PartialEq, Eq, Error)]
pub enum FinishFault {
    /// 1: the share of a client that joined is missing.
    #[error("a client's share is missing")]
    SharesMissing,
    /// 3, which is tested before 2: the log doesn't store all its entries, so its exchanges can't be compared. It keeps
    /// nothing, or entries were handed out.
    #[error("the log doesn't store all its entries")]
    NotKept,
    /// 2: the log's exchanges aren't those of the record.
    #[error("the log's exchanges aren't those of the record")]
    ExchangesDiffer,
}
