//! How a run ends.

/// How a run ended.
#[derive(Clone, Copy, Drop, Debug, PartialEq, Eq)]
pub enum Status {
    /// The input was read to its end, and every line done.
    Done,
    /// The words are no command line of this program. Nothing was read or written.
    Usage,
    /// The line of this number, from 1, is no command. The lines before it are done.
    BadLine(u32),
    /// The source failed. The lines whose newline came before are done.
    ReadFault,
    /// The sink failed.
    WriteFault,
    /// Memory ran out.
    Memory,
    /// The first byte of line 2^24 + 1 came. The lines before it are done.
    TooMany,
    /// A swap area could not be attached, or for an audit its page 0 could not be read: the device
    /// failed. Nothing was read or written.
    AttachFault,
    /// The reply of this number, from 1, isn't legal, is wanting, or comes after the last command.
    /// Those before it are legal.
    Illegal(u32),
    /// The transcript's byte 2^32 + 1 came. The replies before it that are whole are legal.
    TooLong,
}
