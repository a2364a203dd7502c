//! Why a line gives no command.

/// Why a line gives no command.
#[derive(Debug, Drop)]
pub enum LineFault {
    /// F8: the line stands for no command.
    NotACommand,
    /// The allocation of the command failed.
    Memory,
}
