//! What a stream of frames can be refused for.

ghost use Rattle.std.specs.Prelude.{◌≡◌};
ghost use Rattle.frame_core.specs.FaultCodes.{code_of};

use thiserror::Error;

/// Why a stream of bytes is no stream of frames. The text begins with the number of the fault.
#[derive(Clone, Copy, Debug, PartialEq, Eq, Error)]
pub enum FrameFault {
    /// A stray NUL or CR, a header line with no name, or no NUL after a body of the announced length.
    #[error("E1 malformed frame")]
    Malformed,
    /// More than 8,192 bytes of command and headers, 64 headers or 65,536 bytes of body.
    #[error("E2 frame too large")]
    TooLarge,
    /// A backslash that begins none of the four escapes (STOMP 1.2, "Value Encoding").
    #[error("E3 undefined escape")]
    UndefinedEscape,
    /// A command line that names none of the commands of STOMP 1.2.
    #[error("E4 unknown command")]
    UnknownCommand,
    /// A body on a frame other than SEND, MESSAGE and ERROR (STOMP 1.2, "Frames and Headers").
    #[error("E19 body not allowed")]
    BodyNotAllowed,
    /// A command, name or value that is not UTF-8, or a `content-length` that is not a number of one to ten digits.
    #[error("E20 bad header value")]
    BadHeaderValue,
}

impl FrameFault {
    /// The number of the fault, as its text has it.
    pub fn code(self) -> u8
        ensures { result ≡ code_of self }
    {
        match self {
            FrameFault::Malformed => 1,
            FrameFault::TooLarge => 2,
            FrameFault::UndefinedEscape => 3,
            FrameFault::UnknownCommand => 4,
            FrameFault::BodyNotAllowed => 19,
            FrameFault::BadHeaderValue => 20,
        }
    }
}
