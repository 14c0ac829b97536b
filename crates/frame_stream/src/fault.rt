/// Why a frame is refused.
#[derive(Clone, Copy, Debug, PartialEq, Eq)]
pub enum FrameFault {
    /// The bytes aren't the frame of a call, or the input ends inside it.
    BadFrame,
    /// It comes after 65,536 others.
    TooManyFrames,
}
