ghost use Rattle.std.specs.Prelude.{◌≡◌, length};
ghost use Rattle.pam_wire.specs.Read.{first_frame_by, first_frame_of};

/// The minimum and maximum number of bytes after a length.
const MIN_BODY: usize = 2;

const MAX_BODY: usize = 580;

/// The number of bytes of a length.
pub(crate) const LENGTH: usize = 2;

/// What some bytes begin with.
#[derive(Clone, Copy, Debug, PartialEq, Eq)]
pub enum FirstFrame {
    /// Nothing, or the beginning of a frame.
    Open,
    /// A length that no frame has.
    OutOfRange,
    /// A frame of n bytes, its length included. It may not be a call.
    Whole(usize),
}

/// What some bytes begin with, judged by the length alone.
pub fn first_frame_of(bytes: &[u8]) -> FirstFrame
    ensures { result ≡ first_frame_of bytes.now }
{
    match bytes {
        [] => FirstFrame::Open,
        [high] => {
            if *high > 2 {
                FirstFrame::OutOfRange
            } else {
                FirstFrame::Open
            }
        }
        [high, low, more @ ..] => {
            first_frame_by(usize::from(u16::from_be_bytes([*high, *low])), more.len())
        }
    }
}

fn first_frame_by(said: usize, follow: usize) -> FirstFrame
    ensures { result ≡ first_frame_by said follow }
{
    if said < MIN_BODY || MAX_BODY < said {
        FirstFrame::OutOfRange
    } else if said <= follow {
        FirstFrame::Whole(said + LENGTH)
    } else {
        FirstFrame::Open
    }
}
