ghost use Rattle.record_reader.specs.FirstItem.{IsFirstItem};
ghost use Rattle.frame_stream.specs.Looked.{looked, refuses};

use crate::limit::MAX_FRAMES;
use pam_wire::{FirstFrame, first_frame_of, laws};
use record_reader::FirstItem;

/// What bytes begin with after n frames: a frame, which may not be a call; nothing yet; or a length
/// that no frame has, or the first byte of one frame too many.
pub fn first_frame(before: u32, held: &[u8]) -> FirstItem
    ensures { IsFirstItem looked refuses result before held.now }
{
    laws::first_frame_settles();
    if held.is_empty() {
        return FirstItem::Wait;
    }
    if before >= MAX_FRAMES {
        return FirstItem::Last;
    }
    match first_frame_of(held) {
        FirstFrame::Open => FirstItem::Wait,
        FirstFrame::OutOfRange => FirstItem::Last,
        FirstFrame::Whole(size) => FirstItem::Item { length: size, size },
    }
}
