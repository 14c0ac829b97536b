ghost use Rattle.record_reader.specs.FirstItem.{IsFirstItem};
ghost use Rattle.record_reader.specs.Looked.{IsOver, looked};

use crate::limit::limit_of;
use crate::stepping::FirstItem;
use pam_base::first_place;

/// What bytes begin with after n lines: a line, which ends at its newline; nothing yet; or more
/// than a line may have.
pub fn first_line(before: u32, held: &[u8]) -> FirstItem
    ensures { IsFirstItem looked IsOver result before held.now }
{
    match first_place(b'\n', held) {
        Some(n) => FirstItem::Item {
            length: n,
            size: n + 1,
        },
        None => {
            if held.len() > limit_of(before) {
                FirstItem::Last
            } else {
                FirstItem::Wait
            }
        }
    }
}
