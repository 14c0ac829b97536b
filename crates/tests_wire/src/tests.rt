use pam_base::{AppCall, Refuse, Step};
use pam_wire::{BadFrame, Frames, frame_of};
use std::test::Fail;

// The frame of `authenticate 1`, as docs/wire.md has it.
const AUTHENTICATE: &[u8] = b"\x00\x06\x01\x03\x00\x00\x00\x00";

#[test]
fn a_step_is_written_and_read_in_pieces(rt: HostRuntime) -> Result<(), Fail> {
    let alloc = rt.alloc();
    let step = Step {
        number: 1,
        call: AppCall::Authenticate { flags: 0 },
    };
    let frame = frame_of(alloc, &step)?;
    assert_eq!(rt; frame.bytes(), AUTHENTICATE);
    let mut frames = Frames::new(alloc);
    frames.feed(&AUTHENTICATE[..3])?;
    let early = frames.next(alloc);
    assert!(rt; matches!(&early, Ok(None)));
    frames.feed(&AUTHENTICATE[3..])?;
    let read = frames.next(alloc);
    assert!(rt;
        matches!(
            &read,
            Ok(Some(Step {
                number: 1,
                call: AppCall::Authenticate { flags: 0 }
            }))
        )
    );
    frames.feed(b"\xff")?;
    let bad = frames.next(alloc);
    assert!(rt; matches!(&bad, Err(Refuse::Named(BadFrame { place: 8 }))));
    Ok(())
}
