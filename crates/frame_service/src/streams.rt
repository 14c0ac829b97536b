ghost use Rattle.std.specs.Prelude.{◌≡◌, [], IfOk};
ghost use Rattle.cmd_all.specs.Command.{command_of};
ghost use Rattle.frame_service.specs.Service.{IsOfFrames, StatusOf};
ghost use Rattle.frame_service.specs.Streams.{ServesStreams};

use crate::conversations::{Conversations, TRANSACTIONS};
use crate::serve::serve_frames;
use cmd_all::{Outside, OutsideTold, TimeOfDay};
use front_conv::{FrontConv, Streams};
use pam_room::World;
use pam_room::conv_port::{Conv, WireConv};
use std::alloc::Global;
use std::io::{self, Read, Stdin, Stdout};
use system_objects::{ReaderSource, WriterSink};

/// Serves a front end at the other end of the standard streams, as `serve_frames` does. All that
/// comes from it comes over the one reader: its calls, and its replies to the exchanges of
/// transaction 1, whose conversation waits for them. All that is written for it goes over the one
/// writer. The other transactions get their replies by calls.
pub fn serve_streams(
    alloc: Global,
    words: &[String],
    front: Streams<Stdin, Stdout>,
    time: Box<dyn TimeOfDay>,
    world: &mut World,
) -> io::Result<u8>
    requires frames { IsOfFrames (command_of words.now) }
    requires no_births { world.old.process.ledger.births ≡ [] }
    requires no_receipts { world.old.process.ledger.filed ≡ [] }
    ensures status { IfOk result (λ status. StatusOf (command_of words.now) status) }
    ensures served { IfOk result (λ status. ServesStreams (command_of words.now) status
        front.reader (⟦<Stdin as Read>⟧.remaining front.reader) front.writer
        (time_gives time) (⟦<Outside as OutsideTold>⟧.around world.old world.new)) }
{
    let mut script = ReaderSource::new(front.reader);
    let mut out = WriterSink::new(front.writer);
    let term: Box<dyn Conv> = Box::new(alloc, WireConv::new(alloc))?;
    let mut convs: Vec<Box<dyn Conv>> = Vec::new(alloc);
    let conv: Box<dyn Conv> = Box::new(alloc, FrontConv::new(alloc, front))?;
    convs.push(conv)?;
    for _ in 1..TRANSACTIONS {
        let conv: Box<dyn Conv> = Box::new(alloc, WireConv::new(alloc))?;
        convs.push(conv)?;
    }
    let talks = Conversations {
        convs,
        term,
        time: Some(time),
    };
    let status = serve_frames(alloc, words, talks, &mut script, &mut out, world)?;
    Ok(status)
}
