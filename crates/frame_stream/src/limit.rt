/// The maximum number of frames that are read.
pub const MAX_FRAMES: u32 = 65536;
