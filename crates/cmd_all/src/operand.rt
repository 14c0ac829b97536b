ghost use Rattle.std.specs.Prelude.{◌≤◌, IsTrue};
ghost use Rattle.pam_base.specs.ServiceName.{is_service_name};

/// A number of lines to generate from a seed: at most `cmd_generate::random_config::MAX_RANDOM_LINES`.
#[derive(Clone, Copy)]
pub struct GenerateArgs {
    pub seed: u32,
    pub lines: u32,
    ghost few: { lines ≤ 4096 },
}

/// A root, and the name of a service below it.
#[derive(Clone, Copy)]
pub struct Target<'a> {
    pub root: &'a [u8],
    pub service: &'a [u8],
    ghost named: { IsTrue (is_service_name service.now) },
}
