ghost use Rattle.std.specs.Prelude.{◌≡◌};
ghost use Rattle.pam_base.specs.White.{is_white};

/// Whether the byte is white space of a configuration (`pam.conf(5)`): a space, a tab or a carriage return.
pub fn is_white(byte: u8) -> bool
    ensures { result ≡ is_white byte }
{
    byte == b' ' || byte == b'\t' || byte == b'\r'
}
