ghost use Rattle.std.specs.Prelude.{◌≡◌, ◌≤◌, IfOk, None, length};
ghost use Rattle.cmd_all.specs.Command.{command_of};
ghost use Rattle.frame_service.specs.Service.{IsOfFrames, wires_under};

use command_line::arguments;
use pam_base::Text;
use pam_outside::Vault;
use std::alloc::Global;
use std::io;
use system_objects::FolderVault;

/// The caller if the system doesn't say who it is: nobody.
pub const NOBODY: u32 = 65_534;

/// `wire ROOT`.
pub fn wire_words(alloc: Global, root: &str) -> io::Result<Vec<String>>
    ensures command { IfOk result (λ words. command_of words.items ≡ wires_under root.now) }
    ensures frames { IfOk result (λ words. IsOfFrames (command_of words.items)) }
{
    let mut words = Vec::new(alloc);
    words.push(String::from_str(alloc, "wire")?)?;
    words.push(String::from_str(alloc, root)?)?;
    Ok(words)
}

/// No arguments, which are no command.
pub fn no_words(alloc: Global) -> Vec<String>
    ensures command { command_of result.items ≡ None }
    ensures frames { IsOfFrames (command_of result.items) }
{
    Vec::new(alloc)
}

/// The arguments of the command line; one that is empty if one of them isn't UTF-8.
pub fn words_of(rt: &HostRuntime) -> io::Result<Vec<String>> {
    match arguments(rt)? {
        Some(words) => Ok(words),
        None => {
            let mut words = Vec::new(rt.alloc());
            words.push(String::new(rt.alloc()))?;
            Ok(words)
        }
    }
}

/// The text of a file of the system; empty if it can't be read, or has more than `limit` bytes.
pub fn system_text(rt: HostRuntime, path: &str, limit: u32) -> Text
    ensures { length result ≤ limit }
{
    let alloc = rt.alloc();
    match FolderVault::new(rt).read(alloc, path.as_bytes(), limit) {
        Ok(text) => text,
        Err(_) => Text::new(alloc),
    }
}
