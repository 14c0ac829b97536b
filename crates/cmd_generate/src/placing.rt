ghost use Rattle.std.specs.Prelude.{◌≡◌, ◌∷◌, [], IfOk, IsTrue};
ghost use Rattle.cmd_run.specs.pam_handle.specs.Plain.{in_box};
ghost use Rattle.cmd_generate.specs.Placing.{Places, path_of_service, with_vault};

use cmd_run::pam_room::{World, WorldTold};
use pam_base::{FaultKind, NoMemory, Refuse, Text};
use pam_outside::{ReplaceFault, Vault, replace_file};
use random_config::RandomFile;
use service_load::LoadFault;
use std::alloc::Global;

/// Stores service files in a world, in order, up to the first that can't be stored.
pub(crate) fn place_in_world(
    alloc: Global,
    files: &[RandomFile],
    world: &mut World,
) -> Result<(), Refuse<LoadFault>>
    ensures tells { let told = ⟦<World as WorldTold>⟧ in told.tells world.new ≡ told.tells world.old }
    ensures told { IsTrue (vault_tells (in_box world.old.vault)) →
        Places result files.now (vault_holds (in_box world.old.vault))
        (vault_holds (in_box world.new.vault)) }
    ensures rest { let plain = ⟦<World as WorldTold>⟧.plain in plain world.new
        ≡ with_vault (vault_holds (in_box world.new.vault)) (plain world.old) }
    ensures process { world.new.process ≡ world.old.process }
{
    place_files(alloc, files, &mut *world.vault)
}

// Stores them.
fn place_files(
    alloc: Global,
    files: &[RandomFile],
    vault: &mut dyn Vault,
) -> Result<(), Refuse<LoadFault>>
    ensures tells { vault_tells vault.new ≡ vault_tells vault.old }
    ensures told { IsTrue (vault_tells vault.old) →
        Places result files.now (vault_holds vault.old) (vault_holds vault.new) }
{
    for file in files {
        match place_file(alloc, file, vault) {
            Ok(()) => {}
            Err(refuse) => return Err(refuse),
        }
    }
    Ok(())
}

fn place_file(
    alloc: Global,
    file: &RandomFile,
    vault: &mut dyn Vault,
) -> Result<(), Refuse<LoadFault>>
    ensures tells { vault_tells vault.new ≡ vault_tells vault.old }
    ensures told { IsTrue (vault_tells vault.old) →
        Places result (file.now ∷ []) (vault_holds vault.old) (vault_holds vault.new) }
{
    let path = path_of(alloc, file.name.bytes())?;
    match replace_file(vault, alloc, path.bytes(), file.text.bytes()) {
        Ok(()) => Ok(()),
        Err(ReplaceFault::NoMemory) => Err(Refuse::NoMemory),
        Err(ReplaceFault::Failed) => Err(Refuse::Named(LoadFault {
            file: path,
            line: 0,
            kind: FaultKind::ReadFailed,
        })),
    }
}

// The path of a service file of this name.
fn path_of(alloc: Global, name: &[u8]) -> Result<Text, NoMemory>
    ensures { IfOk result (λ path. path ≡ path_of_service name.now) }
{
    let mut path = Vec::from_slice(alloc, b"/etc/pam.d/")?;
    path.extend_from_slice(name)?;
    Ok(Text::from_vec(path))
}
