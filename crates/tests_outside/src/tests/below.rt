use super::bytes_of;
use super::real::{names_in, new_folder};
use pam_outside::{LockKind, ReplaceFault, Vault, VaultFault};
use std::fs;
use std::os::unix::fs::symlink;
use std::path::PathBuf;
use std::test::Fail;
use system_objects::FolderVault;

/// The limit of the reads.
const LIMIT: u32 = 100;

/// Where links in the tree lead.
const LINKS: [(&str, &str); 3] = [
    ("etc/there", "../run/faillock/"),
    ("etc/turn", "round"),
    ("etc/round", "turn"),
];

// A tree with these links in a directory that has a file `outside` of its own, and the tree's path.
fn tree_in(rt: HostRuntime, folder: &PathBuf) -> Result<PathBuf, Fail> {
    let alloc = rt.alloc();
    let tree = folder.join(alloc, "tree")?;
    for name in ["tree", "tree/etc", "tree/run", "tree/run/faillock"] {
        fs::create_dir(&rt, folder.join(alloc, name)?.as_path())?;
    }
    fs::write(&rt, folder.join(alloc, "outside")?.as_path(), "outside")?;
    for (name, target) in LINKS {
        symlink(&rt, target, tree.join(alloc, name)?.as_path())?;
    }
    Ok(tree)
}

// What tests/cases/files/paths-lead-below-root can't name: the root itself, and a path that isn't below it.
#[test]
fn the_root_is_its_own_parent(rt: HostRuntime) -> Result<(), Fail> {
    let alloc = rt.alloc();
    let folder = new_folder(rt, "below")?;
    let tree = tree_in(rt, &folder)?;
    let tree = tree.as_str();
    let mut vault = FolderVault::below(rt, tree.as_bytes())?;
    for (name, is_directory) in [
        ("", Ok(true)),
        ("/..", Ok(true)),
        ("-more/outside", Err(ReplaceFault::Failed)),
    ] {
        let path = format!(in alloc; "{tree}{name}")?;
        let read = vault.read(alloc, path.as_bytes(), LIMIT);
        assert_eq!(rt; bytes_of(&read), Err(VaultFault::Failed), "at {name}");
        let found = vault.folder(alloc, path.as_bytes());
        assert_eq!(rt; found, is_directory, "at {name}");
    }
    fs::remove_dir_all(&rt, folder.as_path())?;
    Ok(())
}

// What is written below a root stays there: tests/cases/files has files and locks that a module names, and this what none
// names.
#[test]
fn nothing_is_changed_outside_the_root(rt: HostRuntime) -> Result<(), Fail> {
    let alloc = rt.alloc();
    let folder = new_folder(rt, "inside")?;
    let tree = tree_in(rt, &folder)?;
    let text = tree.as_str();
    let mut vault = FolderVault::below(rt, text.as_bytes())?;
    let path = format!(in alloc; "{text}/etc/there")?;
    let done = vault.replace(alloc, path.as_bytes(), b"short");
    assert_eq!(rt; done, Err(ReplaceFault::Failed), "a link to a directory");
    let path = format!(in alloc; "{text}/../.pwd.lock")?;
    let held = vault.hold(alloc, path.as_bytes(), LockKind::Record);
    assert!(rt; held.is_ok());
    assert!(rt; fs::exists(&rt, tree.join(alloc, ".pwd.lock")?.as_path())?);
    let path = format!(in alloc; "{text}/etc/turn")?;
    let held = vault.hold(alloc, path.as_bytes(), LockKind::Whole);
    assert!(rt; held.is_err(), "a link isn't locked");
    assert_eq!(rt;
        names_in(rt, &folder)?,
        2,
        "the tree and the file beside it"
    );
    fs::remove_dir_all(&rt, folder.as_path())?;
    Ok(())
}
