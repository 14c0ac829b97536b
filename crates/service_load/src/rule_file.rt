ghost use Rattle.std.specs.Prelude.{◌≡◌, IfOk, codes};
ghost use Rattle.service_load.specs.Files.{service_file, plain_file, is_in_directory};

use crate::names::{IN_DIRECTORY, PAM_CONF};
use pam_base::{NoMemory, Text, lowercase};
use pam_outside::joined;
use std::alloc::Global;

/// A file of rules.
#[derive(Debug, Drop)]
pub struct RuleFile {
    /// Its name, without the root.
    pub name: Text,
    /// If it has the form of `pam.conf(5)`, whose rules begin with their service, the service asked
    /// for.
    pub service: Option<Text>,
}

impl RuleFile {
    /// The file with this name, in the form of those in `/etc/pam.d`.
    pub fn plain(name: Text) -> RuleFile
        ensures { result ≡ plain_file name }
    {
        RuleFile {
            name,
            service: None,
        }
    }

    /// The file of a service: one in `/etc/pam.d` if that is a directory, else `/etc/pam.conf`.
    fn of_service(alloc: Global, is_directory: bool, service: &[u8]) -> Result<RuleFile, NoMemory>
        ensures { IfOk result (λ file. file ≡ service_file is_directory service.now) }
    {
        let service = lowercase(alloc, service)?;
        if is_directory {
            return Ok(RuleFile {
                name: joined(alloc, IN_DIRECTORY, service.bytes())?,
                service: None,
            });
        }
        Ok(RuleFile {
            name: Text::from_bytes(alloc, PAM_CONF)?,
            service: Some(service),
        })
    }

    /// Whether it has the form of the files in `/etc/pam.d`.
    pub fn is_in_directory(&self) -> bool
        ensures { result ≡ is_in_directory self.now }
    {
        self.service.is_none()
    }
}

/// The files of the stacks of a service (`pam.conf(5)`).
#[derive(Debug, Drop)]
pub struct ServiceFiles {
    /// The service's own.
    pub own: RuleFile,
    /// The file of the service `other`, for the types for which the service's own file has no
    /// nodes.
    pub other: RuleFile,
}

impl ServiceFiles {
    /// The files of a service: in `/etc/pam.d` if that is a directory, else `/etc/pam.conf`.
    /// `NoMemory` is returned if an allocation fails.
    pub fn of(alloc: Global, is_directory: bool, service: &[u8]) -> Result<ServiceFiles, NoMemory>
        ensures own { IfOk result (λ files. files.own ≡ service_file is_directory service.now) }
        ensures other { IfOk result (λ files.
            files.other ≡ service_file is_directory (codes "other")) }
    {
        Ok(ServiceFiles {
            own: RuleFile::of_service(alloc, is_directory, service)?,
            other: RuleFile::of_service(alloc, is_directory, b"other")?,
        })
    }
}
