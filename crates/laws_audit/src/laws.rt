ghost use Rattle.session_audit.specs.Sound.{ArePrintable};
ghost use Rattle.laws_audit.specs.Calls.{LibraryCallsGo};
ghost use Rattle.laws_audit.specs.Loaded.{AreLoaded, LoadedArePrintable, SetFilesAreOfBytes};
ghost use Rattle.laws_audit.specs.Run.{RunsFitIf, ScriptsFitIf};
ghost use Rattle.laws_audit.specs.StackCalls.{AreMadeAsSeen, AreSeenAsMade};
ghost use Rattle.laws_audit.specs.Step.{StepsFit};

/// A law, stated by its contract: each of the six stack calls of a library does what the call of a
/// checker of reports does, if its lines return what the modules return.
pub fn library_calls_go()
    ensures { LibraryCallsGo }
{}

/// A law, stated by its contract: the call that runs a function with flags is seen as these (`stack_of`), and no other call.
pub fn stack_calls_are_named()
    ensures seen { AreSeenAsMade }
    ensures made { AreMadeAsSeen }
{}

/// A law, stated by its contract: what a step of a library is reported as fits what is known of its
/// transactions, and leads to what is known after it.
pub fn steps_fit()
    ensures { StepsFit }
{}

/// A law, stated by its contract: the stacks that a service without a fault has in files of bytes
/// can be printed: the names of their modules are bytes, and they have at most 4,096 lines.
pub fn loaded_stacks_are_printable()
    ensures { LoadedArePrintable }
{
    control_words::conf_lex::laws::one_reading();
}

/// A law, stated by its contract: if files are of bytes and one of them is set to bytes, they still
/// are. What code hands to `MemVault::put` and `Vault::replace` are bytes.
pub fn set_files_are_of_bytes()
    ensures { SetFilesAreOfBytes }
{}

/// A law, stated by its contract: the report of a run fits the stacks with which each transaction
/// of the run was started, if these can be printed (`printed`), or a service has them in files of
/// bytes (`loaded`).
pub fn runs_fit()
    ensures printed { RunsFitIf ArePrintable }
    ensures loaded { RunsFitIf AreLoaded }
{
    loaded_stacks_are_printable();
}

/// A law, stated by its contract: what a run of a script writes to a modelled sink, if it ended,
/// fits the stacks with which each transaction of the run was started, if these can be printed
/// (`printed`), or a service has them in files of bytes (`loaded`).
pub fn scripts_fit()
    ensures printed { ScriptsFitIf ArePrintable }
    ensures loaded { ScriptsFitIf AreLoaded }
{
    loaded_stacks_are_printable();
}
