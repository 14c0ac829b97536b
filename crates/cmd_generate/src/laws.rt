ghost use Rattle.std.specs.Prelude.{◌≡◌, ◌≤◌, ℕ};
ghost use Rattle.pam_outside.specs.Files.{VaultState};
ghost use Rattle.random_config.specs.Files.{count_of, service, text_of};
ghost use Rattle.cmd_run.specs.State.{RunState, Setting};
ghost use Rattle.cmd_generate.specs.declared.generating.Generated.TheVariants.{Written};
ghost use Rattle.cmd_generate.specs.RandomRules.{HoldsRules, contents_of, service_contents};
ghost use Rattle.cmd_generate.specs.Generated.{generation};
ghost use Rattle.cmd_generate.specs.Loads.{IsFree, LoadsAll};

/// Each generated file is one of rules without a fault: a rule of the type auth for each of its
/// lines, with the actions and the argument that the seed gives, and in an odd file that isn't the
/// last, one more, which names the file after it. So is the service, whose rules name the odd files.
/// This is a law about the definitions: its contract states it.
pub fn generated_files_are_read()
    ensures files { (seed lines k : ℕ) → lines ≤ 4096 → k ≤ count_of lines →
        HoldsRules (text_of seed lines k) (contents_of seed lines k) }
    ensures service { (lines : ℕ) → lines ≤ 4096 →
        HoldsRules (service (count_of lines)).text (service_contents (count_of lines)) }
{}

/// If there is no file and no call is set to fail, the files that a seed generates are stored and
/// load without a fault, and the result of the authentication is written, whatever the modules. So
/// if all objects are modelled, `generate` doesn't return `Refused` then. This is a law about the
/// definitions: its contract states it.
pub fn generated_files_load()
    ensures files { (seed lines : ℕ) (vault : VaultState) → lines ≤ 4096 → IsFree vault →
        LoadsAll seed lines vault }
    ensures generation { (setting : Setting) (seed lines : ℕ) (s : RunState) → lines ≤ 4096 →
        IsFree s.world.vault → (generation setting seed lines s).generated ≡ Written }
{}
