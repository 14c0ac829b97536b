ghost use Rattle.std.specs.Prelude.{◌≡◌, ℕ, List, Ok, Result, true};
ghost use Rattle.std.specs.List.{list_all};
ghost use Rattle.pam_base.specs.declared.fault.Refuse.{Refuse};
ghost use Rattle.pam_outside.specs.Files.{VaultState};
ghost use Rattle.control_words.specs.Stack.{Stack};
ghost use Rattle.service_load.specs.declared.load_fault.LoadFault.{LoadFault};
ghost use Rattle.service_load.specs.declared.rule_type.RuleType.{RuleType};
ghost use Rattle.service_load.specs.Trees.{Trees};
ghost use Rattle.service_load.specs.Load.{Loads};
ghost use Rattle.service_print.specs.Printed.{printed, stacks_in};
ghost use Rattle.service_print.specs.Reload.{Gives, HoldsJust, IsLowerName, LoadsTo, is_short};

/// What is printed loads to the same stacks. Take the four stacks of any service, print them for a
/// service, and let there be files with just the printed contents, no access to which is set to
/// fail: then that service has the same four stacks, unless a printed file has more than 65,536
/// bytes or a line of more than 4,096. No other limit can be exceeded: the printed files have as
/// many lines as the loaded ones, are nested no deeper and need no more openings.
pub fn printed_is_loaded()
    ensures stacks { (stack : RuleType → Stack) (origin : VaultState) (origin_root once : List ℕ) →
        LoadsTo origin origin_root once stack →
        (vault : VaultState) (root service : List ℕ) →
        IsLowerName service → HoldsJust vault root (printed stack service) →
        list_all is_short (printed stack service) ≡ true →
        LoadsTo vault root service stack }
    // The same for three calls: `load`, `print`, and `load` again.
    ensures calls { (trees : Trees) (origin was_read : VaultState) (origin_root once : List ℕ) →
        Loads (Ok trees) origin was_read origin_root once →
        (again : Result Trees (Refuse LoadFault)) (vault after : VaultState)
        (root service : List ℕ) →
        IsLowerName service → HoldsJust vault root (printed (stacks_in trees) service) →
        list_all is_short (printed (stacks_in trees) service) ≡ true →
        Loads again vault after root service → Gives again (stacks_in trees) }
{
    conf_lex::laws::one_reading();
}
