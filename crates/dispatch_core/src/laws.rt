ghost use Rattle.std.specs.Prelude.{ℕ};
ghost use Rattle.pam_room.specs.data_cleanup.specs.Cleanup.{Notes};
ghost use Rattle.pam_room.specs.State.{PlainTransaction, PlainProcess};
ghost use Rattle.dispatch_core.specs.AnyWorld.{GoesSoundly};

/// Two passes one after the other do together what a pass may do with real objects, too.
pub fn soundness_is_transitive()
    ensures { (note : Notes) (modules : ℕ) (x y z : PlainTransaction) (a b c : PlainProcess) →
        GoesSoundly note modules x y a b → GoesSoundly note modules y z b c →
        GoesSoundly note modules x z a c }
{
    pam_room::data_cleanup::laws::growth_is_transitive();
    pam_room::laws::staying_is_transitive();
}
