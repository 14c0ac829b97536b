ghost use Rattle.std.specs.Prelude.{◌≡◌, ℕ, List, Some};
ghost use Rattle.pam_base.specs.declared.code.Code.{Code};
ghost use Rattle.env_list.specs.Environment.{Variable};
ghost use Rattle.module_acts.specs.pam_room.specs.declared.transaction.Transaction.{Transaction};
ghost use Rattle.module_acts.specs.pam_room.specs.State.{Scene};
ghost use Rattle.module_acts.specs.Accounts.{Known};
ghost use Rattle.module_acts.specs.Act.{Act, Acts};
ghost use Rattle.module_acts.specs.SetsNoData.{SetsNoData};
ghost use Rattle.mod_env.specs.declared.conf.EnvLine.{EnvLine};
ghost use Rattle.mod_env.specs.Conf.{conf_of};
ghost use Rattle.mod_env.specs.Env.{sees_env};
ghost use Rattle.mod_env.specs.Puts.{Puts};
ghost use Rattle.mod_env.specs.Spelling.{SpellsConf};

/// A text of `pam_env.conf(5)` has one reading: the variables that are read are those that its lines
/// spell, and if they spell none, the text is malformed. No text spells two lists.
pub fn a_text_has_one_reading()
    ensures read { (entries : List EnvLine) (text : List ℕ) → SpellsConf entries text →
        conf_of text ≡ Some entries }
    ensures spelled { (entries : List EnvLine) (text : List ℕ) → conf_of text ≡ Some entries →
        SpellsConf entries text }
    ensures one { (entries others : List EnvLine) (text : List ℕ) → SpellsConf entries text →
        SpellsConf others text → entries ≡ others }
{}

/// The law of the step that sees the environment.
pub(crate) fn env_steps()
    ensures seeing { (act : List Variable → Act) (known : Known) (s : Scene) (code : Code)
        (new : Scene) →
        Acts (act s.room.transaction.env) known s code new → Acts (sees_env act) known s code new }
{}

/// What holds for a module that changes only the environment, with real objects too.
pub(crate) fn puts_alone()
    ensures none { (t : Transaction) → Puts t t }
    ensures again { (t u v : Transaction) → Puts t u → Puts u v → Puts t v }
    ensures no_data { (t u : Transaction) → Puts t u → SetsNoData t u }
{}
