ghost use Rattle.std.specs.Prelude.{◌≡◌, ◌≤◌, ◌<◌, ℕ, length};
ghost use Rattle.handler_chain.specs.Opinion.{opening};
ghost use Rattle.dispatch_core.specs.EntryStates.{entry_at, entered};

use handler_chain::Opinion;
use std::marker::Model;

/// The states of the stack in which the lists around a line were entered, indexed by the number of
/// substacks around them, 0 to 16.
#[derive(Clone, Copy, Debug)]
pub struct EntryStates {
    opinions: [Opinion; 17],
}

impl Model for EntryStates {
    ghost use Rattle.std.specs.Prelude.{List};
    ghost use Rattle.handler_chain.specs.declared.opinion.Opinion.{Opinion};

    ghost Value = { List Opinion };

    ghost view = { λ e. e.opinions };

    ghost inverse = { λ opinions. record { opinions = opinions } };
}

impl EntryStates {
    /// Before the first line.
    pub fn new() -> Self
        ensures { (level : ℕ) → entry_at result level ≡ opening }
    {
        EntryStates {
            opinions: [Opinion::opening(); 17],
        }
    }

    /// The innermost n lists around a line of this level are entered with a state.
    pub fn enter(&mut self, level: usize, opens: usize, opinion: Opinion)
        requires deep { level ≤ 16 }
        requires opens { opens ≤ level }
        ensures { (k : ℕ) → entry_at self.new k
            ≡ entered level opens opinion (entry_at self.old) k }
    {
        enter_lists(&mut self.opinions, level, opens, opinion);
    }

    /// The state with which a list of this level was entered.
    pub fn at(&self, level: usize) -> Opinion
        requires { level ≤ 16 }
        ensures { result ≡ entry_at self.now level }
    {
        self.opinions[level]
    }
}

fn enter_lists(opinions: &mut [Opinion], level: usize, opens: usize, opinion: Opinion)
    requires level { level < length opinions.old }
    requires opens { opens ≤ level }
    ensures { (k : ℕ) → entry_at opinions.new k
        ≡ entered level opens opinion (entry_at opinions.old) k }
{
    for k in level + 1 - opens..level + 1 {
        opinions[k] = opinion;
    }
}
