ghost use Rattle.std.specs.Prelude.{◌≡◌, Err, IfOk, OnErr};
ghost use Rattle.pam_base.specs.declared.code.Code.{Code};
ghost use Rattle.pam_room.specs.State.{Scene};
ghost use Rattle.module_acts.specs.Act.{Act, answers};
ghost use Rattle.module_acts.specs.Returns.{Returns, Finishes, Follows};

use crate::laws;
use pam_base::{Code, ConvErr, NoMemory, Refuse};

/// The module's code, which is CONV_ERR if the conversation gave no reply.
pub fn code_or_conv_err(answer: Result<Code, Refuse<ConvErr>>) -> Result<Code, NoMemory>
    ensures told { (step : (Code → Act) → Act) (old new : Scene) → Returns answer step old new →
        IfOk result (λ code. Follows (step answers) old code new) }
    ensures finished { (act : Act) (old new : Scene) → Finishes answer act old new →
        IfOk result (λ code. Follows act old code new) }
    ensures memory { OnErr result (answer ≡ Err Refuse.NoMemory) }
{
    laws::act_steps();
    match answer {
        Ok(code) => Ok(code),
        Err(refused) => match refused {
            Refuse::NoMemory => Err(NoMemory),
            Refuse::Named(_) => Ok(Code::ConvErr),
        },
    }
}
