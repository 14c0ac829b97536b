ghost use Rattle.std.specs.Prelude.{◌≡◌, IfOk};
ghost use Rattle.script_lang.specs.Call.{line_made};
ghost use Rattle.script_lang.specs.Value.{meanings_of};

use crate::command::Command;
use crate::line::Line;
use crate::value::Values;
use pam_base::{AppCall, CallName, NoMemory, Step};
use std::alloc::Global;

/// The line that a command and the values of its words give.
pub(crate) fn line_made(
    alloc: Global,
    command: Command,
    values: Values<'_>,
) -> Result<Line, NoMemory>
    ensures { IfOk result (λ line. line ≡ line_made command (meanings_of values.entry)) }
{
    let second = values.second;
    let third = values.third;
    let number = second.number();
    let item = second.item();
    let call = match command {
        Command::Call(CallName::Start) => AppCall::Start {
            service: second.text(alloc)?,
            user: third.optional_text(alloc)?,
        },
        Command::Call(CallName::End) => AppCall::End { status: number },
        Command::Call(CallName::Run(func)) => AppCall::stack(func, number),
        Command::Call(CallName::SetItem) => AppCall::SetItem {
            item,
            value: third.optional_text(alloc)?,
        },
        Command::Call(CallName::GetItem) => AppCall::GetItem { item },
        Command::Call(CallName::PutEnv) => AppCall::PutEnv {
            text: second.text(alloc)?,
        },
        Command::Call(CallName::GetEnv) => AppCall::GetEnv {
            name: second.text(alloc)?,
        },
        Command::Call(CallName::EnvList) => AppCall::EnvList,
        Command::Call(CallName::FailDelay) => AppCall::FailDelay { micros: number },
        Command::Call(CallName::DelayFn) => AppCall::DelayFn { on: second.is_on() },
        Command::Call(CallName::Reply) => AppCall::Reply {
            text: second.text(alloc)?,
        },
        Command::At => return Ok(Line::At(values.first.wide())),
        Command::Random => return Ok(Line::Random(values.first.wide())),
        Command::Caller => return Ok(Line::Caller(values.first.number())),
    };
    let number = values.first.number();
    Ok(Line::Step(Step { number, call }))
}
