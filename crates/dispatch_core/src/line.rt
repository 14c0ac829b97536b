ghost use Rattle.std.specs.Prelude.{◌≡◌, ◌<◌, ◌+◌, ◌^◌, length};
ghost use Rattle.control_words.specs.Stack.{lines_in};
ghost use Rattle.handler_chain.specs.FlatLines.{module_at, rule_at};
ghost use Rattle.dispatch_core.specs.Paths.{HasPaths};

use crate::paths::Paths;
use handler_chain::Chain;
use pam_room::StackLine;

/// Line i as it is run: its rule number, its path, which is taken, and its module. It does not
/// allocate.
pub fn take_line(chain: &Chain, i: usize, paths: &mut Paths) -> StackLine
    requires within { i < lines_in chain.now.nodes }
    requires paths { HasPaths chain.now.nodes i paths.old }
    ensures place { result.place ≡ i + 1 }
    ensures path { result.path ≡ (rule_at chain.now.nodes i).path }
    ensures found { result.module_number ≡ module_at chain.now.nodes chain.now.names i }
    ensures few { length chain.now.names < 2 ^ 32 }
    ensures paths { HasPaths chain.now.nodes (i + 1) paths.new }
{
    // A law, with nothing to do at run time: a stack has fewer than 4,097 lines, and a chain is
    // made for fewer than 2^32 modules.
    let _few = chain.len();
    StackLine {
        place: i as u32 + 1,
        path: paths.take(i),
        module_number: chain.module(i),
    }
}
