mod looks;

use control_words::Nodes;
use handler_chain::Chain;
use std::mem::size_of;
use std::snapshot::Snapshot;

#[test]
fn the_nested_list_of_a_chain_takes_no_bytes(rt: HostRuntime) {
    assert_eq!(rt; size_of::<Snapshot<Nodes>>(), 0);
    assert_eq!(rt; size_of::<Chain>(), size_of::<Vec<usize>>() * 2 + 8);
}
