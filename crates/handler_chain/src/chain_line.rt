use control_words::Rule;

// A line of a chain.
#[derive(Drop)]
pub struct ChainLine {
    pub rule: Rule,
    // The index of the module that its path names, if there is one.
    pub module_number: Option<u32>,
    // How many substacks are around it.
    pub level: u32,
    // Of how many substacks it is the first line.
    pub opens: u32,
    // How many nodes follow it in its list.
    pub left: usize,
    // The index, among the positions, of the one after it; those after the nodes that follow it
    // come next.
    pub past_end: usize,
}
