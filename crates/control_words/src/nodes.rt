ghost use Rattle.std.specs.Prelude.{◌≡◌, ◌==◌, length, IfOk, OnOk, OnErr};
ghost use Rattle.control_words.specs.Stack.{joined, node_on, none, stack_of, count};

use crate::control::Control;
use pam_base::{NoMemory, SharedText, Text, Texts};
use std::alloc::Global;

/// What a line of a service names: its module, the module's arguments, and its control.
#[derive(Debug, Drop)]
pub struct Rule {
    /// Whether no note is made of a missing module (a `-` before the type).
    pub silent: bool,
    pub control: Control,
    /// The module's path, as it is written.
    pub path: SharedText,
    pub args: Texts,
}

impl Rule {
    /// A copy of the rule. `NoMemory` is returned if an allocation fails.
    pub fn copied(&self, alloc: Global) -> Result<Rule, NoMemory>
        ensures { IfOk result (λ copy. copy ≡ self.now) }
    {
        Ok(Rule {
            silent: self.silent,
            control: self.control,
            path: self.path.share()?,
            args: copy_of_texts(alloc, &self.args)?,
        })
    }
}

fn copy_of_texts(alloc: Global, texts: &Texts) -> Result<Texts, NoMemory>
    ensures { IfOk result (λ copy. copy ≡ texts.now) }
{
    let mut copy = Texts::new(alloc);
    for text in texts.items() {
        copy.push(Text::from_bytes(alloc, text.bytes())?)?;
    }
    Ok(copy)
}

/// A node of a stack: a line, or a substack with a list of its own.
#[cycle(nodes)]
#[derive(Debug, Drop)]
pub enum Node {
    Line(Rule),
    Sub(Nodes),
}

/// The nodes of a stack, in order. Contracts see a list of lines and substacks.
#[cycle(nodes)]
#[derive(Debug, Drop)]
pub struct Nodes {
    pub vec: Vec<Node>,
}

impl Nodes {
    pub fn new(alloc: Global) -> Self
        ensures { stack_of result.vec.items ≡ none }
    {
        Nodes {
            vec: Vec::new(alloc),
        }
    }

    /// Adds a node at the end. If an allocation fails, the list is unchanged.
    pub fn push(&mut self, node: Node) -> Result<(), NoMemory>
        ensures ok { OnOk result (stack_of self.new.vec.items
            ≡ joined (stack_of self.old.vec.items) (node_on node none)) }
        ensures err { OnErr result (self.new.vec.items ≡ self.old.vec.items) }
    {
        self.vec.push(node)?;
        Ok(())
    }

    /// How many nodes the list itself has.
    pub fn len(&self) -> usize
        ensures counted { result ≡ count (stack_of self.now.vec.items) }
        ensures nodes { result ≡ length self.now.vec.items }
    {
        self.items().len()
    }

    pub fn is_empty(&self) -> bool
        ensures { result ≡ (count (stack_of self.now.vec.items) == 0) }
    {
        self.items().is_empty()
    }

    pub fn items(&self) -> &[Node]
        ensures { result.now ≡ self.now.vec.items }
    {
        &self.vec
    }
}
