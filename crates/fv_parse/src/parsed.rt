// The tree of a program, over its tokens.

ghost use Rattle.std.specs.Prelude.{◌≡◌, ◌<◌, ◌-◌, length, map, codes};
ghost use Rattle.std.specs.Str.{bytes_eq};
ghost use Rattle.fv_parse_grammar.specs.headline.Tree.{items, start_of};
ghost use Rattle.fv_parse.specs.headline.Trees.{PartsBelow, AllBelow, place_from, place_at, text_of, label_of};
ghost use Rattle.fv_parse.specs.Trees.{size_of, tree_in, node_tree, start_in, first_named};

use crate::definitions::is_process;
use fv_lex::{Place, Tokens};
use fv_parse_tree::{Entry, TreeId, TreeNode};
use std::marker::Model;

/// The tree of a program, over its tokens.
#[derive(Drop)]
pub struct Tree<'a> {
    pub(crate) tokens: &'a Tokens<'a>,
    pub(crate) entries: Vec<Entry>,
    pub(crate) root: TreeId,
    /// The canonical number of each token, and after them that of no bytes.
    pub(crate) names: Vec<u64>,
}

impl<'a> Model for Tree<'a> {
    ghost use Rattle.fv_parse.specs.Trees.{Parsed, IsHeld};

    ghost Value = { Parsed };

    ghost view = { λ t. record { tokens = t.tokens.now; entries = t.entries.items; root = t.root } };

    ghost invariant = { λ t. IsHeld t.tokens.now t.entries.items t.root t.names.items };
}

impl Tree<'_> {
    /// How many nodes there are. Their numbers are those below it.
    pub fn len(&self) -> u64
        ensures { result ≡ size_of self.now }
    {
        self.entries.len() as u64
    }

    /// A node with its place.
    fn entry(&self, id: TreeId) -> &Entry
        requires { id < size_of self.now }
        ensures parts { PartsBelow id result.now.node }
        ensures tree { tree_in self.now id ≡ node_tree self.now result.now.node result.now.start }
        ensures start { result.now.start ≡ start_in self.now id }
    {
        &self.entries[id.number() as usize]
    }

    /// A node. Its parts have lower numbers.
    pub fn node(&self, id: TreeId) -> &TreeNode
        requires { id < size_of self.now }
        ensures parts { PartsBelow id result.now }
        ensures tree { tree_in self.now id ≡ node_tree self.now result.now (start_in self.now id) }
    {
        &self.entry(id).node
    }

    /// The parts of a list, in order. What is no list has none.
    pub fn items(&self, id: TreeId) -> &[TreeId]
        requires { id < size_of self.now }
        ensures items { map (tree_in self.now) result.now ≡ items (tree_in self.now id) }
        ensures below { AllBelow id result.now }
    {
        match self.node(id) {
            TreeNode::List(ids) => ids,
            _ => &[],
        }
    }

    /// The outermost list of definitions.
    pub fn root(&self) -> TreeId
        ensures root { result ≡ self.now.root }
        ensures inside { result < size_of self.now }
    {
        self.root
    }

    /// How many tokens there are from a node's first one on.
    fn start(&self, id: TreeId) -> u64
        requires { id < size_of self.now }
        ensures { result ≡ start_of (tree_in self.now id) }
    {
        let entry = self.entry(id);
        match &entry.node {
            TreeNode::List(ids) => match ids.first() {
                Some(first) => self.start(*first),
                None => 0,
            },
            _ => entry.start,
        }
    }

    /// The place of a node's first token. A list has the place of its first item, and an empty one the end of the text.
    pub fn place(&self, id: TreeId) -> Place
        requires { id < size_of self.now }
        ensures { result ≡ place_from self.now.tokens (start_of (tree_in self.now id)) }
    {
        place_from(self.tokens, self.start(id))
    }

    /// The number of a node's first token.
    pub(crate) fn first_token(&self, id: TreeId) -> u64
        requires { id < size_of self.now }
        ensures { result ≡ length self.now.tokens.tokens - start_in self.now id }
    {
        u64::from(self.tokens.len()).saturating_sub(self.entry(id).start)
    }

    /// The bytes of the token with this number.
    pub fn text(&self, n: u64) -> &[u8]
        ensures { result.now ≡ text_of self.now.tokens n }
    {
        text_of(self.tokens, n)
    }

    /// The bytes of a string token, without its quotes.
    pub fn label(&self, n: u64) -> &[u8]
        ensures { result.now ≡ label_of self.now.tokens n }
    {
        match self.text(n) {
            [_, inner @ .., _] => inner,
            _ => &[],
        }
    }

    /// The canonical number of the token with this number: that of the first token with its bytes. Names are equal where
    /// these are.
    pub fn name(&self, n: u64) -> u64
        ensures { result ≡ first_named self.now.tokens n }
    {
        let count = u64::from(self.tokens.len());
        let i = n.min(count);
        self.names[i as usize]
    }

    /// Whether the token with this number is the name `process`.
    pub fn is_process(&self, n: u64) -> bool
        ensures { result ≡ bytes_eq (text_of self.now.tokens n) (codes "process") }
    {
        is_process(self.text(n))
    }
}

/// The place from which there are `start` tokens to the end of the text.
pub(crate) fn place_from(tokens: &Tokens, start: u64) -> Place
    ensures { result ≡ place_from tokens.now start }
{
    let count = u64::from(tokens.len());
    let i = count.saturating_sub(start);
    if i < count {
        tokens.place(i as u32)
    } else {
        tokens.end()
    }
}

/// The place of the token with this number.
pub(crate) fn place_at(tokens: &Tokens, n: u64) -> Place
    ensures { result ≡ place_at tokens.now n }
{
    if n < u64::from(tokens.len()) {
        tokens.place(n as u32)
    } else {
        tokens.end()
    }
}

/// The bytes of the token with this number.
pub(crate) fn text_of<'a>(tokens: &'a Tokens, n: u64) -> &'a [u8]
    ensures { result.now ≡ text_of tokens.now n }
{
    if n < u64::from(tokens.len()) {
        tokens.text(n as u32)
    } else {
        &[]
    }
}
