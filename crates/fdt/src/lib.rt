// Opening a flattened devicetree: which bytes are a tree, and which tree. Devicetree Specification v0.4, chapter 5.
#![tactic(auto)]

ghost use Rattle.std.specs.Prelude.{◌≡◌, ◌+◌, ◌≤◌, ◌<◌, length};
ghost use Rattle.fdt.specs.Header.{good_header};
ghost use Rattle.fdt.specs.Token.{prop_at, tok_at};
ghost use Rattle.fdt.specs.Walk.{begin_step, step_of, walked};
ghost use Rattle.fdt.specs.Opening.{fault_number, blocks_of, opened_of};

use numbers::Numbered;

// One token of the structure block, with the place of what follows it.
#[derive(Clone, Copy)]
pub enum Token {
    // No token can be read here.
    Bad,
    Nop(usize),
    // A node begins: the length of its name, and what follows.
    Begin(usize, usize),
    EndNode(usize),
    // A property: the length of its value, its name's start and end in the strings block, and what follows.
    Prop(usize, usize, usize, usize),
    // The end of the block.
    Fin,
}

// What a tree is refused for, by its form. The calls above repeat these cases among their own: a number as discriminant wants a flat enum.
#[derive(Clone, Copy)]
pub enum TreeFault {
    BadHeader = 4,
    OverLimit = 6,
    BadStructure = 5,
}

impl Numbered for TreeFault {
    ghost number_of = { fault_number };

    fn number(self) -> u8 {
        self as u8
    }
}

// Where the walk stands: the next token's place, the open nodes, the nodes begun, and whether a property may stand here.
#[derive(Clone, Copy)]
pub struct State {
    pub at: usize,
    pub depth: usize,
    pub nodes: usize,
    pub props: bool,
}

// A step of the walk: on from a state; or the end, with what the walk says of the block. It is no Result, since a walk that stops may have
// found all well.
#[derive(Clone, Copy)]
pub enum Step {
    Go(State),
    Stop(Result<(), TreeFault>),
}

// Where a part stands in some bytes, and how long it is: a block of a tree, or a property's value in the structure block.
#[derive(Clone, Copy)]
pub struct Block {
    pub at: usize,
    pub len: usize,
}

// The blocks of an opened tree. The reservation block has no length of its own.
#[derive(Clone, Copy)]
pub struct Blocks {
    pub structure: Block,
    pub strings: Block,
    pub reservations: usize,
}

// What reading takes of an opened tree: its structure block and its strings block.
#[derive(Clone, Copy)]
pub struct Tree<'a> {
    pub structure: &'a [u8],
    pub strings: &'a [u8],
}

// A property token at p, of which the structure block has the four bytes.
fn prop_at<'a>(tree: Tree<'a>, p: usize) -> Token
    requires { p + 4 ≤ length tree.structure.now }
    ensures { result ≡ prop_at tree.entry.structure.now tree.entry.strings.now p }
{
    let left = tree.structure.len() - p;
    if left < 12 {
        return Token::Bad;
    }
    let len = words::be32(tree.structure, p + 4);
    if left - 12 < len {
        return Token::Bad;
    }
    let name = words::be32(tree.structure, p + 8);
    let end = words::byte_from(tree.strings, name, 0);
    if end < tree.strings.len() {
        return Token::Prop(len, name, end, (p + 12 + len + 3) / 4 * 4);
    }
    Token::Bad
}

// The token at p. Every reader goes over tokens, so it is no call of its own: as one, with the blocks handed over behind a pointer, the way past
// a node's children took twice the instructions.
#[inline(always)]
pub fn token_at<'a>(tree: Tree<'a>, p: usize) -> Token
    ensures { result ≡ tok_at tree.entry.structure.now tree.entry.strings.now p }
{
    if tree.structure.len() < 4 {
        return Token::Bad;
    }
    if tree.structure.len() - 4 < p {
        return Token::Bad;
    }
    match words::be32(tree.structure, p) {
        1 => {
            let end = words::byte_from(tree.structure, p + 4, 0);
            if end < tree.structure.len() {
                return Token::Begin(end - (p + 4), (end + 4) / 4 * 4);
            }
            Token::Bad
        }
        2 => Token::EndNode(p + 4),
        3 => prop_at(tree, p),
        4 => Token::Nop(p + 4),
        9 => {
            if tree.structure.len() - p == 4 {
                return Token::Fin;
            }
            Token::Bad
        }
        _ => Token::Bad,
    }
}

// A node begins, with a name of len bytes.
fn begun(st: State, len: usize, next: usize) -> Step
    ensures { result ≡ begin_step st len next }
{
    let depth = st.depth;
    let nodes = st.nodes;
    if depth == 0 {
        if nodes != 0 {
            return Step::Stop(Err(TreeFault::BadStructure));
        }
        if len != 0 {
            return Step::Stop(Err(TreeFault::BadStructure));
        }
        return Step::Go(State {
            at: next,
            depth: 1,
            nodes: 1,
            props: true,
        });
    }
    if 32 <= depth {
        return Step::Stop(Err(TreeFault::OverLimit));
    }
    if 4096 <= nodes {
        return Step::Stop(Err(TreeFault::OverLimit));
    }
    Step::Go(State {
        at: next,
        depth: depth + 1,
        nodes: nodes + 1,
        props: true,
    })
}

// What a token does to the walk.
fn stepped(st: State, t: Token) -> Step
    ensures { result ≡ step_of st t }
{
    let depth = st.depth;
    let nodes = st.nodes;
    let props = st.props;
    match t {
        Token::Bad => Step::Stop(Err(TreeFault::BadStructure)),
        Token::Nop(next) => Step::Go(State {
            at: next,
            depth,
            nodes,
            props,
        }),
        Token::Begin(len, next) => begun(st, len, next),
        Token::EndNode(next) => {
            if depth == 0 {
                return Step::Stop(Err(TreeFault::BadStructure));
            }
            Step::Go(State {
                at: next,
                depth: depth - 1,
                nodes,
                props: false,
            })
        }
        Token::Prop(_, _, _, next) => {
            if props {
                return Step::Go(State {
                    at: next,
                    depth,
                    nodes,
                    props: true,
                });
            }
            Step::Stop(Err(TreeFault::BadStructure))
        }
        Token::Fin => {
            if depth != 0 {
                return Step::Stop(Err(TreeFault::BadStructure));
            }
            if nodes == 0 {
                return Step::Stop(Err(TreeFault::BadStructure));
            }
            Step::Stop(Ok(()))
        }
    }
}

// The walk over a structure block: one pass, no table.
fn walk<'a>(tree: Tree<'a>) -> Result<(), TreeFault>
    ensures { result ≡ walked tree.entry.structure.now tree.entry.strings.now }
{
    let mut st = State {
        at: 0,
        depth: 0,
        nodes: 0,
        props: false,
    };
    loop {
        match stepped(st, token_at(tree, st.at)) {
            Step::Go(next) => {
                st = next;
            }
            Step::Stop(verdict) => {
                return verdict;
            }
        }
    }
}

// Whether the header is good.
fn good_header(s: &[u8]) -> bool
    ensures { result ≡ good_header s.now }
{
    if s.len() < 40 {
        return false;
    }
    if words::be32(s, 0) != 0xd00dfeed {
        return false;
    }
    let total = words::be32(s, 4);
    if total < 40 {
        return false;
    }
    if s.len() < total {
        return false;
    }
    if words::be32(s, 20) < 17 {
        return false;
    }
    if 17 < words::be32(s, 24) {
        return false;
    }
    let structure = words::be32(s, 8);
    if structure < 40 {
        return false;
    }
    let strings = words::be32(s, 12);
    if strings < 40 {
        return false;
    }
    if total < structure + words::be32(s, 36) {
        return false;
    }
    if total < strings + words::be32(s, 32) {
        return false;
    }
    structure % 4 == 0
}

// The blocks of a good header.
fn blocks_of(s: &[u8]) -> Blocks
    ensures { result ≡ blocks_of s.now }
{
    let structure = Block {
        at: words::be32(s, 8),
        len: words::be32(s, 36),
    };
    let strings = Block {
        at: words::be32(s, 12),
        len: words::be32(s, 32),
    };
    let reservations = words::be32(s, 16);
    Blocks {
        structure,
        strings,
        reservations,
    }
}

// Opens a tree: the header, its size, and then the structure block. No bytes are no tree.
pub fn open_tree(s: &[u8]) -> Result<Option<Blocks>, TreeFault>
    ensures { result ≡ opened_of s.now }
{
    if s.len() == 0 {
        return Ok(None);
    }
    if !good_header(s) {
        return Err(TreeFault::BadHeader);
    }
    if 1048576 < words::be32(s, 4) {
        return Err(TreeFault::OverLimit);
    }
    let found = blocks_of(s);
    walk(Tree {
        structure: words::part(s, found.structure.at, found.structure.len),
        strings: words::part(s, found.strings.at, found.strings.len),
    })?;
    Ok(Some(found))
}
