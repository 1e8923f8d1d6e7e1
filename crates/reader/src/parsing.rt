// Sums, products and factors, which call each other, and the whole line.
ghost use Rattle.std.specs.Prelude.{◌≤◌, length, take, IfOk, MatchResult};
ghost use Rattle.model.specs.Conditions.{Ungrammatical};
ghost use Rattle.reader.specs.Walk.{want};
ghost use Rattle.reader.specs.Reader.{Failed, APart};
ghost use Rattle.reader.specs.Order.{PartsFirst};
ghost use Rattle.reader.specs.Parts.{Got};
ghost use Rattle.reader.specs.Whole.{Parses};

use crate::arena::Arena;
use crate::faults::GrammarFault;
use crate::node::Node;
use crate::scan::Text;

// A part that was read: where it ends, and its node.
#[derive(Clone, Copy)]
struct Part {
    end: usize,
    root: usize,
}

// A sum reads as a product does, but for its sign, its parts and its node: a function for each rule of the grammar says so more plainly than one that asks which it is.
#[cycle(factor_prod_sum)]
fn sum(text: Text<'_>, at: usize, arena: &mut Arena) -> Result<Part, GrammarFault>
    requires within { at ≤ length text.bytes.now }
    requires room { arena.old.len ≤ at }
    ensures { MatchResult result (Got 2 2 text.entry.bytes.now at arena.old arena.new) (λ f. Failed (APart 2) want text.entry.bytes.now at f.place) }
{
    let mut left = prod(text, at, arena)?;
    'terms: while text.sees(left.end, b'+') {
        let right = prod(text, left.end + 1, arena)?;
        let root = arena.push(Node::Plus {
            place: left.end,
            left: left.root,
            right: right.root,
        });
        left = Part {
            end: right.end,
            root,
        };
    }
    Ok(left)
}

#[cycle(factor_prod_sum)]
fn prod(text: Text<'_>, at: usize, arena: &mut Arena) -> Result<Part, GrammarFault>
    requires within { at ≤ length text.bytes.now }
    requires room { arena.old.len ≤ at }
    ensures { MatchResult result (Got 1 1 text.entry.bytes.now at arena.old arena.new) (λ f. Failed (APart 1) want text.entry.bytes.now at f.place) }
{
    let mut left = factor(text, at, arena)?;
    'factors: while text.sees(left.end, b'*') {
        let right = factor(text, left.end + 1, arena)?;
        let root = arena.push(Node::Times {
            left: left.root,
            right: right.root,
        });
        left = Part {
            end: right.end,
            root,
        };
    }
    Ok(left)
}

#[cycle(factor_prod_sum)]
fn factor(text: Text<'_>, at: usize, arena: &mut Arena) -> Result<Part, GrammarFault>
    requires within { at ≤ length text.bytes.now }
    requires room { arena.old.len ≤ at }
    ensures { MatchResult result (Got 0 0 text.entry.bytes.now at arena.old arena.new) (λ f. Failed (APart 0) want text.entry.bytes.now at f.place) }
{
    if text.sees_slot(at) {
        let end = text.args(at + 1)?;
        // Letter, brackets and commas apart, every other byte is a variable.
        let root = arena.push(Node::Access {
            place: at,
            slot: (text.bytes[at] - b'A') as usize,
            vars: (end - at - 2) / 2,
        });
        return Ok(Part { end, root });
    }
    text.expect(at, b'(')?;
    let inner = sum(text, at + 1, arena)?;
    text.expect(inner.end, b')')?;
    let root = arena.push(Node::Group {
        place: at,
        inner: inner.root,
    });
    Ok(Part {
        end: inner.end + 1,
        root,
    })
}

// A line: where its right side and its loop order begin, and the tree of the right side.
#[derive(Clone, Copy)]
pub struct Parsed {
    pub arena: Arena,
    pub root: usize,
    pub body: usize,
    pub order: usize,
}

// The tree of a line, or the place at which it stops being one.
pub fn parse(text: &[u8]) -> Result<Parsed, GrammarFault>
    ensures tree { MatchResult result (Parses text.now) (λ f. Ungrammatical text.now f.place) }
    ensures ordered { IfOk result (λ p. PartsFirst (take p.arena.len p.arena.nodes)) }
{
    if text.len() > 256 {
        return Err(GrammarFault { place: 256 });
    }
    let text = Text { bytes: text };
    let body = text.head()?;
    let mut arena = Arena::new();
    let part = sum(text, body, &mut arena)?;
    text.expect(part.end, b';')?;
    text.order(part.end + 1)?;
    Ok(Parsed {
        arena,
        root: part.root,
        body,
        order: part.end + 1,
    })
}
