//! What nodes read, against worked examples.
use ast_core::{
    BinaryOp, Clause, Entry, Expr, Generator, Location, Node, Operand, Pattern, Place, SlotBody,
    reads,
};
use std::alloc::Global;
use std::test::Fail;
use text_core::{OutOfMemory, Seq, Text};

fn assign(alloc: Global, name: &str) -> Result<Expr, OutOfMemory> {
    Ok(Expr::Assign(Text::copy_of(alloc, name)?))
}

fn variable(alloc: Global, name: &str) -> Result<Expr, OutOfMemory> {
    Ok(Expr::Name(Text::copy_of(alloc, name)?))
}

fn named(alloc: Global, name: &str) -> Result<Pattern, OutOfMemory> {
    Ok(Pattern::Name(Text::copy_of(alloc, name)?))
}

fn placed(place: Place) -> Node {
    let at = Location { line: 1, column: 1 };
    Node::Place { at, place }
}

fn one<T: Drop>(alloc: Global, item: T) -> Result<Seq<T>, OutOfMemory> {
    let mut items = Seq::new(alloc);
    items.push(item)?;
    Ok(items)
}

// The two expressions, each put as it is.
fn both(alloc: Global, first: Expr, second: Expr) -> Result<Seq<Node>, OutOfMemory> {
    let mut nodes = one(alloc, placed(Place::Put(first)))?;
    nodes.push(placed(Place::Put(second)))?;
    Ok(nodes)
}

// The assigns, a bar and the variables that a node reads.
fn listed(alloc: Global, node: &Node) -> Result<Text, OutOfMemory> {
    let found = reads(alloc, node)?;
    let mut text = Text::new(alloc);
    for name in found.assigns.as_slice() {
        text.push_str(name.as_str())?;
        text.push_str(" ")?;
    }
    text.push_str("|")?;
    for name in found.variables.as_slice() {
        text.push_str(" ")?;
        text.push_str(name.as_str())?;
    }
    Ok(text)
}

// {@b <> a <> @b}
#[test]
fn an_interpolation(rt: HostRuntime) -> Result<(), Fail> {
    let alloc = rt.alloc();
    let mut rest = Seq::new(alloc);
    for value in [variable(alloc, "a")?, assign(alloc, "b")?] {
        let op = BinaryOp::Concat;
        rest.push(Operand { op, value })?;
    }
    let first = Box::new(alloc, assign(alloc, "b")?)?;
    let node = placed(Place::Put(Expr::RightChain { first, rest }));
    assert_eq!(rt; listed(alloc, &node)?.as_str(), "b | a");
    Ok(())
}

// if @c do {@b} {x} else {@a} {@b}
#[test]
fn both_branches(rt: HostRuntime) -> Result<(), Fail> {
    let alloc = rt.alloc();
    let node = placed(Place::If {
        test: assign(alloc, "c")?,
        yes: both(alloc, assign(alloc, "b")?, variable(alloc, "x")?)?,
        no: both(alloc, assign(alloc, "a")?, assign(alloc, "b")?)?,
    });
    assert_eq!(rt; listed(alloc, &node)?.as_str(), "a b c | x");
    Ok(())
}

// for x <- @items do {x} {@title}
#[test]
fn a_loop(rt: HostRuntime) -> Result<(), Fail> {
    let alloc = rt.alloc();
    let node = placed(Place::For {
        pattern: named(alloc, "x")?,
        list: assign(alloc, "items")?,
        body: both(alloc, variable(alloc, "x")?, assign(alloc, "title")?)?,
    });
    assert_eq!(rt; listed(alloc, &node)?.as_str(), "items title |");
    Ok(())
}

// case x do {:ok, y} -> {x} {y}
#[test]
fn a_clause(rt: HostRuntime) -> Result<(), Fail> {
    let alloc = rt.alloc();
    let mut items = one(alloc, Pattern::Atom(Text::copy_of(alloc, "ok")?))?;
    items.push(named(alloc, "y")?)?;
    let clause = Clause {
        pattern: Pattern::Tuple(items),
        body: both(alloc, variable(alloc, "x")?, variable(alloc, "y")?)?,
    };
    let node = placed(Place::Case {
        value: variable(alloc, "x")?,
        clauses: one(alloc, clause)?,
    });
    assert_eq!(rt; listed(alloc, &node)?.as_str(), "| x");
    Ok(())
}

// <.list :let={item}>{item} {@a}</.list>
#[test]
fn a_slot_body(rt: HostRuntime) -> Result<(), Fail> {
    let alloc = rt.alloc();
    let content = SlotBody {
        number: 1,
        pattern: Some(named(alloc, "item")?),
        nodes: both(alloc, variable(alloc, "item")?, assign(alloc, "a")?)?,
    };
    let node = placed(Place::Call {
        template: Text::copy_of(alloc, "list")?,
        attributes: Seq::new(alloc),
        content,
        entries: Seq::new(alloc),
    });
    assert_eq!(rt; listed(alloc, &node)?.as_str(), "a |");
    Ok(())
}

// <:col :for={c <- cols} :if={@shown}>{c} {@a}</:col> of a call
#[test]
fn a_slot_entry(rt: HostRuntime) -> Result<(), Fail> {
    let alloc = rt.alloc();
    let entry = Entry {
        at: Location { line: 2, column: 3 },
        slot: Text::copy_of(alloc, "col")?,
        generator: Some(Generator {
            pattern: named(alloc, "c")?,
            list: variable(alloc, "cols")?,
        }),
        test: Some(assign(alloc, "shown")?),
        attributes: Seq::new(alloc),
        body: SlotBody {
            number: 1,
            pattern: None,
            nodes: both(alloc, variable(alloc, "c")?, assign(alloc, "a")?)?,
        },
    };
    let node = placed(Place::Call {
        template: Text::copy_of(alloc, "table")?,
        attributes: Seq::new(alloc),
        content: SlotBody {
            number: 0,
            pattern: None,
            nodes: Seq::new(alloc),
        },
        entries: one(alloc, entry)?,
    });
    assert_eq!(rt; listed(alloc, &node)?.as_str(), "a shown | cols");
    Ok(())
}

// for {id, row} <- @streams.rows do {id} {@total}
#[test]
fn a_stream(rt: HostRuntime) -> Result<(), Fail> {
    let alloc = rt.alloc();
    let node = placed(Place::StreamFor {
        stream: Text::copy_of(alloc, "rows")?,
        id: Text::copy_of(alloc, "id")?,
        pattern: named(alloc, "row")?,
        body: both(alloc, variable(alloc, "id")?, assign(alloc, "total")?)?,
    });
    assert_eq!(rt; listed(alloc, &node)?.as_str(), "total |");
    Ok(())
}
