//! Compiled templates, against worked examples.
use ast_core::{
    Attribute, AttributeValue, BinaryOp, Clause, Expr, Location, Node, Nodes, Operand, Pattern,
    Place, Reads, SlotBody,
};
use slot_compile::{Branch, Compiled, Dynamic, compile};
use std::alloc::Global;
use std::test::Fail;
use text_core::{OutOfMemory, Seq, Text};

fn at() -> Location {
    Location { line: 1, column: 1 }
}

fn text(alloc: Global, content: &str) -> Result<Node, OutOfMemory> {
    Ok(Node::Text(Text::copy_of(alloc, content)?))
}

fn assign(alloc: Global, name: &str) -> Result<Expr, OutOfMemory> {
    Ok(Expr::Assign(Text::copy_of(alloc, name)?))
}

// @first <> @second
fn joined(alloc: Global, first: &str, second: &str) -> Result<Expr, OutOfMemory> {
    let op = BinaryOp::Concat;
    let value = assign(alloc, second)?;
    let rest = one(alloc, Operand { op, value })?;
    let first = Box::new(alloc, assign(alloc, first)?)?;
    Ok(Expr::RightChain { first, rest })
}

fn put(expr: Expr) -> Node {
    let place = Place::Put(expr);
    Node::Place { at: at(), place }
}

// {@name}
fn put_assign(alloc: Global, name: &str) -> Result<Node, OutOfMemory> {
    Ok(put(assign(alloc, name)?))
}

fn placed(place: Place) -> Node {
    Node::Place { at: at(), place }
}

// {name}
fn put_variable(alloc: Global, name: &str) -> Result<Node, OutOfMemory> {
    Ok(put(Expr::Name(Text::copy_of(alloc, name)?)))
}

// if @name do yes else no
fn shown_if(alloc: Global, name: &str, yes: Nodes, no: Nodes) -> Result<Node, OutOfMemory> {
    let test = assign(alloc, name)?;
    Ok(placed(Place::If { test, yes, no }))
}

fn named(alloc: Global, name: &str) -> Result<Pattern, OutOfMemory> {
    Ok(Pattern::Name(Text::copy_of(alloc, name)?))
}

// for name <- @from
fn each(alloc: Global, name: &str, from: &str, body: Nodes) -> Result<Node, OutOfMemory> {
    let pattern = named(alloc, name)?;
    let list = assign(alloc, from)?;
    Ok(placed(Place::For {
        pattern,
        list,
        body,
    }))
}

// render_slot(@name)
fn slot(alloc: Global, name: &str) -> Result<Node, OutOfMemory> {
    let value = assign(alloc, name)?;
    let argument = None;
    Ok(placed(Place::RenderSlot { value, argument }))
}

// <.card/>
fn call(alloc: Global) -> Result<Node, OutOfMemory> {
    let content = SlotBody {
        number: 1,
        pattern: None,
        nodes: Seq::new(alloc),
    };
    Ok(placed(Place::Call {
        template: Text::copy_of(alloc, "card")?,
        attributes: Seq::new(alloc),
        content,
        entries: Seq::new(alloc),
    }))
}

fn element(
    alloc: Global,
    name: &str,
    attributes: Seq<Attribute>,
    children: Nodes,
) -> Result<Node, OutOfMemory> {
    let name = Text::copy_of(alloc, name)?;
    Ok(Node::Element {
        at: at(),
        name,
        attributes,
        children,
    })
}

// An element without attributes.
fn plain(alloc: Global, name: &str, children: Nodes) -> Result<Node, OutOfMemory> {
    element(alloc, name, Seq::new(alloc), children)
}

fn attribute(alloc: Global, name: &str, value: AttributeValue) -> Result<Attribute, OutOfMemory> {
    let name = Text::copy_of(alloc, name)?;
    Ok(Attribute {
        at: at(),
        name,
        value,
    })
}

fn one<T: Drop>(alloc: Global, item: T) -> Result<Seq<T>, OutOfMemory> {
    let mut items = Seq::new(alloc);
    items.push(item)?;
    Ok(items)
}

// name={@from}
fn valued(alloc: Global, name: &str, from: &str) -> Result<Attribute, OutOfMemory> {
    attribute(alloc, name, AttributeValue::Put(assign(alloc, from)?))
}

// class="a" title='b' hidden module={M}
fn of_written_kinds(alloc: Global) -> Result<Seq<Attribute>, OutOfMemory> {
    let double = AttributeValue::Double(Text::copy_of(alloc, "a")?);
    let mut attributes = one(alloc, attribute(alloc, "class", double)?)?;
    let single = AttributeValue::Single(Text::copy_of(alloc, "b")?);
    attributes.push(attribute(alloc, "title", single)?)?;
    attributes.push(attribute(alloc, "hidden", AttributeValue::Bare)?)?;
    let module = AttributeValue::Module(Text::copy_of(alloc, "M")?);
    attributes.push(attribute(alloc, "module", module)?)?;
    Ok(attributes)
}

// class="a" title='b' hidden module={M} id={@n} {@rest}
fn of_all_kinds(alloc: Global) -> Result<Seq<Attribute>, OutOfMemory> {
    let mut attributes = of_written_kinds(alloc)?;
    attributes.push(valued(alloc, "id", "n")?)?;
    let rest = AttributeValue::Spread(assign(alloc, "rest")?);
    attributes.push(attribute(alloc, "", rest)?)?;
    Ok(attributes)
}

// {@a} of {@b}
fn between(alloc: Global) -> Result<Nodes, OutOfMemory> {
    let mut nodes = one(alloc, put_assign(alloc, "a")?)?;
    nodes.push(text(alloc, " of ")?)?;
    nodes.push(put_assign(alloc, "b")?)?;
    Ok(nodes)
}

// A division with attributes of all kinds.
fn division(alloc: Global) -> Result<Nodes, OutOfMemory> {
    let words = one(alloc, text(alloc, "c")?)?;
    one(alloc, element(alloc, "div", of_all_kinds(alloc)?, words)?)
}

// <br class={@k}>next
fn line_break(alloc: Global) -> Result<Nodes, OutOfMemory> {
    let class = one(alloc, valued(alloc, "class", "k")?)?;
    let mut nodes = one(alloc, element(alloc, "br", class, Seq::new(alloc))?)?;
    nodes.push(text(alloc, "next")?)?;
    Ok(nodes)
}

fn list_item(alloc: Global, content: Node) -> Result<Node, OutOfMemory> {
    plain(alloc, "li", one(alloc, content)?)
}

// <ul><li>{@a}</li><li>x</li></ul>
fn list(alloc: Global) -> Result<Nodes, OutOfMemory> {
    let mut items = one(alloc, list_item(alloc, put_assign(alloc, "a")?)?)?;
    items.push(list_item(alloc, text(alloc, "x")?)?)?;
    one(alloc, plain(alloc, "ul", items)?)
}

fn words(alloc: Global, content: &str) -> Result<Nodes, OutOfMemory> {
    one(alloc, text(alloc, content)?)
}

// <p>{@b}if @a do x</p>
fn block_inside(alloc: Global) -> Result<Nodes, OutOfMemory> {
    let mut children = one(alloc, put_assign(alloc, "b")?)?;
    children.push(shown_if(alloc, "a", words(alloc, "x")?, Seq::new(alloc))?)?;
    one(alloc, plain(alloc, "p", children)?)
}

// if @a do x else y
fn both_branches(alloc: Global) -> Result<Nodes, OutOfMemory> {
    let no = words(alloc, "y")?;
    one(alloc, shown_if(alloc, "a", words(alloc, "x")?, no)?)
}

// case @v do "a" -> x; n -> {n}
fn two_clauses(alloc: Global) -> Result<Node, OutOfMemory> {
    let pattern = Pattern::Text(Text::copy_of(alloc, "a")?);
    let body = words(alloc, "x")?;
    let mut clauses = one(alloc, Clause { pattern, body })?;
    let pattern = named(alloc, "n")?;
    let body = one(alloc, put_variable(alloc, "n")?)?;
    clauses.push(Clause { pattern, body })?;
    let value = assign(alloc, "v")?;
    Ok(placed(Place::Case { value, clauses }))
}

// for x <- @xs do {x}{y}{@a}
fn rows(alloc: Global) -> Result<Node, OutOfMemory> {
    let mut body = one(alloc, put_variable(alloc, "x")?)?;
    body.push(put_variable(alloc, "y")?)?;
    body.push(put_assign(alloc, "a")?)?;
    each(alloc, "x", "xs", body)
}

// for y <- @ys do if @a do (the rows) (the case) else y, and then the case
fn nested(alloc: Global) -> Result<Nodes, OutOfMemory> {
    let mut yes = one(alloc, rows(alloc)?)?;
    yes.push(two_clauses(alloc)?)?;
    let no = words(alloc, "y")?;
    let choice = one(alloc, shown_if(alloc, "a", yes, no)?)?;
    let mut nodes = one(alloc, each(alloc, "y", "ys", choice)?)?;
    nodes.push(two_clauses(alloc)?)?;
    Ok(nodes)
}

fn list_statics(line: &mut Text, statics: &[Text]) -> Result<(), OutOfMemory> {
    for constant in statics {
        line.push_str(constant.as_str())?;
        line.push_str("|")?;
    }
    Ok(())
}

fn list_number(line: &mut Text, number: usize) -> Result<(), OutOfMemory> {
    let names = ["0", "1", "2", "3", "4", "5", "6", "7", "8", "9"];
    line.push_str(" ")?;
    line.push_str(if number < 10 { names[number] } else { "?" })
}

fn list_reads(line: &mut Text, reads: &Reads) -> Result<(), OutOfMemory> {
    for name in reads.assigns.as_slice() {
        line.push_str(" @")?;
        line.push_str(name.as_str())?;
    }
    for name in reads.variables.as_slice() {
        line.push_str(" ")?;
        line.push_str(name.as_str())?;
    }
    Ok(())
}

fn list_kind(line: &mut Text, dynamic: &Dynamic) -> Result<(), OutOfMemory> {
    match dynamic {
        Dynamic::Put(_) => line.push_str(" put"),
        Dynamic::Attribute { name, value: _ } => {
            line.push_str(" attribute ")?;
            line.push_str(name.as_str())
        }
        Dynamic::Spread(_) => line.push_str(" spread"),
        Dynamic::If {
            test: _,
            yes: _,
            no: _,
        } => line.push_str(" if"),
        Dynamic::Case {
            value: _,
            clauses: _,
        } => line.push_str(" case"),
        Dynamic::For {
            list: _,
            pattern: _,
            reads: _,
            body: _,
        } => line.push_str(" for"),
    }
}

fn list_branches(line: &mut Text, branches: &[Branch]) -> Result<(), OutOfMemory> {
    for branch in branches {
        list_number(line, branch.body)?;
    }
    Ok(())
}

// The numbers of the bodies inside, and what a loop reads.
fn list_inside(line: &mut Text, dynamic: &Dynamic) -> Result<(), OutOfMemory> {
    match dynamic {
        Dynamic::If { test: _, yes, no } => {
            list_number(line, *yes)?;
            match no {
                Some(no) => list_number(line, *no),
                None => Ok(()),
            }
        }
        Dynamic::Case { value: _, clauses } => list_branches(line, clauses.as_slice()),
        Dynamic::For {
            list: _,
            pattern: _,
            reads,
            body,
        } => {
            list_number(line, *body)?;
            line.push_str(" reads")?;
            list_reads(line, reads)
        }
        _ => Ok(()),
    }
}

fn list_dynamics(line: &mut Text, dynamics: &[Dynamic]) -> Result<(), OutOfMemory> {
    for dynamic in dynamics {
        list_kind(line, dynamic)?;
        list_reads(line, dynamic.formula().reads())?;
        list_inside(line, dynamic)?;
    }
    Ok(())
}

fn list_bodies(line: &mut Text, compiled: &Compiled) -> Result<(), OutOfMemory> {
    for number in 0..compiled.count() {
        if number > 0 {
            line.push_str(" / ")?;
        }
        list_statics(line, compiled.statics(number))?;
        list_dynamics(line, compiled.dynamics(number))?;
    }
    Ok(())
}

// Each body: its constant texts with a bar behind each, and then each dynamic with what it reads and the numbers inside.
fn shown(alloc: Global, nodes: Nodes) -> Result<Text, OutOfMemory> {
    let mut line = Text::new(alloc);
    match compile(alloc, nodes)? {
        Some(compiled) => list_bodies(&mut line, &compiled)?,
        None => line.push_str("none")?,
    }
    Ok(line)
}

#[test]
fn texts_and_interpolations(rt: HostRuntime) -> Result<(), Fail> {
    let alloc = rt.alloc();
    assert_eq!(rt; shown(alloc, Seq::new(alloc))?.as_str(), "|");
    assert_eq!(rt; shown(alloc, words(alloc, "hi")?)?.as_str(), "hi|");
    assert_eq!(rt;
        shown(alloc, between(alloc)?)?.as_str(),
        "| of || put @a put @b"
    );
    let chain = one(alloc, put(joined(alloc, "b", "a")?))?;
    assert_eq!(rt; shown(alloc, chain)?.as_str(), "|| put @a @b");
    Ok(())
}

#[test]
fn elements(rt: HostRuntime) -> Result<(), Fail> {
    let alloc = rt.alloc();
    let all = "<div class=\"a\" title='b' hidden||>c</div>| attribute id @n spread @rest";
    assert_eq!(rt; shown(alloc, division(alloc)?)?.as_str(), all);
    assert_eq!(rt;
        shown(alloc, line_break(alloc)?)?.as_str(),
        "<br|>next| attribute class @k"
    );
    assert_eq!(rt;
        shown(alloc, list(alloc)?)?.as_str(),
        "<ul><li>|</li><li>x</li></ul>| put @a"
    );
    Ok(())
}

#[test]
fn bodies(rt: HostRuntime) -> Result<(), Fail> {
    let alloc = rt.alloc();
    assert_eq!(rt;
        shown(alloc, block_inside(alloc)?)?.as_str(),
        "<p>||</p>| put @b if @a 1 / x|"
    );
    assert_eq!(rt;
        shown(alloc, both_branches(alloc)?)?.as_str(),
        "|| if @a 1 2 / x| / y|"
    );
    assert_eq!(rt;
        shown(alloc, one(alloc, two_clauses(alloc)?)?)?.as_str(),
        "|| case @v 1 2 / x| / || put n"
    );
    assert_eq!(rt;
        shown(alloc, one(alloc, rows(alloc)?)?)?.as_str(),
        "|| for @xs 1 reads @a @xs y / |||| put x put y put @a"
    );
    Ok(())
}

#[test]
fn bodies_inside_bodies(rt: HostRuntime) -> Result<(), Fail> {
    let alloc = rt.alloc();
    let whole = "||| for @ys 1 reads @a @v @xs @ys case @v 7 8";
    let looped = " / || if @a 2 6 / ||| for @xs 3 reads @a @xs y case @v 4 5";
    let rest = " / |||| put x put y put @a / x| / || put n / y| / x| / || put n";
    let mut expected = Text::copy_of(alloc, whole)?;
    expected.push_str(looped)?;
    expected.push_str(rest)?;
    assert_eq!(rt; shown(alloc, nested(alloc)?)?.as_str(), expected.as_str());
    Ok(())
}

#[test]
fn what_is_not_compiled(rt: HostRuntime) -> Result<(), Fail> {
    let alloc = rt.alloc();
    assert_eq!(rt; shown(alloc, one(alloc, call(alloc)?)?)?.as_str(), "none");
    let inside = one(alloc, call(alloc)?)?;
    let no = one(alloc, each(alloc, "x", "xs", inside)?)?;
    let choice = shown_if(alloc, "a", words(alloc, "x")?, no)?;
    assert_eq!(rt; shown(alloc, one(alloc, choice)?)?.as_str(), "none");
    let body = one(alloc, slot(alloc, "inner_block")?)?;
    let pattern = Pattern::Any;
    let clauses = one(alloc, Clause { pattern, body })?;
    let value = assign(alloc, "v")?;
    let case = one(alloc, placed(Place::Case { value, clauses }))?;
    assert_eq!(rt; shown(alloc, case)?.as_str(), "none");
    Ok(())
}

// How many bodies and places there are, and what a number has that no body has.
fn counted(alloc: Global, nodes: Nodes) -> Result<[usize; 4], OutOfMemory> {
    match compile(alloc, nodes)? {
        Some(compiled) => {
            let count = compiled.count();
            let statics = compiled.statics(count).len();
            let dynamics = compiled.dynamics(count).len();
            Ok([count, compiled.places(), statics, dynamics])
        }
        None => Ok([0, 0, 0, 0]),
    }
}

#[test]
fn numbers(rt: HostRuntime) -> Result<(), Fail> {
    let alloc = rt.alloc();
    assert!(rt; counted(alloc, nested(alloc)?)? == [9, 10, 1, 0]);
    assert!(rt; counted(alloc, Seq::new(alloc))? == [1, 0, 1, 0]);
    Ok(())
}
