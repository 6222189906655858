//! A page that greets, joined.
use ast_core::{Attribute, AttributeValue, Attributes, Expr, Location, Node, Nodes, Pair, Place};
use diff_tree::{Diff, Part, write_diff};
use effects_apply::Rest;
use live_page::{App, Destination, LivePage, PageFault};
use route_table::Routes;
use slot_compile::{Compiled, compile};
use std::alloc::Global;
use std::test::Fail;
use text_core::{OutOfMemory, Seq, Text};
use view_api::Greeting;

fn at() -> Location {
    Location { line: 1, column: 1 }
}

fn one<T: Drop>(alloc: Global, item: T) -> Result<Seq<T>, OutOfMemory> {
    let mut items = Seq::new(alloc);
    items.push(item)?;
    Ok(items)
}

// `@greeting`
fn greeting(alloc: Global) -> Result<Expr, OutOfMemory> {
    Ok(Expr::Assign(Text::copy_of(alloc, "greeting")?))
}

fn attribute(alloc: Global, name: &str, value: AttributeValue) -> Result<Attribute, OutOfMemory> {
    let name = Text::copy_of(alloc, name)?;
    Ok(Attribute {
        at: at(),
        name,
        value,
    })
}

// `title={@greeting}`
fn title(alloc: Global) -> Result<Attribute, OutOfMemory> {
    attribute(alloc, "title", AttributeValue::Put(greeting(alloc)?))
}

// `{%{lang: @greeting}}`
fn language(alloc: Global) -> Result<Attribute, OutOfMemory> {
    let key = Text::copy_of(alloc, "lang")?;
    let value = greeting(alloc)?;
    let entries = one(alloc, Pair { key, value })?;
    attribute(alloc, "", AttributeValue::Spread(Expr::Map(entries)))
}

fn attributes(alloc: Global) -> Result<Attributes, OutOfMemory> {
    let mut attributes = one(alloc, title(alloc)?)?;
    attributes.push(language(alloc)?)?;
    Ok(attributes)
}

// `{@greeting}`
fn put_greeting(alloc: Global) -> Result<Node, OutOfMemory> {
    let place = Place::Put(greeting(alloc)?);
    Ok(Node::Place { at: at(), place })
}

// `<p title={@greeting} {%{lang: @greeting}}>{@greeting}</p>`
fn template(alloc: Global) -> Result<Nodes, OutOfMemory> {
    let name = Text::copy_of(alloc, "p")?;
    let attributes = attributes(alloc)?;
    let children = one(alloc, put_greeting(alloc)?)?;
    let element = Node::Element {
        at: at(),
        name,
        attributes,
        children,
    };
    one(alloc, element)
}

// The app of a template at `/`.
fn app_of(alloc: Global, compiled: Compiled) -> Result<Option<App<Greeting>>, OutOfMemory> {
    let mut paths = Seq::new(alloc);
    paths.push(Text::copy_of(alloc, "/")?)?;
    match Routes::build(alloc, &paths) {
        Ok(routes) => Ok(Some(App::build(compiled, routes, Greeting))),
        Err(_) => Ok(None),
    }
}

fn greeting_app(alloc: Global) -> Result<Option<App<Greeting>>, OutOfMemory> {
    match compile(alloc, template(alloc)?)? {
        Some(compiled) => app_of(alloc, compiled),
        None => Ok(None),
    }
}

fn spelled(alloc: Global, sent: Result<Part, PageFault>) -> Result<Text, OutOfMemory> {
    match sent {
        Ok(part) => write_diff(alloc, &Diff::new(part, Seq::new(alloc), Seq::new(alloc))),
        Err(PageFault::Raised) => Text::copy_of(alloc, "raised"),
        Err(PageFault::OutOfMemory) => Err(OutOfMemory),
    }
}

// The tree of the page that `/?n=1` leads to, and the page.
fn joined(
    alloc: Global,
    app: &App<Greeting>,
    rest: &mut Rest,
) -> Result<Option<(LivePage, Text)>, OutOfMemory> {
    match app.route(alloc, "/?n=1")? {
        Some(to) => join_at(alloc, app, &to, rest),
        None => Ok(None),
    }
}

fn join_at(
    alloc: Global,
    app: &App<Greeting>,
    to: &Destination,
    rest: &mut Rest,
) -> Result<Option<(LivePage, Text)>, OutOfMemory> {
    let topic = Text::copy_of(alloc, "lv:A")?;
    match LivePage::join(alloc, app, to, None, topic, rest) {
        Ok((page, tree)) => Ok(Some((page, spelled(alloc, Ok(tree))?))),
        Err(PageFault::Raised) => Ok(None),
        Err(PageFault::OutOfMemory) => Err(OutOfMemory),
    }
}

#[test]
fn a_page_is_joined(rt: HostRuntime) -> Result<(), Fail> {
    let alloc = rt.alloc();
    let mut rest = Rest::new(alloc, 1, 1024);
    if let Some(app) = greeting_app(alloc)? {
        if let Some((_page, tree)) = joined(alloc, &app, &mut rest)? {
            assert_eq!(rt;
                tree.as_str(),
                "{\"0\":\" title=\\\"hello\\\"\",\"1\":\" lang=\\\"hello\\\"\",\"2\":\"hello\",\"s\":[\"<p\",\"\",\">\",\"</p>\"]}"
            );
            return Ok(());
        }
    }
    Err("not joined")?
}
