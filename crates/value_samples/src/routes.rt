//! Tables against URLs.

use route_table::{Found, Paths, RouteFault, Routes};
use std::alloc::Global;
use std::test::Fail;
use text_core::{OutOfMemory, Seq, Text};
use value_core::{Value, to_json};

fn paths_of(alloc: Global, texts: &[&str]) -> Result<Paths, OutOfMemory> {
    let mut paths = Seq::new(alloc);
    for text in texts {
        paths.push(Text::copy_of(alloc, text)?)?;
    }
    Ok(paths)
}

// The view, the parameters as JSON and the query of what a URL finds.
fn shown(alloc: Global, routes: &Routes, url: &str) -> Result<String, Fail> {
    let Some(
        Found {
            view,
            parameters,
            query,
        },
    ) = routes.find(alloc, url)?
    else {
        return Ok(String::from_str(alloc, "none")?);
    };
    let json = to_json(alloc, &Value::Map(parameters))?.to_string(alloc)?;
    let json = json.as_str();
    let query = query.as_str();
    Ok(format!(in alloc; "{view} {json} {query}")?)
}

#[test]
fn urls_find_views(rt: HostRuntime) -> Result<(), Fail> {
    let alloc = rt.alloc();
    let paths = paths_of(
        alloc,
        &[
            "/",
            "/about",
            "/users/:id",
            "/users/me",
            "/users/:id/edit",
            "/:lang/help",
            "/f.html",
            "/a-b_c.~d/:x_1",
            "/s/:a/:a",
            "/users/:id/posts/:post",
            "/:lang/help/:topic",
        ],
    )?;
    assert!(rt; paths.len() < 100);
    let routes = Routes::build(alloc, &paths).ok().ok_or("refused")?;
    for (url, found) in [
        ("", "0 {} "),
        ("/", "0 {} "),
        ("/?", "0 {} "),
        ("/?q=1", "0 {} q=1"),
        ("/#f", "0 {} "),
        ("/#f?q=1", "0 {} "),
        ("/?q=1#f", "0 {} q=1"),
        ("/?a#b?c", "0 {} a"),
        ("/?a?b", "0 {} a?b"),
        ("#", "0 {} "),
        ("?x", "0 {} x"),
        ("?x#y", "0 {} x"),
        ("/about", "1 {} "),
        ("/about/", "none"),
        ("/about?", "1 {} "),
        ("/about?x=1&y=2", "1 {} x=1&y=2"),
        ("/about#top", "1 {} "),
        ("/About", "none"),
        ("/users", "none"),
        ("/users/", "none"),
        ("/users/me", "3 {} "),
        ("/users/you", "2 {\"id\":\"you\"} "),
        ("/users/7", "2 {\"id\":\"7\"} "),
        ("/users/7/", "none"),
        ("/users/7/edit", "4 {\"id\":\"7\"} "),
        ("/users/me/edit", "4 {\"id\":\"me\"} "),
        ("/users/me/edit/", "none"),
        ("/users//edit", "none"),
        ("/users/a%20b", "2 {\"id\":\"a b\"} "),
        ("/users/a+b", "2 {\"id\":\"a+b\"} "),
        ("/users/%C3%A4", "2 {\"id\":\"ä\"} "),
        ("/users/%ff", "2 {\"id\":\"%ff\"} "),
        ("/users/%C3", "2 {\"id\":\"%C3\"} "),
        ("/users/%", "2 {\"id\":\"%\"} "),
        ("/users/%2F", "2 {\"id\":\"/\"} "),
        ("/users/%2Fedit", "2 {\"id\":\"/edit\"} "),
        ("/users/ä", "2 {\"id\":\"ä\"} "),
        ("/en/help", "5 {\"lang\":\"en\"} "),
        ("/users/help", "2 {\"id\":\"help\"} "),
        ("/en/help/x", "10 {\"lang\":\"en\",\"topic\":\"x\"} "),
        ("/en/help/", "none"),
        ("/f.html", "6 {} "),
        ("/fxhtml", "none"),
        ("/f%2Ehtml", "none"),
        ("/a-b_c.~d/1", "7 {\"x_1\":\"1\"} "),
        ("/a-b_c.~d/", "none"),
        ("/s/1/2", "8 {\"a\":\"2\"} "),
        ("/s/2/1", "8 {\"a\":\"1\"} "),
        ("/s/%41/%zz", "8 {\"a\":\"%zz\"} "),
        ("/s/1", "none"),
        ("/s/1/2/3", "none"),
        ("//", "none"),
        ("//about", "none"),
        ("/nope", "none"),
        ("about", "none"),
        ("users/7", "none"),
        ("http://h/about", "1 {} "),
        ("http://h:80/users/7?q#f", "2 {\"id\":\"7\"} q"),
        ("http://h", "0 {} "),
        ("http://h/", "0 {} "),
        ("http://h?q=1", "0 {} q=1"),
        ("http://h#f", "0 {} "),
        ("https://u@h/en/help", "5 {\"lang\":\"en\"} "),
        ("://about", "0 {} "),
        ("a:b://c/about", "1 {} "),
        ("x://y://z/about", "none"),
        ("/http://h/about", "none"),
        ("mailto:a", "none"),
        ("http:/about", "none"),
        ("http:///about", "1 {} "),
        ("/users/7/posts/8", "9 {\"id\":\"7\",\"post\":\"8\"} "),
        (
            "/users/me/posts/%38?p=q",
            "9 {\"id\":\"me\",\"post\":\"8\"} p=q",
        ),
    ] {
        assert_eq!(rt; shown(alloc, &routes, url)?.as_str(), found, "at {url}");
    }
    Ok(())
}

// Routes are told apart by what stands behind a parameter, whatever its name.
#[test]
fn parameters_of_two_names(rt: HostRuntime) -> Result<(), Fail> {
    let alloc = rt.alloc();
    let paths = paths_of(alloc, &["/:a/x", "/:b/y"])?;
    assert!(rt; paths.len() < 100);
    let routes = Routes::build(alloc, &paths).ok().ok_or("refused")?;
    for (url, found) in [
        ("/1/x", "0 {\"a\":\"1\"} "),
        ("/1/y", "1 {\"b\":\"1\"} "),
        ("/1/z", "none"),
    ] {
        assert_eq!(rt; shown(alloc, &routes, url)?.as_str(), found, "at {url}");
    }
    Ok(())
}

#[test]
fn bad_paths_are_named(rt: HostRuntime) -> Result<(), Fail> {
    let alloc = rt.alloc();
    for (texts, number) in [
        (["/a", "b"].as_slice(), 1),
        ([""].as_slice(), 0),
        (["/a/"].as_slice(), 0),
        (["//"].as_slice(), 0),
        (["/", "/a//b"].as_slice(), 1),
        (["/:"].as_slice(), 0),
        (["/:A"].as_slice(), 0),
        (["/:1a"].as_slice(), 0),
        (["/:a-b"].as_slice(), 0),
        (["/a:b", "/c"].as_slice(), 0),
        (["/{a}"].as_slice(), 0),
        (["/a b"].as_slice(), 0),
        (["/ä"].as_slice(), 0),
        (["/a", "/b", "/a"].as_slice(), 2),
        (["/:a", "/:b"].as_slice(), 1),
        (["/:a/x", "/:b/y", "/:b/x"].as_slice(), 2),
        (["/*a"].as_slice(), 0),
        (["/a?b"].as_slice(), 0),
    ] {
        let paths = paths_of(alloc, texts)?;
        assert!(rt; paths.len() < 100);
        let fault = Routes::build(alloc, &paths).err();
        assert_eq!(rt; fault, Some(RouteFault::BadRoute(number)));
    }
    Ok(())
}
