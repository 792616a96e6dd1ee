//! Requests, with what they ask for written by hand.
use crate::{Method, Route, Routes, command_text, cut_target};
use ports::NoMemory;
use std::alloc::Global;
use std::test::Fail;

/// The path is this one of the table, or none of it.
fn is_route(alloc: Global, path: &str, route: Option<Route>) -> Result<bool, NoMemory> {
    let routes = Routes::new(alloc)?;
    Ok(routes.find(path) == route)
}

/// The request asks for this command text, or for none.
fn asks(
    alloc: Global,
    route: &Route,
    method: Method,
    query: &[u8],
    body: &[u8],
    text: Option<&[u8]>,
) -> Result<bool, NoMemory> {
    match (command_text(alloc, route, method, query, body)?, text) {
        (Some(asked), Some(text)) => Ok(asked.as_slice() == text),
        (None, None) => Ok(true),
        _ => Ok(false),
    }
}

/// The query of a vertex of `sq` asks for this command text, or for none.
fn asks_vertex(alloc: Global, query: &[u8], text: Option<&[u8]>) -> Result<bool, NoMemory> {
    asks(alloc, &Route::Vertex("sq"), Method::Get, query, b"", text)
}

/// The body of an edit of `sq` asks for this command text, or for none.
fn asks_edit(alloc: Global, body: &[u8], text: Option<&[u8]>) -> Result<bool, NoMemory> {
    asks(alloc, &Route::Edits("sq"), Method::Post, b"", body, text)
}

#[test]
fn a_target_is_cut_at_its_first_mark(rt: HostRuntime) -> Result<(), Fail> {
    assert!(rt; cut_target("/projects/sq/vertex?at=0,0?") == ("/projects/sq/vertex", "at=0,0?"));
    assert!(rt; cut_target("/projects") == ("/projects", ""));
    Ok(())
}

#[test]
fn paths_are_found(rt: HostRuntime) -> Result<(), Fail> {
    let alloc = rt.alloc();
    assert!(rt; is_route(alloc, "/projects", Some(Route::Projects))?);
    assert!(rt; is_route(alloc, "/projects/a-b/faults", Some(Route::Faults("a-b")))?);
    assert!(rt;
        is_route(
            alloc,
            "/projects/sq/sheet/2/1",
            Some(Route::Sheet("sq", "2", "1"))
        )?
    );
    Ok(())
}

#[test]
fn other_paths_are_not_found(rt: HostRuntime) -> Result<(), Fail> {
    let alloc = rt.alloc();
    assert!(rt; is_route(alloc, "/projects/", None)?);
    assert!(rt; is_route(alloc, "/projects/sq/", None)?);
    assert!(rt; is_route(alloc, "/projects//faults", None)?);
    Ok(())
}

#[test]
fn a_page_has_its_methods(rt: HostRuntime) -> Result<(), Fail> {
    let project = Route::Project("Sq");
    assert!(rt; project.method(b"PUT") == Some(Method::Put));
    assert!(rt; project.method(b"DELETE").is_none());
    assert!(rt; Route::Edits("sq").method(b"GET").is_none());
    assert!(rt; project.allow() == "PUT, GET" && Route::Edits("sq").allow() == "POST");
    assert!(rt; project.name() == Some("Sq") && !project.is_named());
    Ok(())
}

#[test]
fn projects_are_listed_and_made(rt: HostRuntime) -> Result<(), Fail> {
    let alloc = rt.alloc();
    let project = Route::Project("sq");
    assert!(rt;
        asks(
            alloc,
            &Route::Projects,
            Method::Get,
            b"a=b",
            b"",
            Some(b"list")
        )?
    );
    assert!(rt; asks(alloc, &project, Method::Put, b"", b"", Some(b"new sq"))?);
    assert!(rt; asks(alloc, &project, Method::Get, b"", b"", Some(b"show sq"))?);
    Ok(())
}

#[test]
fn pages_ask_for_their_texts(rt: HostRuntime) -> Result<(), Fail> {
    let alloc = rt.alloc();
    let sheet = Route::Sheet("sq", "2", "01");
    assert!(rt;
        asks(
            alloc,
            &Route::Fold("sq"),
            Method::Get,
            b"",
            b"",
            Some(b"fold sq")
        )?
    );
    assert!(rt; asks(alloc, &sheet, Method::Put, b"", b"", Some(b"new sq 2 01"))?);
    Ok(())
}

#[test]
fn a_query_names_a_vertex(rt: HostRuntime) -> Result<(), Fail> {
    let alloc = rt.alloc();
    assert!(rt; asks_vertex(alloc, b"at=1,-1+1r", Some(b"vertex sq 1,-1+1r"))?);
    assert!(rt; asks_vertex(alloc, b"at=1%2c-1%2B1r", Some(b"vertex sq 1,-1+1r"))?);
    assert!(rt; asks_vertex(alloc, b"at=0,0&x=1", Some(b"vertex sq 0,0&x=1"))?);
    Ok(())
}

#[test]
fn other_queries_name_no_vertex(rt: HostRuntime) -> Result<(), Fail> {
    let alloc = rt.alloc();
    assert!(rt; asks_vertex(alloc, b"", None)?);
    assert!(rt; asks_vertex(alloc, b"x=1&at=0,0", None)?);
    assert!(rt; asks_vertex(alloc, b"at=0%2", None)?);
    assert!(rt; asks_vertex(alloc, b"at=0%2g0", None)?);
    Ok(())
}

#[test]
fn a_body_asks_for_an_edit(rt: HostRuntime) -> Result<(), Fail> {
    let alloc = rt.alloc();
    let body = b"{\"rev\":0,\"command\":\"draw M 0,0 1,1\"}";
    assert!(rt; asks_edit(alloc, body, Some(b"draw sq@0 M 0,0 1,1"))?);
    let body = b"{\"command\":\"show\",\"a\":[null],\"command\":\"undo\\t\"}";
    assert!(rt; asks_edit(alloc, body, Some(b"undo sq\t"))?);
    let body = b"{\"command\":\"flip\\n\\n\",\"rev\":1000000000000}";
    assert!(rt; asks_edit(alloc, body, Some(b"flip sq@1000000000000\n\n"))?);
    Ok(())
}

#[test]
fn other_bodies_ask_for_no_edit(rt: HostRuntime) -> Result<(), Fail> {
    let alloc = rt.alloc();
    assert!(rt; asks_edit(alloc, b"[\"command\",\"flip\"]", None)?);
    assert!(rt; asks_edit(alloc, b"{\"command\":\" flip\"}", None)?);
    assert!(rt; asks_edit(alloc, b"{\"command\":\"show\"}", None)?);
    assert!(rt; asks_edit(alloc, b"{\"command\":\"flip\"", None)?);
    Ok(())
}

#[test]
fn other_revs_are_refused(rt: HostRuntime) -> Result<(), Fail> {
    let alloc = rt.alloc();
    assert!(rt; asks_edit(alloc, b"{\"command\":\"flip\",\"rev\":null}", None)?);
    assert!(rt; asks_edit(alloc, b"{\"command\":\"flip\",\"rev\":1.0}", None)?);
    assert!(rt; asks_edit(alloc, b"{\"command\":\"flip\",\"rev\":-0}", None)?);
    assert!(rt; asks_edit(alloc, b"{\"command\":\"flip\",\"rev\":1000000000001}", None)?);
    Ok(())
}
