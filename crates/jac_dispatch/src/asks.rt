ghost use Rattle.std.specs.Prelude.{◌≡◌, IfOk};
ghost use Rattle.std.specs.Option.{option_copied};
ghost use Rattle.jac_lang.specs.Mirror.{application_of};
ghost use Rattle.jac_dispatch.specs.Asked.{viewer_in, form_body, ask_by, ask_in, request_in};

use jac_http::Request;
use jac_lang::App;
use jac_replies::Ask;
use jac_route::{Sessions, pairs_of, viewer_id, viewer_of};
use jac_value::{Bytes, Id, Memory, Txt};
use std::alloc::Global;

/// The viewer that an `ask` line names by number.
pub fn viewer_in(app: &App, number: Option<u128>) -> Option<Id>
    ensures { result ≡ viewer_in (application_of app.now) number }
{
    match number {
        None => None,
        Some(number) => viewer_id(number, app),
    }
}

/// The request of an `ask` line.
pub fn ask_in(
    alloc: Global,
    app: &App,
    viewer: Option<u128>,
    method: &Txt,
    path: &Txt,
    query: &Bytes,
    body: &Bytes,
) -> Result<Ask, Memory>
    ensures { IfOk result (λ ask.
        ask ≡ ask_in (application_of app.now) viewer method.now path.now query.now body.now) }
{
    make_ask(alloc, viewer_in(app, viewer), method, path, query, body)
}

/// The request of a connection.
pub fn request_in(
    alloc: Global,
    app: &App,
    sessions: &Sessions,
    request: &Request,
) -> Result<Ask, Memory>
    ensures { IfOk result (λ ask.
        ask ≡ request_in (application_of app.now) sessions.now request.now) }
{
    let viewer = request_viewer(app, sessions, request);
    make_ask(
        alloc,
        viewer,
        &request.method,
        &request.path,
        &request.query,
        &request.body,
    )
}

/// The viewer of a request, by its token.
pub fn request_viewer(app: &App, sessions: &Sessions, request: &Request) -> Option<Id>
    ensures { result ≡ (request_in (application_of app.now) sessions.now request.now).viewer }
{
    viewer_of(sessions, request.token.as_ref(), app)
}

fn make_ask(
    alloc: Global,
    viewer: Option<Id>,
    method: &Txt,
    path: &Txt,
    query: &Bytes,
    body: &Bytes,
) -> Result<Ask, Memory>
    ensures { IfOk result (λ ask. ask ≡ ask_by viewer method.now path.now query.now body.now) }
{
    let pairs = pairs_of(alloc, query.as_slice(), form_body(method, body))?;
    let method = method.copy(alloc)?;
    let path = path.copy(alloc)?;
    Ok(Ask {
        viewer,
        method,
        path,
        pairs,
    })
}

fn form_body<'b>(method: &Txt, body: &'b Bytes) -> &'b [u8]
    ensures { result.now ≡ form_body method.now body.now }
{
    if method.as_bytes() == b"POST".as_slice() {
        body.as_slice()
    } else {
        &[]
    }
}
