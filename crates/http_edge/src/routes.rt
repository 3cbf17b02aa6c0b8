//! What a request asks for: the routes of Engine.IO's one path, and which pages use them and may read
//! the answers (Fetch standard, "CORS protocol").

ghost use Rattle.std.specs.Prelude.{◌≡◌, Option, Some, None, IfOk, IfErr, option_map, string_bytes};
ghost use Rattle.http_edge.specs.Origins as origins;
ghost use Rattle.http_edge.specs.Origins.{IsDirected};
ghost use Rattle.http_edge.specs.Routes as routes;
ghost use Rattle.http_edge.specs.Routes.{IsRouted, value_of, is_value};
ghost use Rattle.http_edge.specs.declared.error.EdgeError.TheVariants.{Memory};

use crate::error::EdgeError;
use crate::request::Request;
use std::alloc::Global;
use terms::read_id;

/// Why a request is answered by status 400.
#[derive(Clone, Copy, Debug, PartialEq, Eq)]
pub enum Refusal {
    /// Code 0: a transport that is none.
    UnknownTransport,
    /// Code 1: no client has this id.
    UnknownSession,
    /// Code 2: a client opens by a GET.
    BadMethod,
    /// Code 3: all else.
    BadRequest,
    /// Code 5: another revision of the protocol.
    UnsupportedVersion,
}

/// The body of status 400.
pub fn refusal_body(refusal: Refusal) -> &'static str
    ensures { result.now ≡ routes.refusal_text refusal }
{
    match refusal {
        Refusal::UnknownTransport => r#"{"code":0,"message":"Transport unknown"}"#,
        Refusal::UnknownSession => r#"{"code":1,"message":"Session ID unknown"}"#,
        Refusal::BadMethod => r#"{"code":2,"message":"Bad handshake method"}"#,
        Refusal::BadRequest => r#"{"code":3,"message":"Bad request"}"#,
        Refusal::UnsupportedVersion => r#"{"code":5,"message":"Unsupported protocol version"}"#,
    }
}

/// What a request asks for.
#[derive(Clone, Copy, Debug, PartialEq, Eq)]
pub enum Target {
    /// Nothing that is here.
    NotFound,
    /// Nothing that is allowed.
    Refuse(Refusal),
    /// A new client, which polls.
    OpenPoll,
    /// A new client on a WebSocket.
    OpenSocket,
    /// What waits for this client.
    Poll(u128),
    /// This client's packets are brought.
    Post(u128),
    /// This client's transport is to become a WebSocket.
    ProbeSocket(u128),
    /// What a page of another origin may ask, which its browser wants to know first.
    Preflight,
}

/// What the request asks for.
pub fn route(alloc: Global, request: &Request) -> Result<Target, EdgeError>
    ensures routed { IfOk result (λ target. IsRouted request.now target) }
    ensures kinds { IfErr result (λ e. e ≡ Memory) }
{
    let query = request.query.as_str().as_bytes();
    let transport = first_value(alloc, query, "transport")?;
    let sid = first_value(alloc, query, "sid")?;
    let version = first_value(alloc, query, "EIO")?;
    // No `sid`, one that is no id, or an id.
    let id = sid.as_ref().map(|text| read_id(text.as_str()));
    Ok(choose(request, &transport, id, &version))
}

// The row of the table.
#[tactic(auto, unfolding(crate::specs::Routes::table))]
fn choose(
    request: &Request,
    transport: &Option<String>,
    sid: Option<Option<u128>>,
    version: &Option<String>,
) -> Target
    ensures { result ≡ routes.table
        (string_bytes request.now.path) (string_bytes request.now.method) request.now.upgrade
        (option_map string_bytes transport.now) sid (option_map string_bytes version.now) }
{
    let path = request.path.as_str();
    let get = request.method.as_str() == "GET";
    let post = request.method.as_str() == "POST";
    let socket = is_text(transport, "websocket");
    if path != "/socket.io/" && path != "/socket.io" {
        return Target::NotFound;
    }
    if !socket && !is_text(transport, "polling") {
        return Target::Refuse(Refusal::UnknownTransport);
    }
    let upgrades = get && request.upgrade;
    match sid {
        Some(None) => Target::Refuse(Refusal::UnknownSession),
        Some(Some(_)) if !get && !post => Target::Refuse(Refusal::BadRequest),
        _ if socket && !upgrades => Target::Refuse(Refusal::BadRequest),
        Some(Some(id)) if socket => Target::ProbeSocket(id),
        Some(Some(id)) if get => Target::Poll(id),
        Some(Some(id)) => Target::Post(id),
        None if !get => Target::Refuse(Refusal::BadMethod),
        None if !is_text(version, "4") => Target::Refuse(Refusal::UnsupportedVersion),
        None if socket => Target::OpenSocket,
        None => Target::OpenPoll,
    }
}

fn is_text(value: &Option<String>, text: &str) -> bool
    ensures { result ≡ is_value text.now (option_map string_bytes value.now) }
{
    matches!(value, Some(found) if found.as_str() == text)
}

// The value of the query's first pair with this key.
fn first_value(alloc: Global, query: &[u8], key: &str) -> Result<Option<String>, EdgeError>
    ensures value { IfOk result
        (λ value. option_map string_bytes value ≡ value_of key.now query.now) }
    ensures kinds { IfErr result (λ e. e ≡ Memory) }
{
    for pair in form_urlencoded::parse(alloc, query) {
        let (name, value) = pair?;
        if name.as_str() == key {
            return Ok(Some(value.into_owned(alloc)?));
        }
    }
    Ok(None)
}

/// What a page of a request's origin may do.
#[derive(Clone, Copy, Debug, PartialEq, Eq)]
pub(crate) enum Access {
    /// It is served. Where it is of another origin, its browser doesn't let it read the answer.
    Served,
    /// It is served, and may read the answer.
    Granted,
    /// It isn't served.
    Refused,
}

/// What a request asks for at a server that names these origins, `*` for all, or none. The request
/// keeps its origin where pages of it may read the answer, and forgets it else.
pub fn direct(alloc: Global, named: &[String], request: &mut Request) -> Result<Target, EdgeError>
    ensures directed { IfOk result
        (λ target. IsDirected named.now request.old target request.new) }
    ensures kinds { IfErr result (λ e. e ≡ Memory) }
{
    let target = route(alloc, request)?;
    let access = access_of(named, &request.origin);
    if access != Access::Granted {
        request.origin = None;
    }
    Ok(target_for(access, request.method.as_str(), target))
}

/// The access of a request with this `Origin`.
fn access_of(named: &[String], origin: &Option<String>) -> Access
    ensures { result ≡ origins.access_of named.now (option_map string_bytes origin.now) }
{
    match origin {
        Some(origin) if is_named(named, origin.as_str()) => Access::Granted,
        Some(_) if !named.is_empty() => Access::Refused,
        _ => Access::Served,
    }
}

fn is_named(named: &[String], origin: &str) -> bool
    ensures { result ≡ origins.is_named origin.now named.now }
{
    named
        .iter()
        .any(|name| name.as_str() == "*" || name.as_str() == origin)
}

/// The target of a request with this access, which the table has sent here.
fn target_for(access: Access, method: &str, target: Target) -> Target
    ensures { result ≡ origins.target_for access method.now target }
{
    match (access, target) {
        (Access::Refused, _) => Target::Refuse(Refusal::BadRequest),
        (Access::Granted, Target::Refuse(_)) if method == "OPTIONS" => Target::Preflight,
        _ => target,
    }
}
