//! What a path names.
ghost use Rattle.std.specs.Prelude.{◌≡◌, [], drop, length, option_map, false, MatchOption, OnOk, IfErr};
ghost use Rattle.std.specs.List.{list_all};
ghost use Rattle.channel_api.specs.Routes.{is_channel_name_byte, is_channel_name, route_path_of, route_rows, front, channel_name_in_route, found_at, route_of, pair, IsOutOfMemory};

use matchit::{InsertError, Router};
use std::alloc::Global;
use std::marker::Model;

/// What a path names, of the channel that it names.
#[derive(Clone, Copy, Debug, PartialEq, Eq)]
pub enum Resource {
    Channel,
    Origin,
    Decisions,
    Live,
    Why,
}

/// The routes.
#[derive(Drop)]
pub struct Routes {
    router: Router<Resource>,
}

impl Model for Routes {
    ghost use Rattle.std.specs.Prelude.{◌≡◌};
    ghost use Rattle.channel_api.specs.Routes.{route_rows};

    ghost Value = { Unit {0} };

    ghost view = { λ r. tt };

    ghost invariant = { λ r. r.router ≡ route_rows };
}

// How long the front of each route is, before the name. (The router says what the name took of the path by the bytes of the
// route's text, and only if the path's part is known to be UTF-8: to show that takes more than to cut the path here.)
const FRONT: usize = "/channels/".len();

// The path of a target.
fn route_path_of(target: &str) -> &str
    ensures { result.now ≡ route_path_of target.now }
{
    match target.split_once('?') {
        Some((front, _)) => front,
        None => target,
    }
}

// What stands after the front of a path, if it may be cut there; elsewhere there is no name.
fn after_route_front(path: &str) -> Option<&str>
    ensures { MatchOption result (is_channel_name (channel_name_in_route path.now) ≡ false)
        (λ rest. rest.now ≡ drop (length front) path.now) }
{
    path.get(FRONT..)
}

// The name in a path, if there can be one.
fn channel_name_in_route(path: &str) -> Option<&str>
    ensures { MatchOption result (is_channel_name (channel_name_in_route path.now) ≡ false)
        (λ name. name.now ≡ channel_name_in_route path.now) }
{
    let rest = after_route_front(path)?;
    match rest.split_once('/') {
        Some((front, _)) => Some(front),
        None => Some(rest),
    }
}

fn is_channel_name_byte(byte: u8) -> bool
    ensures { result ≡ is_channel_name_byte byte }
{
    byte.is_ascii_lowercase() || byte.is_ascii_digit() || byte == b'-'
}

fn are_channel_name_bytes(bytes: &[u8]) -> bool
    ensures { result ≡ list_all is_channel_name_byte bytes.now }
{
    bytes.iter().all(|byte| is_channel_name_byte(*byte))
}

/// Whether `name` can be the name of a channel: 1 to 32 bytes, each of a to z, 0 to 9 or `-`.
pub fn is_channel_name(name: &str) -> bool
    ensures { result ≡ is_channel_name name.now }
{
    if name.is_empty() || name.len() > 32 {
        return false;
    }
    are_channel_name_bytes(name.as_bytes())
}

// The routes go into a router that has none.
fn insert_channel_routes(router: &mut Router<Resource>) -> Result<(), InsertError>
    requires { router.old ≡ [] }
    ensures rows { OnOk result (router.new ≡ route_rows) }
    ensures memory { IfErr result IsOutOfMemory }
{
    router.insert("/channels/{name}", Resource::Channel)?;
    router.insert("/channels/{name}/origin", Resource::Origin)?;
    router.insert("/channels/{name}/decisions", Resource::Decisions)?;
    router.insert("/channels/{name}/live.m3u8", Resource::Live)?;
    router.insert("/channels/{name}/why", Resource::Why)?;
    Ok(())
}

impl Routes {
    /// The routes of the edge. Fails for a failed allocation alone: none of them is in another one's way.
    pub fn new(alloc: Global) -> Result<Routes, InsertError>
        ensures { IfErr result IsOutOfMemory }
    {
        let mut router = Router::new(alloc);
        insert_channel_routes(&mut router)?;
        Ok(Routes { router })
    }

    // The resource of the route that a path has.
    fn resource_at(&self, path: &str) -> Option<Resource>
        ensures { result ≡ option_map (λ route. route.value) (found_at path.now) }
    {
        match self.router.at(path) {
            Ok(found) => Some(*found.value),
            Err(_) => None,
        }
    }

    /// The name of the channel that `target` is of, and what of the channel; the query is left out. `None` if no
    /// route has the path or the name can be none of a channel, which is answered 404 (RFC 9110, section 15.5.5).
    /// Takes no memory.
    ///
    /// ```text
    /// routes.find("/channels/one/live.m3u8?x=1")    Some(("one", Resource::Live))
    /// routes.find("/other")                         None
    /// ```
    pub fn find<'t>(&self, target: &'t str) -> Option<(&'t str, Resource)>
        ensures { option_map pair result ≡ route_of (route_path_of target.now) }
    {
        let path = route_path_of(target);
        let resource = self.resource_at(path)?;
        let name = channel_name_in_route(path)?;
        if is_channel_name(name) {
            Some((name, resource))
        } else {
            None
        }
    }
}
